//! Rows of the standards' own examples, as each form of results writes them.
use rdf_terms::*;
use sparql_results::*;
use std::alloc::Global;
use std::test::Fail;

fn iri_of(alloc: Global, text: &str) -> Result<Option<Term>, Fail> {
    Ok(Some(Term::Iri(Iri::new(alloc, text)?)))
}

fn typed_of(alloc: Global, lexical: &str, datatype: &str) -> Result<Option<Term>, Fail> {
    let datatype = Iri::new(alloc, datatype)?;
    Ok(Some(Term::Literal(Literal::new(alloc, lexical, datatype)?)))
}

fn plain_of(alloc: Global, lexical: &str) -> Result<Option<Term>, Fail> {
    let datatype = Iri::xsd_string(alloc)?;
    Ok(Some(Term::Literal(Literal::new(alloc, lexical, datatype)?)))
}

fn tagged_of(alloc: Global, lexical: &str, tag: &str) -> Result<Option<Term>, Fail> {
    let literal = Literal::tagged(alloc, lexical, tag)?.ok_or("no tag")?;
    Ok(Some(Term::Literal(literal)))
}

fn csv_of(alloc: Global, values: &[Option<Term>]) -> Result<Vec<u8>, Fail> {
    let mut out = Vec::new(alloc);
    write_csv_row(alloc, values, &mut out)?;
    Ok(out)
}

fn json_of(alloc: Global, columns: &[Text], values: &[Option<Term>]) -> Result<Vec<u8>, Fail> {
    let mut out = Vec::new(alloc);
    write_json_row(alloc, false, columns, values, &mut out)?;
    Ok(out)
}

#[test]
fn csv_headers(rt: HostRuntime) -> Result<(), Fail> {
    let alloc = rt.alloc();
    let columns = [Text::new(alloc, "x")?, Text::new(alloc, "literal")?];
    let mut out = Vec::new(alloc);
    write_csv_header(alloc, &columns, &mut out)?;
    assert!(rt; out.as_slice() == b"x,literal\r\n".as_slice());
    Ok(())
}

#[test]
fn csv_rows(rt: HostRuntime) -> Result<(), Fail> {
    let alloc = rt.alloc();
    let quoted = [
        iri_of(alloc, "http://example/x")?,
        plain_of(alloc, "String-with-dquote\"")?,
    ];
    assert!(rt;
        csv_of(alloc, &quoted)?.as_slice()
            == b"http://example/x,\"String-with-dquote\"\"\"\r\n".as_slice()
    );
    let blank = [Some(Term::Blank(0)), plain_of(alloc, "Blank node")?];
    assert!(rt; csv_of(alloc, &blank)?.as_slice() == b"_:b0,Blank node\r\n".as_slice());
    let tagged = [
        Some(Term::Blank(1)),
        tagged_of(alloc, "String-with-lang", "en")?,
    ];
    assert!(rt; csv_of(alloc, &tagged)?.as_slice() == b"_:b1,String-with-lang\r\n".as_slice());
    Ok(())
}

#[test]
fn csv_unbound(rt: HostRuntime) -> Result<(), Fail> {
    let alloc = rt.alloc();
    let missing = [None, plain_of(alloc, "Missing 'x'")?];
    assert!(rt; csv_of(alloc, &missing)?.as_slice() == b",Missing 'x'\r\n".as_slice());
    assert!(rt; csv_of(alloc, &[None, None])?.as_slice() == b",\r\n".as_slice());
    assert!(rt; csv_of(alloc, &[None])?.as_slice() == b"\"\"\r\n".as_slice());
    Ok(())
}

#[test]
fn csv_lines(rt: HostRuntime) -> Result<(), Fail> {
    let alloc = rt.alloc();
    let lines = [
        plain_of(alloc, "a\nb")?,
        plain_of(alloc, "c,d")?,
        plain_of(alloc, "e\rf")?,
    ];
    assert!(rt; csv_of(alloc, &lines)?.as_slice() == b"\"a\nb\",\"c,d\",\"e\rf\"\r\n".as_slice());
    Ok(())
}

#[test]
fn json_selections(rt: HostRuntime) -> Result<(), Fail> {
    let alloc = rt.alloc();
    let columns = [Text::new(alloc, "x")?, Text::new(alloc, "name")?];
    let row = [Some(Term::Blank(2)), tagged_of(alloc, "Bob", "en")?];
    let mut out = Vec::new(alloc);
    write_json_header(alloc, &columns, &mut out)?;
    write_json_row(alloc, true, &columns, &row, &mut out)?;
    write_json_row(alloc, false, &columns, &[None, None], &mut out)?;
    out.extend_from_slice(json_end_text().as_bytes())?;
    let wanted =
        "{\"head\":{\"vars\":[\"x\",\"name\"]},\"results\":{\"bindings\":[\n{\"x\":{\"type\":\"bnode\",\"value\":\"b2\"},\"name\":{\"type\":\"literal\",\"value\":\"Bob\",\"xml:lang\":\"en\"}},\n{}\n]}}\n";
    assert!(rt; out.as_slice() == wanted.as_bytes());
    Ok(())
}

#[test]
fn json_terms(rt: HostRuntime) -> Result<(), Fail> {
    let alloc = rt.alloc();
    let columns = [Text::new(alloc, "age")?, Text::new(alloc, "mbox")?];
    let row = [
        typed_of(alloc, "30", "http://www.w3.org/2001/XMLSchema#integer")?,
        iri_of(alloc, "mailto:bob@work.example.org")?,
    ];
    let wanted =
        ",\n{\"age\":{\"type\":\"literal\",\"value\":\"30\",\"datatype\":\"http://www.w3.org/2001/XMLSchema#integer\"},\"mbox\":{\"type\":\"uri\",\"value\":\"mailto:bob@work.example.org\"}}";
    assert!(rt; json_of(alloc, &columns, &row)?.as_slice() == wanted.as_bytes());
    Ok(())
}

#[test]
fn json_strings(rt: HostRuntime) -> Result<(), Fail> {
    let alloc = rt.alloc();
    let columns = [Text::new(alloc, "v")?];
    let row = [plain_of(alloc, "\"\\/\u{8}\u{c}\n\r\t\u{0}\u{1f}\u{7f}\u{e9}")?];
    let wanted =
        ",\n{\"v\":{\"type\":\"literal\",\"value\":\"\\\"\\\\/\\b\\f\\n\\r\\t\\u0000\\u001f\u{7f}\u{e9}\"}}";
    assert!(rt; json_of(alloc, &columns, &row)?.as_slice() == wanted.as_bytes());
    Ok(())
}

#[test]
fn booleans(rt: HostRuntime) {
    assert_eq!(rt; json_boolean_text(true), "{\"head\":{},\"boolean\":true}\n");
    assert_eq!(rt;
        json_boolean_text(false),
        "{\"head\":{},\"boolean\":false}\n"
    );
}
