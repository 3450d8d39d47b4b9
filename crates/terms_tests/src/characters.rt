//! Classes of characters, texts with escapes, and what refusals display.
use rdf_terms::{
    IriFault, NoMemory, is_forbidden_in_iri, is_pn_chars, is_pn_chars_base, is_pn_chars_u, unescape,
};
use std::alloc::{AllocError, Global};
use std::test::Fail;

// Whether a text writes another one.
fn is_written(alloc: Global, text: &str, wanted: &str) -> Result<bool, Fail> {
    let value = unescape(alloc, text)?.ok_or("no text")?;
    Ok(value.as_str() == wanted)
}

#[test]
fn escapes(rt: HostRuntime) -> Result<(), Fail> {
    for (text, wanted) in [
        ("", ""),
        ("a\u{e9}b", "a\u{e9}b"),
        ("\\t\\b\\n\\r\\f\\\"\\'\\\\", "\t\u{8}\n\r\u{c}\"'\\"),
        ("\\u00e9\\u00E9", "\u{e9}\u{e9}"),
        ("\\U0001F600x", "\u{1F600}x"),
        ("\\U0010FFFF\\uD7FF\\uE000", "\u{10FFFF}\u{D7FF}\u{E000}"),
        ("\\\\u0041", "\\u0041"),
    ] {
        assert!(rt; is_written(rt.alloc(), text, wanted)?, "{text}");
    }
    Ok(())
}

#[test]
fn no_escapes(rt: HostRuntime) -> Result<(), Fail> {
    for text in [
        "\\",
        "a\\",
        "\\a",
        "\\T",
        "\\u",
        "\\u00E",
        "\\u00G0",
        "\\U0001F60",
        "\\uD800",
        "\\uDFFF",
        "\\U00110000",
        "\\x41",
    ] {
        assert!(rt; unescape(rt.alloc(), text)?.is_none(), "{text}");
    }
    Ok(())
}

// In which of the classes a character is: PN_CHARS_BASE, PN_CHARS_U, PN_CHARS, and what stands in no IRI.
fn classes(c: char) -> (bool, bool, bool, bool) {
    (
        is_pn_chars_base(c),
        is_pn_chars_u(c),
        is_pn_chars(c),
        is_forbidden_in_iri(c),
    )
}

const LETTER: (bool, bool, bool, bool) = (true, true, true, false);

const AMID: (bool, bool, bool, bool) = (false, false, true, false);

const OTHER: (bool, bool, bool, bool) = (false, false, false, false);

const FORBIDDEN: (bool, bool, bool, bool) = (false, false, false, true);

// The first and the last character of each range of PN_CHARS_BASE.
const LETTERS: [(char, char); 14] = [
    ('A', 'Z'),
    ('a', 'z'),
    ('\u{C0}', '\u{D6}'),
    ('\u{D8}', '\u{F6}'),
    ('\u{F8}', '\u{2FF}'),
    ('\u{370}', '\u{37D}'),
    ('\u{37F}', '\u{1FFF}'),
    ('\u{200C}', '\u{200D}'),
    ('\u{2070}', '\u{218F}'),
    ('\u{2C00}', '\u{2FEF}'),
    ('\u{3001}', '\u{D7FF}'),
    ('\u{F900}', '\u{FDCF}'),
    ('\u{FDF0}', '\u{FFFD}'),
    ('\u{10000}', '\u{EFFFF}'),
];

#[test]
fn letters(rt: HostRuntime) {
    for (first, last) in LETTERS {
        assert!(rt; classes(first) == LETTER && classes(last) == LETTER);
    }
    assert!(rt; classes('_') == (false, true, true, false));
}

#[test]
fn amid_names(rt: HostRuntime) {
    for c in [
        '-', '0', '9', '\u{B7}', '\u{300}', '\u{36F}', '\u{203F}', '\u{2040}',
    ] {
        assert!(rt; classes(c) == AMID);
    }
}

#[test]
fn outside_names(rt: HostRuntime) {
    for c in [
        '!',
        ':',
        '.',
        '@',
        '[',
        '~',
        '\u{7F}',
        '\u{B6}',
        '\u{B8}',
        '\u{BF}',
        '\u{D7}',
        '\u{F7}',
        '\u{37E}',
        '\u{2000}',
        '\u{200B}',
        '\u{200E}',
        '\u{203E}',
        '\u{2041}',
        '\u{206F}',
        '\u{2190}',
        '\u{2BFF}',
        '\u{2FF0}',
        '\u{3000}',
        '\u{E000}',
        '\u{F8FF}',
        '\u{FDD0}',
        '\u{FDEF}',
        '\u{FFFE}',
        '\u{FFFF}',
        '\u{F0000}',
        '\u{10FFFF}',
    ] {
        assert!(rt; classes(c) == OTHER);
    }
    for c in [
        '\0', '\u{1F}', ' ', '<', '>', '"', '{', '}', '|', '^', '`', '\\',
    ] {
        assert!(rt; classes(c) == FORBIDDEN);
    }
}

#[test]
fn displayed(rt: HostRuntime) -> Result<(), Fail> {
    let alloc = rt.alloc();
    let refused = NoMemory::from(AllocError);
    let relative = IriFault::Relative;
    let bad = IriFault::BadCharacter;
    let wanting = IriFault::from(refused);
    assert_eq!(rt; format!(in alloc; "{refused}")?.as_str(), "no memory");
    assert_eq!(rt; format!(in alloc; "{wanting}")?.as_str(), "no memory");
    let text = format!(in alloc; "{relative}")?;
    assert_eq!(rt; text.as_str(), "the IRI has no scheme");
    let text = format!(in alloc; "{bad}")?;
    assert_eq!(rt;
        text.as_str(),
        "the IRI has a character that may not stand there"
    );
    Ok(())
}
