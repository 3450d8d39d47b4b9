//! Examples of RFC 3986, section 5.4, with its strict answers, and what is refused.
use rdf_terms::{Iri, IriFault, resolve};
use std::alloc::Global;
use std::test::Fail;

fn is_resolved(alloc: Global, base: &Iri, reference: &str, wanted: &str) -> Result<bool, IriFault> {
    let iri = resolve(alloc, Some(base), reference)?;
    Ok(iri.as_str() == wanted)
}

#[test]
fn references(rt: HostRuntime) -> Result<(), Fail> {
    let alloc = rt.alloc();
    let base = Iri::new(alloc, "http://a/b/c/d;p?q")?;
    for (reference, wanted) in [
        ("g", "http://a/b/c/g"),
        ("../../../g", "http://a/g"),
        ("?y", "http://a/b/c/d;p?y"),
        ("", "http://a/b/c/d;p?q"),
        ("g;x=1/../y", "http://a/b/c/y"),
        ("http:g", "http:g"),
    ] {
        assert!(rt;
            is_resolved(alloc, &base, reference, wanted)?,
            "{reference}"
        );
    }
    Ok(())
}

#[test]
fn refusals(rt: HostRuntime) -> Result<(), Fail> {
    let alloc = rt.alloc();
    let base = Iri::new(alloc, "http://a/b")?;
    assert!(rt; matches!(resolve(alloc, None, "g h"), Err(IriFault::Relative)));
    assert!(rt; matches!(resolve(alloc, None, "x:g h"), Err(IriFault::BadCharacter)));
    assert!(rt;
        matches!(
            resolve(alloc, Some(&base), "g h/../i"),
            Err(IriFault::BadCharacter)
        )
    );
    Ok(())
}
