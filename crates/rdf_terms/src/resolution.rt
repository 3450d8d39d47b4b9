//! References resolved against a base (RFC 3986, section 5.2).
ghost use Rattle.std.specs.Prelude.{◌≡◌, ◌↔◌, ◌++◌, false, IsTrue, IsErrOf, IfOk, unwrap_or, []};
ghost use Rattle.std.specs.Option.{option_copied};
ghost use Rattle.rdf_terms.specs.Cuts.{colon, before, after};
ghost use Rattle.rdf_terms.specs.Iri.{has_forbidden, is_iri};
ghost use Rattle.rdf_terms.specs.Resolution.{LacksBase, Means, ResolvesTo, merged, target};
ghost use Rattle.rdf_terms.specs.Rewriting.{resolved};

use crate::cuts::{cut, slash_end};
use crate::dots::without_dots;
use crate::fault::{IriFault, NoMemory};
use crate::iri::{Iri, has_forbidden, has_scheme};
use crate::reference::Reference;
use crate::text::Text;
use std::alloc::Global;

/// The IRI that the reference means against the base (RFC 3986, section 5.2). A reference with a
/// scheme means itself, its dot segments too; any other one takes from the base what it lacks, and
/// a path that isn't the base's own loses its dot segments.
///
/// # Errors
/// [`IriFault::Relative`] where the reference has no scheme and there is no base; else
/// [`IriFault::BadCharacter`] where the reference has a character that stands in no IRI;
/// [`IriFault::NoMemory`] where memory is wanting.
pub fn resolve(alloc: Global, base: Option<&Iri>, reference: &str) -> Result<Iri, IriFault>
    ensures value { IfOk result (λ iri. Means (option_copied base.entry) reference.now iri) }
    ensures sound { IfOk result (λ iri. IsTrue (is_iri iri)) }
    ensures relative { IsErrOf result IriFault.Relative ↔ LacksBase
        (option_copied base.entry) reference.now }
    ensures bad_character { IsErrOf result IriFault.BadCharacter ↔ (IsTrue
        (has_forbidden reference.now) × ¬ LacksBase (option_copied base.entry) reference.now) }
{
    let bytes = reference.as_bytes();
    if has_scheme(bytes) {
        return Iri::new(alloc, reference);
    }
    let Some(base) = base else {
        return Err(IriFault::Relative);
    };
    if has_forbidden(bytes) {
        return Err(IriFault::BadCharacter);
    }
    Ok(resolved(alloc, base.as_str().as_bytes(), reference)?)
}

/// The IRI that a reference without forbidden characters gives against the base.
///
/// # Errors
/// [`NoMemory`] where memory is wanting.
pub fn resolved(alloc: Global, base: &[u8], reference: &str) -> Result<Iri, NoMemory>
    requires base { IsTrue (is_iri base.now) }
    requires allowed { has_forbidden reference.now ≡ false }
    ensures value { IfOk result (λ iri. ResolvesTo base.now reference.now iri) }
    ensures sound { IfOk result (λ iri. IsTrue (is_iri iri)) }
{
    let text = resolved_text(alloc, base, reference.as_bytes())?;
    Ok(iri_of(text)?)
}

// The IRI of bytes that are known to be one.
fn iri_of(bytes: Vec<u8>) -> Result<Iri, NoMemory>
    requires { IsTrue (is_iri bytes.items) }
    ensures { IfOk result (λ iri. iri ≡ bytes.items) }
{
    let Ok(text) = String::from_utf8(bytes) else {
        unreachable!()
    };
    let Ok(iri) = Iri::from_text(Text::from_string(text)?) else {
        unreachable!()
    };
    Ok(iri)
}

/// The text that a reference gives against the base.
///
/// # Errors
/// [`NoMemory`] where memory is wanting.
#[tactic(auto, unfolding(crate::specs::Rewriting::resolved))]
pub fn resolved_text(alloc: Global, base: &[u8], reference: &[u8]) -> Result<Vec<u8>, NoMemory>
    ensures { IfOk result (λ v. v.items ≡ resolved base.now reference.now) }
{
    let (scheme, rest) = split_scheme(base);
    let base = Reference::of(rest);
    let reference = Reference::of(reference);
    let path = target_path(alloc, &base, &reference)?;
    let target = with_path(&base, &reference, &path);
    let mut text = Vec::new(alloc);
    text.extend_from_slice(scheme)?;
    text.push(b':')?;
    target.push_to(&mut text)?;
    Ok(text)
}

/// The scheme of a base, and what follows its colon.
pub fn split_scheme(base: &[u8]) -> (&[u8], &[u8])
    ensures scheme { result.0.now ≡ before colon base.now }
    ensures rest { result.1.now ≡ unwrap_or (after colon base.now) [] }
{
    match cut(base, b':') {
        (scheme, Some(rest)) => (scheme, rest),
        (scheme, None) => (scheme, b""),
    }
}

// The path of the result.
fn target_path(
    alloc: Global,
    base: &Reference<'_>,
    reference: &Reference<'_>,
) -> Result<Vec<u8>, NoMemory>
    ensures { IfOk result (λ v. v.items ≡ (target base.now reference.now).path) }
{
    if reference.authority.is_some() {
        return without_dots(alloc, reference.path);
    }
    match reference.path {
        [] => Ok(Vec::from_slice(alloc, base.path)?),
        [b'/', ..] => without_dots(alloc, reference.path),
        _ => without_dots(alloc, &merged(alloc, base, reference.path)?),
    }
}

// The components of the result, given its path.
fn with_path<'a>(base: &Reference<'a>, reference: &Reference<'a>, path: &'a [u8]) -> Reference<'a>
    requires { path.now ≡ (target base.now reference.now).path }
    ensures { result ≡ target base.now reference.now }
{
    let is_same = reference.authority.is_none() && reference.path.is_empty();
    Reference {
        authority: reference.authority.or(base.authority),
        path,
        query: if is_same {
            reference.query.or(base.query)
        } else {
            reference.query
        },
        fragment: reference.fragment,
    }
}

// The path after the directory of the base's path.
fn merged(alloc: Global, base: &Reference<'_>, path: &[u8]) -> Result<Vec<u8>, NoMemory>
    ensures { IfOk result (λ v. v.items ≡ merged base.now path.now) }
{
    let front = if base.authority.is_some() && base.path.is_empty() {
        b"/".as_slice()
    } else {
        &base.path[..slash_end(base.path)]
    };
    let mut text = Vec::from_slice(alloc, front)?;
    text.extend_from_slice(path)?;
    Ok(text)
}
