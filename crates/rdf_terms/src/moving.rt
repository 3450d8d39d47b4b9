//! A base moved where it stands: what is kept of its text, and what comes behind that.
ghost use Rattle.std.specs.Prelude.{◌≡◌, ◌+◌, ◌^◌, ◌<◌, ◌≤◌, ◌++◌, ◌&&◌, true, false, length, take, IfOk, OnOk, OnErr, List, ℕ, codes, is_some, not, nat_eq, if◌then◌else◌};
ghost use Rattle.std.specs.List.{list_any, starts_with};
ghost use Rattle.rdf_terms.specs.Cuts.{up_to_slash};
ghost use Rattle.rdf_terms.specs.Dots.{is_dot_segment, segments};
ghost use Rattle.rdf_terms.specs.Iri.{has_scheme};
ghost use Rattle.rdf_terms.specs.Layout.{IsLayout, IsMove, TakesPath};
ghost use Rattle.rdf_terms.specs.Reference.{marked};
ghost use Rattle.rdf_terms.specs.Resolution.{is_empty, merged};
ghost use Rattle.rdf_terms.specs.Rewriting.{components_of, parts_of, written, GoesOnBehind};

use crate::cuts::slash_end;
use crate::dots::{Output, rewritten};
use crate::fault::NoMemory;
use crate::layout::Layout;
use crate::reference::{Reference, push_marked};
use crate::resolution::resolved_text;
use std::alloc::Global;

/// How the text of a base changes: where it is cut off, what comes behind that, and the layout then.
#[derive(Drop)]
pub struct Change {
    pub kept: usize,
    pub added: Vec<u8>,
    pub layout: Layout,
}

/// What moves the base to the text that a reference gives. A part that the base keeps isn't copied:
/// where the reference has no authority that is all up to its path, or into its path.
///
/// # Errors
/// [`NoMemory`] where memory is wanting.
pub fn moved(
    alloc: Global,
    base: &[u8],
    layout: Layout,
    reference: &[u8],
) -> Result<Change, NoMemory>
    requires scheme { has_scheme base.now ≡ true }
    requires layout { IsLayout base.now layout }
    ensures { IfOk result (λ change. IsMove base.now reference.now change) }
{
    let parts = Reference::of(reference);
    if parts.authority.is_some() {
        return anew(alloc, base, reference);
    }
    match parts.path {
        [] => with_end(alloc, layout, &parts),
        [b'/', ..] => with_path(alloc, base, layout, b"", parts.path, reference),
        _ => with_merged(alloc, base, layout, reference),
    }
}

// The whole text is put together.
fn anew(alloc: Global, base: &[u8], reference: &[u8]) -> Result<Change, NoMemory>
    requires { has_scheme base.now ≡ true }
    ensures { IfOk result (λ change. IsMove base.now reference.now change) }
{
    let added = resolved_text(alloc, base, reference)?;
    let layout = Layout::of(&added);
    Ok(Change {
        kept: 0,
        added,
        layout,
    })
}

// The reference has no authority and no path: the base keeps its path, and where the reference has
// no query, its query.
fn with_end(alloc: Global, layout: Layout, reference: &Reference<'_>) -> Result<Change, NoMemory>
    requires order { layout.path_end ≤ layout.query_end }
    requires small { layout.query_end < 2 ^ 63 }
    ensures kept { let kept = (if is_some reference.now.query then layout.path_end else layout.query_end) in
        IfOk result (λ change. change.kept ≡ kept) }
    ensures added { let query = marked (codes "?") reference.now.query in
        let end = query ++ marked (codes "#") reference.now.fragment in
        IfOk result (λ change. change.added.items ≡ end) }
    ensures layout { let query = marked (codes "?") reference.now.query in
        IfOk result (λ change. change.layout
        ≡ record layout { query_end = change.kept + length query }) }
{
    let kept = if reference.query.is_some() {
        layout.path_end
    } else {
        layout.query_end
    };
    let mut added = Vec::new(alloc);
    push_marked(b"?", reference.query, &mut added)?;
    let query_end = kept + added.len();
    push_marked(b"#", reference.fragment, &mut added)?;
    Ok(Change {
        kept,
        added,
        layout: Layout {
            query_end,
            ..layout
        },
    })
}

// The path is that of the reference behind the directory of the base's path.
fn with_merged(
    alloc: Global,
    base: &[u8],
    layout: Layout,
    reference: &[u8],
) -> Result<Change, NoMemory>
    requires scheme { has_scheme base.now ≡ true }
    requires layout { IsLayout base.now layout }
    requires path { let parts = components_of reference.now in
        TakesPath base.now parts (merged (parts_of base.now) parts.path) }
    ensures { IfOk result (λ change. IsMove base.now reference.now change) }
{
    let parts = Reference::of(reference);
    let path = &base[layout.path_start..layout.path_end];
    let (front, lead) = directory(path, layout);
    let mut rest = Vec::from_slice(alloc, lead)?;
    rest.extend_from_slice(parts.path)?;
    with_path(alloc, base, layout, front, &rest, reference)
}

// The directory of a base's path, in two parts: a front behind which the rewriting goes on, and the
// rest.
fn directory(path: &[u8], layout: Layout) -> (&[u8], &[u8])
    requires { layout.is_plain ≡ true → list_any is_dot_segment (segments path.now) ≡ false }
    ensures value { let root = layout.has_authority && is_empty path.now in
        let directory = (if root then codes "/" else up_to_slash path.now) in
        result.0.now ++ result.1.now ≡ directory }
    ensures front { result.0.now ≡ take (length result.0.now) path.now }
    ensures goes_on { (rest : List ℕ) → GoesOnBehind result.0.now (result.1.now ++ rest) }
{
    let end = slash_end(path);
    if layout.is_plain && end > 0 {
        (&path[..end - 1], b"/")
    } else if layout.has_authority && path.is_empty() {
        (b"", b"/")
    } else {
        (b"", &path[..end])
    }
}

// The path is what a front of the base's path and the path behind it come to without dot segments.
fn with_path(
    alloc: Global,
    base: &[u8],
    layout: Layout,
    front: &[u8],
    path: &[u8],
    reference: &[u8],
) -> Result<Change, NoMemory>
    requires scheme { has_scheme base.now ≡ true }
    requires layout { IsLayout base.now layout }
    requires front { front.now ≡ take (length front.now) (parts_of base.now).path }
    requires goes_on { GoesOnBehind front.now path.now }
    requires path { TakesPath base.now (components_of reference.now) (front.now ++ path.now) }
    ensures { IfOk result (λ change. IsMove base.now reference.now change) }
{
    let parts = Reference::of(reference);
    let output = rewritten(alloc, front, path)?;
    if reads_as_authority(layout, front, &output) {
        return anew(alloc, base, reference);
    }
    let kept = layout.path_start + output.kept;
    let mut added = output.added;
    let path_end = kept + added.len();
    push_marked(b"?", parts.query, &mut added)?;
    let query_end = kept + added.len();
    push_marked(b"#", parts.fragment, &mut added)?;
    Ok(Change {
        kept,
        added,
        layout: Layout {
            has_authority: layout.has_authority,
            path_start: layout.path_start,
            path_end,
            query_end,
            is_plain: true,
        },
    })
}

// Whether a path would be read as an authority: there is none, and the path begins with two slashes.
fn reads_as_authority(layout: Layout, front: &[u8], path: &Output) -> bool
    requires { path.now.kept ≤ length front.now }
    ensures { let begins = starts_with nat_eq (written front.now path.now) (codes "//") in
        result ≡ (not layout.has_authority && begins) }
{
    !layout.has_authority && begins_with_slashes(&front[..path.kept], &path.added)
}

// Whether the text behind a front, with that, begins with two slashes.
fn begins_with_slashes(front: &[u8], behind: &[u8]) -> bool
    ensures { result ≡ starts_with nat_eq (front.now ++ behind.now) (codes "//") }
{
    match front {
        [] => behind.starts_with(b"//"),
        [first] => *first == b'/' && behind.starts_with(b"/"),
        _ => front.starts_with(b"//"),
    }
}

/// Cuts the text off, and appends to it.
///
/// # Errors
/// [`NoMemory`] where memory is wanting; the text is as before then.
pub fn replace_end(text: &mut Vec<u8>, kept: usize, added: &[u8]) -> Result<(), NoMemory>
    ensures replaced { OnOk result (text.new.items ≡ take kept text.old.items ++ added.now) }
    ensures kept { OnErr result (text.new.items ≡ text.old.items) }
{
    text.reserve(added.len())?;
    text.truncate(kept);
    let Ok(()) = text.extend_from_slice(added) else {
        unreachable!()
    };
    Ok(())
}
