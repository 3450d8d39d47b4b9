//! Where the components of a base stand in its text (RFC 3986, section 3).
ghost use Rattle.std.specs.Prelude.{◌≡◌, ◌≤◌, true, length};
ghost use Rattle.std.specs.Option.{option_copied};
ghost use Rattle.rdf_terms.specs.Iri.{has_scheme};
ghost use Rattle.rdf_terms.specs.Layout.{IsLayout};
ghost use Rattle.rdf_terms.specs.Reference.{marked};

use crate::reference::Reference;
use crate::resolution::split_scheme;

/// Where the path of a base begins and ends, and where its query ends. A path that is called plain
/// has no dot segment.
#[derive(Clone, Copy)]
pub struct Layout {
    pub has_authority: bool,
    pub path_start: usize,
    pub path_end: usize,
    pub query_end: usize,
    pub is_plain: bool,
}

impl Layout {
    /// The layout of a base. Its path isn't looked through for dot segments.
    pub fn of(base: &[u8]) -> Layout
        requires { has_scheme base.now ≡ true }
        ensures { IsLayout base.now result }
    {
        let (_, rest) = split_scheme(base);
        let parts = Reference::of(rest);
        let query_end = base.len() - marked_len(b"#", parts.fragment);
        let path_end = query_end - marked_len(b"?", parts.query);
        Layout {
            has_authority: parts.authority.is_some(),
            path_start: path_end - parts.path.len(),
            path_end,
            query_end,
            is_plain: false,
        }
    }
}

// How long a component is with its mark before it.
fn marked_len(mark: &[u8], part: Option<&[u8]>) -> usize
    requires { length mark.now ≤ 2 }
    ensures { result ≡ length (marked mark.now (option_copied part.entry)) }
{
    match part {
        Some(text) => mark.len() + text.len(),
        None => 0,
    }
}
