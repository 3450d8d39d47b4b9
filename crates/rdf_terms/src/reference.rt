//! The components of a reference (RFC 3986, section 3).
ghost use Rattle.std.specs.Prelude.{◌≡◌, ◌++◌, OnOk, codes};
ghost use Rattle.std.specs.Option.{option_copied};
ghost use Rattle.rdf_terms.specs.Cuts.{slash, before, after};
ghost use Rattle.rdf_terms.specs.Rewriting.{components_of};
ghost use Rattle.rdf_terms.specs.Reference.{recomposed, marked};

use crate::cuts::cut;
use crate::fault::NoMemory;
use std::marker::Model;

/// The components of a reference, or of a base after its scheme. An absent one is `None`.
#[derive(Drop)]
pub struct Reference<'a> {
    pub authority: Option<&'a [u8]>,
    pub path: &'a [u8],
    pub query: Option<&'a [u8]>,
    pub fragment: Option<&'a [u8]>,
}

impl<'a> Model for Reference<'a> {
    ghost use Rattle.std.specs.Option.{option_copied};
    ghost use Rattle.rdf_terms.specs.Reference.{Components};

    ghost Value = { Components };

    ghost view = { λ r. record {
      authority = option_copied r.authority;
      path = r.path.now;
      query = option_copied r.query;
      fragment = option_copied r.fragment;
    } };
}

impl<'a> Reference<'a> {
    /// The components of the text.
    pub fn of(text: &'a [u8]) -> Reference<'a>
        ensures { result ≡ components_of text.now }
    {
        let (front, fragment) = cut(text, b'#');
        let (front, query) = cut(front, b'?');
        if front.starts_with(b"//") {
            let (authority, path) = split_authority(&front[2..]);
            return Reference {
                authority: Some(authority),
                path,
                query,
                fragment,
            };
        }
        Reference {
            authority: None,
            path: front,
            query,
            fragment,
        }
    }

    /// Appends the text with these components (RFC 3986, section 5.3).
    ///
    /// # Errors
    /// [`NoMemory`] where memory is wanting; a part of the text may then stand at the end.
    pub fn push_to(&self, out: &mut Vec<u8>) -> Result<(), NoMemory>
        ensures { OnOk result (out.new.items ≡ out.old.items ++ recomposed self.now) }
    {
        push_marked(b"//", self.authority, out)?;
        out.extend_from_slice(self.path)?;
        push_marked(b"?", self.query, out)?;
        push_marked(b"#", self.fragment, out)
    }
}

// The authority, and the path that begins at the first slash after it.
fn split_authority(rest: &[u8]) -> (&[u8], &[u8])
    ensures authority { result.0.now ≡ before slash rest.now }
    ensures path { result.1.now ≡ marked (codes "/") (after slash rest.now) }
{
    let (authority, _) = cut(rest, b'/');
    rest.split_at(authority.len())
}

/// Appends the component with its mark before it, if it is present.
///
/// # Errors
/// [`NoMemory`] where memory is wanting; a part of the text may then stand at the end.
pub fn push_marked(mark: &[u8], part: Option<&[u8]>, out: &mut Vec<u8>) -> Result<(), NoMemory>
    ensures { OnOk result (out.new.items
        ≡ out.old.items ++ marked mark.now (option_copied part.entry)) }
{
    if let Some(text) = part {
        out.extend_from_slice(mark)?;
        out.extend_from_slice(text)?;
    }
    Ok(())
}
