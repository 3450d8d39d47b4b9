//! What stands between `<` and `>`.
ghost use Rattle.std.specs.Prelude.{◌≡◌, false, if◌then◌else◌};
ghost use Rattle.rdf_terms.specs.Iri.{has_scheme, has_forbidden};

use crate::iri::Iri;
use crate::text::Text;
use std::marker::Model;

/// An IRI, or a reference that is relative to one: a text with no character that is forbidden in IRIs.
#[derive(Debug, Drop)]
pub struct IriReference {
    text: Text,
}

impl Model for IriReference {
    ghost use Rattle.std.specs.Prelude.{◌≡◌, ℕ, List, false};
    ghost use Rattle.rdf_terms.specs.Iri.{has_forbidden};

    ghost Value = { List ℕ };

    ghost view = { λ r. r.text };

    ghost invariant = { λ r. has_forbidden r.text ≡ false };
}

impl IriReference {
    /// The reference of this text.
    pub(crate) fn from_text(text: Text) -> IriReference
        requires { has_forbidden text ≡ false }
        ensures { result ≡ text }
    {
        IriReference { text }
    }

    /// The characters of the reference.
    pub fn as_str(&self) -> &str
        ensures value { result.now ≡ self.now }
        ensures allowed { has_forbidden self.now ≡ false }
    {
        self.text.as_str()
    }

    /// The IRI that this is, where it has a scheme.
    pub fn into_iri(self) -> Option<Iri>
        ensures { result ≡ (if has_scheme self then Some self else None) }
    {
        Iri::from_allowed(self.text)
    }
}
