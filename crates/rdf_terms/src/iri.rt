//! IRIs (RDF 1.1 Concepts, section 3.2).
ghost use Rattle.std.specs.Prelude.{◌≡◌, ◌↔◌, ◌&&◌, true, false, length, IsTrue, IsErrOf, IfOk, if◌then◌else◌};
ghost use Rattle.std.specs.List.{list_all};
ghost use Rattle.rdf_terms.specs.Iri.{has_scheme, has_forbidden, is_forbidden, is_scheme, is_scheme_byte, is_iri};
ghost use Rattle.rdf_terms.specs.Literal.{lang_string, xsd_string};
ghost use Rattle.rdf_terms.specs.Names.{no_memory};

use crate::cuts::cut;
use crate::fault::{IriFault, NoMemory};
use crate::text::Text;
use std::alloc::Global;
use std::marker::Model;

/// An absolute IRI: it has a scheme and no forbidden character. A contract sees its UTF-8 bytes.
#[derive(PartialEq, Eq, PartialOrd, Ord, Hash, Debug, Drop)]
pub struct Iri {
    text: Text,
}

impl Model for Iri {
    ghost use Rattle.std.specs.Prelude.{ℕ, List, IsTrue};
    ghost use Rattle.rdf_terms.specs.Iri.{is_iri};

    ghost Value = { List ℕ };

    ghost view = { λ i. i.text };

    ghost invariant = { λ i. IsTrue (is_iri i.text) };

    ghost inverse = { λ bytes. record { text = bytes } };
}

impl Iri {
    /// The IRI of this text.
    ///
    /// # Errors
    /// [`IriFault::Relative`] where the text has no scheme; else [`IriFault::BadCharacter`] where
    /// it has a character that stands in no IRI; [`IriFault::NoMemory`] where memory is wanting.
    pub fn new(alloc: Global, text: &str) -> Result<Iri, IriFault>
        ensures value { IfOk result (λ iri. iri ≡ text.now) }
        ensures sound { IfOk result (λ _. IsTrue (is_iri text.now)) }
        ensures relative { IsErrOf result IriFault.Relative ↔ (has_scheme text.now ≡ false) }
        ensures bad_character { IsErrOf result IriFault.BadCharacter ↔ IsTrue
            (has_scheme text.now && has_forbidden text.now) }
    {
        check(text)?;
        Ok(Iri {
            text: Text::new(alloc, text)?,
        })
    }

    /// The IRI of this text, which it takes over. It takes no memory.
    ///
    /// # Errors
    /// [`IriFault::Relative`] and [`IriFault::BadCharacter`] as for [`Iri::new`].
    pub fn from_text(text: Text) -> Result<Iri, IriFault>
        ensures value { IfOk result (λ iri. iri ≡ text) }
        ensures sound { IfOk result (λ _. IsTrue (is_iri text)) }
        ensures relative { IsErrOf result IriFault.Relative ↔ (has_scheme text ≡ false) }
        ensures bad_character { IsErrOf result IriFault.BadCharacter ↔ IsTrue
            (has_scheme text && has_forbidden text) }
        ensures memory { IsErrOf result no_memory → ⊥ }
    {
        check(text.as_str())?;
        Ok(Iri { text })
    }

    /// The IRI of this text, which has no character that stands in no IRI, or `None` where it has
    /// no scheme.
    pub fn from_allowed(text: Text) -> Option<Iri>
        requires { has_forbidden text ≡ false }
        ensures { result ≡ (if has_scheme text then Some text else None) }
    {
        if has_scheme(text.as_str().as_bytes()) {
            Some(Iri { text })
        } else {
            None
        }
    }

    /// The IRI of a word that is known to be one.
    pub(crate) fn known(alloc: Global, word: &str) -> Result<Iri, NoMemory>
        requires scheme { has_scheme word.now ≡ true }
        requires allowed { has_forbidden word.now ≡ false }
        ensures { IfOk result (λ iri. iri ≡ word.now) }
    {
        Ok(Iri {
            text: Text::new(alloc, word)?,
        })
    }

    /// The datatype of literals with a language tag.
    pub(crate) fn lang_string(alloc: Global) -> Result<Iri, NoMemory>
        ensures { IfOk result (λ iri. iri ≡ lang_string) }
    {
        Ok(Iri {
            text: Text::new(
                alloc,
                "http://www.w3.org/1999/02/22-rdf-syntax-ns#langString",
            )?,
        })
    }

    /// The datatype of plain strings.
    ///
    /// # Errors
    /// [`NoMemory`] where memory is wanting.
    pub fn xsd_string(alloc: Global) -> Result<Iri, NoMemory>
        ensures { IfOk result (λ iri. iri ≡ xsd_string) }
    {
        Ok(Iri {
            text: Text::new(alloc, "http://www.w3.org/2001/XMLSchema#string")?,
        })
    }

    /// The characters of the IRI.
    pub fn as_str(&self) -> &str
        ensures value { result.now ≡ self.now }
        ensures sound { IsTrue (is_iri self.now) }
    {
        self.text.as_str()
    }

    /// An equal IRI.
    ///
    /// # Errors
    /// [`NoMemory`] where memory is wanting.
    #[inline(always)]
    pub fn copy(&self) -> Result<Iri, NoMemory>
        ensures { IfOk result (λ iri. iri ≡ self.now) }
    {
        Ok(Iri {
            text: self.text.copy()?,
        })
    }
}

// Whether the text is an IRI, and why not.
fn check(text: &str) -> Result<(), IriFault>
    ensures sound { IfOk result (λ _. IsTrue (is_iri text.now)) }
    ensures relative { IsErrOf result IriFault.Relative ↔ (has_scheme text.now ≡ false) }
    ensures bad_character { IsErrOf result IriFault.BadCharacter ↔ IsTrue
        (has_scheme text.now && has_forbidden text.now) }
    ensures memory { IsErrOf result no_memory → ⊥ }
{
    if !has_scheme(text.as_bytes()) {
        return Err(IriFault::Relative);
    }
    if has_forbidden(text.as_bytes()) {
        return Err(IriFault::BadCharacter);
    }
    Ok(())
}

// A byte that may stand in an IRI stands at its own place, or an `x` for those from U+007F on, and
// a `<` at every other place.
static IRI_MAP: [u8; 256] = *b"\
    <<<<<<<<<<<<<<<<<<<<<<<<<<<<<<<<\
    <!<#$%&'()*+,-./0123456789:;<=<?\
    @ABCDEFGHIJKLMNOPQRSTUVWXYZ[<]<_\
    <abcdefghijklmnopqrstuvwxyz<<<~x\
    xxxxxxxxxxxxxxxxxxxxxxxxxxxxxxxx\
    xxxxxxxxxxxxxxxxxxxxxxxxxxxxxxxx\
    xxxxxxxxxxxxxxxxxxxxxxxxxxxxxxxx\
    xxxxxxxxxxxxxxxxxxxxxxxxxxxxxxxx";

pub(crate) fn is_forbidden(b: u8) -> bool
    ensures { result ≡ is_forbidden b }
{
    IRI_MAP[b as usize] == b'<'
}

fn is_scheme_byte(b: u8) -> bool
    ensures { result ≡ is_scheme_byte b }
{
    b.is_ascii_alphanumeric() || matches!(b, b'+' | b'-' | b'.')
}

fn are_scheme_bytes(text: &[u8]) -> bool
    ensures { result ≡ list_all is_scheme_byte text.now }
{
    text.iter().all(|b| is_scheme_byte(*b))
}

fn is_scheme(text: &[u8]) -> bool
    ensures { result ≡ is_scheme text.now }
{
    !text.is_empty() && text[0].is_ascii_alphabetic() && are_scheme_bytes(text)
}

// Whether what stands before the first colon is a scheme.
pub(crate) fn has_scheme(text: &[u8]) -> bool
    ensures { result ≡ has_scheme text.now }
{
    let (front, rest) = cut(text, b':');
    rest.is_some() && is_scheme(front)
}

/// Whether a text has a character that may not stand in an IRI, by the bytes of its UTF-8: each such
/// character is ASCII.
pub fn has_forbidden(text: &[u8]) -> bool
    ensures { result ≡ has_forbidden text.now }
{
    text.iter().any(|b| is_forbidden(*b))
}
