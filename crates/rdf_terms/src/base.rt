//! The base that references are resolved against, which is moved where it stands.
ghost use Rattle.std.specs.Prelude.{◌≡◌, ◌↔◌, IfOk, IsErrOf, IsTrue, OnErr, OnOk, Some, false};
ghost use Rattle.rdf_terms.specs.Iri.{has_forbidden, is_iri};
ghost use Rattle.rdf_terms.specs.Resolution.{Means, ResolvesTo};

use crate::fault::{IriFault, NoMemory};
use crate::iri::{Iri, has_forbidden, has_scheme};
use crate::layout::Layout;
use crate::moving::{moved, replace_end};
use crate::resolution::resolved;
use std::alloc::Global;
use std::marker::Model;

/// The base that references are resolved against (RFC 3986, section 5.1). A contract sees the bytes
/// of its IRI. Where it is moved by a relative reference, what it keeps isn't copied.
#[derive(Drop)]
pub struct Base {
    form: Form,
}

// As it was given, or with the places of its components, once it was moved by a relative reference.
#[derive(Drop)]
enum Form {
    Given(Iri),
    Moved(Placed),
}

impl Model for Base {
    ghost use Rattle.std.specs.Prelude.{ℕ, List};

    ghost Value = { List ℕ };

    ghost use Rattle.rdf_terms.specs.Base.{text_of};

    ghost view = { λ b. text_of b.form };
}

impl Base {
    /// This IRI as a base. It takes no memory.
    pub fn new(iri: Iri) -> Base
        ensures { result ≡ iri }
    {
        Base {
            form: Form::Given(iri),
        }
    }

    /// The IRI that a reference means against the base (RFC 3986, section 5.2). A reference with a
    /// scheme means itself.
    ///
    /// # Errors
    /// [`IriFault::BadCharacter`] where the reference has a character that stands in no IRI;
    /// [`IriFault::NoMemory`] where memory is wanting.
    pub fn resolve(&self, alloc: Global, reference: &str) -> Result<Iri, IriFault>
        ensures value { IfOk result (λ iri. Means (Some self.now) reference.now iri) }
        ensures sound { IfOk result (λ iri. IsTrue (is_iri iri)) }
        ensures relative { IsErrOf result IriFault.Relative → ⊥ }
        ensures bad_character { IsErrOf result IriFault.BadCharacter
            ↔ IsTrue (has_forbidden reference.now) }
    {
        let bytes = reference.as_bytes();
        if has_scheme(bytes) {
            return Iri::new(alloc, reference);
        }
        if has_forbidden(bytes) {
            return Err(IriFault::BadCharacter);
        }
        Ok(resolved(alloc, self.as_bytes(), reference)?)
    }

    /// Moves the base to what a reference means against it (RFC 3986, section 5.1.1).
    ///
    /// # Errors
    /// [`IriFault::BadCharacter`] where the reference has a character that stands in no IRI;
    /// [`IriFault::NoMemory`] where memory is wanting. The base is as before then.
    pub fn move_to(&mut self, alloc: Global, reference: &str) -> Result<(), IriFault>
        ensures value { OnOk result (Means (Some self.old) reference.now self.new) }
        ensures sound { OnOk result (IsTrue (is_iri self.new)) }
        ensures kept { OnErr result (self.new ≡ self.old) }
        ensures relative { IsErrOf result IriFault.Relative → ⊥ }
        ensures bad_character { IsErrOf result IriFault.BadCharacter
            ↔ IsTrue (has_forbidden reference.now) }
    {
        let bytes = reference.as_bytes();
        if has_scheme(bytes) {
            self.form = Form::Given(Iri::new(alloc, reference)?);
            return Ok(());
        }
        if has_forbidden(bytes) {
            return Err(IriFault::BadCharacter);
        }
        Ok(self.move_by(alloc, reference)?)
    }

    // Moves the base by a reference without a scheme and without forbidden characters.
    fn move_by(&mut self, alloc: Global, reference: &str) -> Result<(), NoMemory>
        requires { has_forbidden reference.now ≡ false }
        ensures value { OnOk result (ResolvesTo self.old reference.now self.new) }
        ensures sound { OnOk result (IsTrue (is_iri self.new)) }
        ensures kept { OnErr result (self.new ≡ self.old) }
    {
        match &mut self.form {
            Form::Moved(placed) => placed.move_by(alloc, reference),
            Form::Given(iri) => {
                let mut placed = Placed::of(alloc, iri)?;
                placed.move_by(alloc, reference)?;
                self.form = Form::Moved(placed);
                Ok(())
            }
        }
    }

    // The bytes of the base's IRI.
    fn as_bytes(&self) -> &[u8]
        ensures value { result.now ≡ self.now }
        ensures sound { IsTrue (is_iri self.now) }
    {
        match &self.form {
            Form::Given(iri) => iri.as_str().as_bytes(),
            Form::Moved(placed) => placed.as_bytes(),
        }
    }
}

// The text of an IRI, and where its components stand.
#[derive(Drop)]
struct Placed {
    text: Vec<u8>,
    layout: Layout,
}

impl Model for Placed {
    ghost use Rattle.std.specs.Prelude.{ℕ, List, IsTrue};

    ghost Value = { List ℕ };

    ghost use Rattle.rdf_terms.specs.Iri.{is_iri};
    ghost use Rattle.rdf_terms.specs.Layout.{IsLayout};

    ghost view = { λ p. p.text.items };

    ghost invariant = { λ p. IsTrue (is_iri p.text.items) × IsLayout p.text.items p.layout };
}

impl Placed {
    // The text of this IRI.
    fn of(alloc: Global, iri: &Iri) -> Result<Placed, NoMemory>
        ensures { IfOk result (λ placed. placed ≡ iri.now) }
    {
        let text = Vec::from_slice(alloc, iri.as_str().as_bytes())?;
        let layout = Layout::of(&text);
        Ok(Placed { text, layout })
    }

    fn as_bytes(&self) -> &[u8]
        ensures value { result.now ≡ self.now }
        ensures sound { IsTrue (is_iri self.now) }
    {
        &self.text
    }

    fn move_by(&mut self, alloc: Global, reference: &str) -> Result<(), NoMemory>
        requires { has_forbidden reference.now ≡ false }
        ensures value { OnOk result (ResolvesTo self.old reference.now self.new) }
        ensures sound { OnOk result (IsTrue (is_iri self.new)) }
        ensures kept { OnErr result (self.new ≡ self.old) }
    {
        let change = moved(alloc, &self.text, self.layout, reference.as_bytes())?;
        replace_end(&mut self.text, change.kept, &change.added)?;
        self.layout = change.layout;
        Ok(())
    }
}
