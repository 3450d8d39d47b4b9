//! Literals that stood in the text, which the same ones behind them share.
ghost use Rattle.std.specs.Prelude.{◌≡◌, [], Some, option_map, OnOk, IfOk, IfSome};
ghost use Rattle.rdf_grammar.specs.Inside.Places.{kept_at};
ghost use Rattle.rdf_grammar.specs.Literals as spec;

use crate::places::{Places, mark_of};
use rdf_terms::{Iri, Literal, NoMemory, Text};
use std::alloc::Global;

/// How many literals are kept at once at most.
const PLACES: usize = 256;

/// How many bytes of a lexical form are looked up at most.
const LONGEST: usize = 32;

// A literal, and the mark of its lexical form.
#[derive(Drop)]
struct KeptLiteral {
    mark: usize,
    literal: Literal,
}

/// Literals without a tag that were told, so that the next with the same lexical form and datatype
/// shares their parts. Of those with one place the last is kept.
#[derive(Drop)]
pub(crate) struct KeptLiterals {
    places: Places<KeptLiteral>,
}

impl KeptLiterals {
    /// No literals. It takes no memory.
    pub(crate) fn new(alloc: Global) -> KeptLiterals
        ensures { result.places ≡ [] }
    {
        KeptLiterals {
            places: Places::new(alloc, PLACES),
        }
    }

    // The literal with this lexical form and datatype that is kept with a mark.
    fn kept(&self, mark: usize, lexical: &str, datatype: &Iri) -> Result<Option<Literal>, NoMemory>
        ensures { IfOk result (λ kept. IfSome kept
            (λ literal. literal ≡ spec.untagged lexical.now datatype.now)) }
    {
        let Some(kept) = self.places.get(mark) else {
            return Ok(None);
        };
        if kept.mark != mark {
            return Ok(None);
        }
        let literal = &kept.literal;
        if literal.tag().is_none()
            && literal.lexical() == lexical
            && *literal.datatype() == *datatype
        {
            return Ok(Some(literal.copy()?));
        }
        Ok(None)
    }

    // Keeps a literal with the mark of its lexical form.
    fn keep(&mut self, mark: usize, literal: &Literal) -> Result<(), NoMemory>
        ensures { OnOk result
            (option_map (λ kept. kept.literal) (kept_at mark self.new.places) ≡ Some literal.now) }
    {
        let literal = literal.copy()?;
        self.places.put(mark, KeptLiteral { mark, literal })
    }

    /// The literal with this lexical form, which it takes over, and datatype, and no tag.
    ///
    /// # Errors
    /// [`NoMemory`] where memory is wanting.
    pub(crate) fn literal(
        &mut self,
        alloc: Global,
        lexical: Text,
        datatype: &Iri,
    ) -> Result<Literal, NoMemory>
        ensures { IfOk result (λ literal. literal ≡ spec.untagged lexical datatype.now) }
    {
        if lexical.as_str().len() > LONGEST {
            return Literal::from_text(alloc, lexical, datatype.copy()?);
        }
        let mark = mark_of(lexical.as_str());
        if let Some(literal) = self.kept(mark, lexical.as_str(), datatype)? {
            return Ok(literal);
        }
        let literal = Literal::from_text(alloc, lexical, datatype.copy()?)?;
        self.keep(mark, &literal)?;
        Ok(literal)
    }

    /// The literal with this word as its lexical form, this datatype, and no tag. No text is made of a word
    /// that is kept.
    ///
    /// # Errors
    /// [`NoMemory`] where memory is wanting.
    pub(crate) fn word(
        &mut self,
        alloc: Global,
        word: &str,
        datatype: &Iri,
    ) -> Result<Literal, NoMemory>
        ensures { IfOk result (λ literal. literal ≡ spec.untagged word.now datatype.now) }
    {
        let mark = mark_of(word);
        if let Some(literal) = self.kept(mark, word, datatype)? {
            return Ok(literal);
        }
        let literal = Literal::new(alloc, word, datatype.copy()?)?;
        self.keep(mark, &literal)?;
        Ok(literal)
    }
}
