//! Words: what the productions of IRIs and literals tell apart among terminals.
ghost use Rattle.std.specs.Prelude.{◌≡◌, Option};
ghost use Rattle.rdf_grammar.specs.declared.word.Word.{Word as Told};
ghost use Rattle.rdf_grammar.specs.Words as spec;

use crate::terminal::Terminal;

/// What the productions of IRIs and literals tell apart among terminals (Turtle 1.1, section 6.5;
/// SPARQL 1.1 Query, section 19.8).
#[derive(Clone, Copy, Debug, PartialEq, Eq)]
pub enum Word {
    /// IRIREF
    Iri,
    /// PNAME_NS or PNAME_LN
    Pname,
    /// String
    Text,
    /// LANGTAG
    Tag,
    /// `^^`
    Caret,
    Integer,
    Decimal,
    Double,
    /// `true`
    True,
    /// `false`
    False,
}

/// A terminal of a language that has IRIs and literals as Turtle and SPARQL have them.
pub trait Words: Terminal {
    // the word that it is, if it is one
    ghost word: { Self → Option Told };

    /// The word that it is, if it is one.
    fn word(self) -> Option<Word>
        ensures { result ≡ word self };
}

/// Whether the two are the same.
#[tactic(auto, unfolding(crate::specs::Words::same_word))]
#[inline(always)]
pub(crate) fn same_word(a: Word, b: Word) -> bool
    ensures { result ≡ spec.same_word a b }
{
    a == b
}
