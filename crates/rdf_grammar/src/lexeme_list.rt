//! The lexemes of a text.
ghost use Rattle.rdf_grammar.specs.Lexemes.{LexemesHaveForms};

use crate::terminal::Terminal;

/// The lexemes of a text have the forms of its tokens.
pub fn lexemes_have_forms<T: Terminal>()
    ensures { LexemesHaveForms T.of }
{}
