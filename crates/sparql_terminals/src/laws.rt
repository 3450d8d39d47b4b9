//! What holds of the lexemes of each text.
ghost use Rattle.sparql_terminals.specs.Lexemes.{LexemesHaveForms};

/// The lexemes of a text have the forms of its tokens.
pub fn lexemes_have_forms()
    ensures { LexemesHaveForms }
{}
