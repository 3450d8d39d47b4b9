//! Examples of the public standard.
ghost use Rattle.sparql_algebra.specs.Examples.{TranslationExamples, OptionalExamples, CountExamples, FilterExamples, MinusExamples};

/// Examples of the standard come out as it says: the translation of groups, OPTIONAL, FILTER, MINUS,
/// and how often a mapping is counted (SPARQL 1.1 Query, sections 6.1, 7, 8.3, 17.2, 18.2.3, 18.3.1 and
/// 18.5).
pub fn the_standards_examples_hold()
    ensures translation { TranslationExamples }
    ensures optional { OptionalExamples }
    ensures filters { FilterExamples }
    ensures minus { MinusExamples }
    ensures counts { CountExamples }
{}
