//! Examples of the public standards.
ghost use Rattle.rdf_terms.specs.Examples.{CharacterExamples, ShortEscapeExamples, CutExamples, DotExamples, EscapeExamples, IriExamples, LiteralExamples, TermExamples, QuadExamples, ReadingExamples, QuotedExamples, ReferenceExamples, RewritingExamples, TermTextExamples};

/// The standards' own examples come out as they say: characters and escapes (Turtle 1.1, sections
/// 6.4 and 6.5), IRIs, components and dot segments (RFC 3986, sections 1.1.2, 3 and 5.2.4), language
/// tags and quads (Turtle 1.1, section 2.5; RDF 1.1 Concepts, section 3.1), and the text of terms
/// (RDF 1.1 N-Triples, section 4). Those of resolution are [`crate::reference_examples_hold`]'s.
pub fn the_standards_examples_hold()
    ensures characters { CharacterExamples }
    ensures short_escapes { ShortEscapeExamples }
    ensures cuts { CutExamples }
    ensures dots { DotExamples }
    ensures escapes { EscapeExamples }
    ensures iris { IriExamples }
    ensures literals { LiteralExamples }
    ensures terms { TermExamples }
    ensures quads { QuadExamples }
    ensures reading { ReadingExamples }
    ensures quoted { QuotedExamples }
    ensures references { ReferenceExamples }
    ensures rewriting { RewritingExamples }
    ensures term_texts { TermTextExamples }
{}
