//! What holds of each document and its tree.
ghost use Rattle.rdf_turtle.specs.Abbreviations as short;
ghost use Rattle.rdf_turtle.specs.Directives.{BaseIsMoved, PrefixIsDeclared, SectionExamples};
ghost use Rattle.rdf_turtle.specs.FaultyNameLaws.{UnboundIsFound, LackingIsFound};
ghost use Rattle.rdf_turtle.specs.Lexemes.{LexemesHaveForms};
ghost use Rattle.rdf_turtle.specs.Leaves.{OneDocument, DocumentsHaveSubjects, LeavesAreLexemes};
ghost use Rattle.rdf_turtle.specs.ReadBack.{QuadsAreWellFormed, NumbersComeInOrder, DocumentsAreReadBack};
ghost use Rattle.rdf_turtle.specs.Stands.{BracketsStand, ListsStand, PropertiesStand, StatementsStand};
ghost use Rattle.rdf_turtle.specs.WrittenLaws.{WrittenTriplesAreTurtle};

/// No lexemes are two documents (Turtle 1.1, section 6.5): the grammar has one tree at most for
/// them, however deep their brackets nest.
pub fn one_document()
    ensures { OneDocument }
{}

/// In a document no literal is a subject of triples (Turtle 1.1, section 6.5).
pub fn documents_have_subjects()
    ensures { DocumentsHaveSubjects }
{}

/// The leaves of a document's tree are the lexemes that carry content, in order, each once
/// (Turtle 1.1, section 6.5): its names, labels, literals, `a` and the words of directives, each with its
/// terminal.
pub fn leaves_are_lexemes()
    ensures { LeavesAreLexemes }
{}

/// In a document a prefix is used before it is declared just where the line of that fault is that of such
/// a name, and a reference lacks a base just where it is that of such a reference: the search for the first
/// comes to the end of the lexemes where there is none.
pub fn faulty_names_are_found()
    ensures unbound { UnboundIsFound }
    ensures lacking { LackingIsFound }
{}

/// N-Triples is a subset of Turtle (RDF 1.1 N-Triples, section 1): the canonical lines of triples
/// are a Turtle document of these very triples, in this order, against any base. A line has the text
/// of each term ([`rdf_terms::write_term`]) and a space behind it, then a dot and LF. The blank
/// numbers come in order of first appearance, from 0.
pub fn written_triples_are_turtle()
    ensures { WrittenTriplesAreTurtle }
{}

/// The quads of a document are well formed triples (RDF 1.1 Concepts, section 3.1), and its blank
/// nodes have numbers in order of first appearance, from 0. So what is written of a document is
/// read back: the canonical lines of its quads are a document of these very quads, in this order.
pub fn documents_are_read_back()
    ensures well_formed { QuadsAreWellFormed }
    ensures in_order { NumbersComeInOrder }
    ensures read_back { DocumentsAreReadBack }
{}

/// The lexemes of a text have the forms of its tokens.
pub fn lexemes_have_forms()
    ensures { LexemesHaveForms }
{}

/// What abbreviations stand for: `a` is rdf:type; behind `,` subject and verb are repeated, behind
/// `;` the subject; `[ ]` is a blank node that has what stands inside; `( )` is rdf:nil, and a list
/// a blank node whose rdf:first is its first element and whose rdf:rest is the list of the others
/// (Turtle 1.1, sections 2.2 to 2.4, 2.7 and 2.8). An object's own triple comes before those inside
/// the object.
pub fn abbreviations_stand_for_triples()
    ensures object { short.ObjectIsSaid }
    ensures a { short.AIsType }
    ensures comma { short.CommaRepeats }
    ensures semicolon { short.SemicolonRepeats }
    ensures bracket { short.BracketIsFresh }
    ensures inside { short.BracketHas }
    ensures empty { short.EmptyIsNil }
    ensures list { short.ListIsFresh }
    ensures last { short.LastHas }
    ensures cells { short.ListHas }
{}

/// What directives put in force: a base is resolved against the base before it, a prefix against the
/// base where it is declared; so the names of the standard's example have the IRIs that it gives
/// (Turtle 1.1, sections 2.4 and 6.3).
pub fn directives_are_in_force()
    ensures base { BaseIsMoved }
    ensures prefix { PrefixIsDeclared }
    ensures examples { SectionExamples }
{}

/// Where triples stand, whole and however deep nodes nest: each object of each verb is said of the
/// subject before it, and in a statement that is the term of its first node; what stands inside
/// `[ ]` is said of its blank node, a new one; the cells of `( )` are a chain of blank nodes up to
/// rdf:nil, whose rdf:first are its elements in order, and whose rdf:rest is the next (Turtle 1.1,
/// sections 2.2, 2.3, 2.7 and 2.8). Each node stands for its term between the two states, and what
/// is inside it is said there, so that this may be asked of it again.
pub fn triples_stand_with_their_nodes()
    ensures verbs { PropertiesStand }
    ensures statements { StatementsStand }
    ensures brackets { BracketsStand }
    ensures lists { ListsStand }
{}
