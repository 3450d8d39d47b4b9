//! What holds of each text.
ghost use Rattle.sparql_drafts.specs.Abbreviations as short;
ghost use Rattle.sparql_drafts.specs.Blanks.{DataAreNumbered, DataComeInOrder, PatternsAreNumbered, PatternsComeInOrder};
ghost use Rattle.sparql_drafts.specs.Stands.{BlocksStand, BracketsStand, DataStand, ListsStand, PatternsStand, PropertiesStand, TriplesStand};

/// The data of an operation, and a basic graph pattern, has blank nodes of its own, whose numbers are
/// just those below their count, and come in order of their first places.
pub fn blank_numbers_are_below()
    ensures data { DataAreNumbered }
    ensures pattern { PatternsAreNumbered }
    ensures data_order { DataComeInOrder }
    ensures pattern_order { PatternsComeInOrder }
{}

/// What abbreviations stand for: `a` is rdf:type; behind `,` subject and verb are repeated, behind
/// `;` the subject; `[ ]` has what stands inside; `( )` is rdf:nil, and a list has its first element
/// as its rdf:first and the list of the others as its rdf:rest (SPARQL 1.1 Query, section 4.2). An
/// object's own triple comes before those inside the object.
pub fn abbreviations_stand_for_triples()
    ensures object { short.ObjectIsSaid }
    ensures a { short.AIsType }
    ensures comma { short.CommaRepeats }
    ensures semicolon { short.SemicolonRepeats }
    ensures inside { short.BracketHas }
    ensures empty { short.EmptyIsNil }
    ensures last { short.LastHas }
    ensures cells { short.ListHas }
{}

/// What nodes stand for: a variable for itself, a name for its IRI, a literal for what it is under the
/// prologue in force. A label, `[` and each cell of a list is a blank node, numbered where it stands:
/// one label has one number, and any other node one of its own
/// ([`rdf_grammar::one_label_is_one_node`]; SPARQL 1.1 Query, sections 4.1 and 4.2.3).
pub fn nodes_stand_for_terms()
    ensures variables { short.VariablesAreThemselves }
    ensures names { short.NamesAreIris }
    ensures literals { short.LiteralsAreTerms }
    ensures blanks { short.BlankNodeTable }
{}

/// What declarations put in force: a base is resolved against the base before it, a prefix against
/// the base where it is declared (SPARQL 1.1 Query, section 4.1.1).
pub fn declarations_are_in_force()
    ensures base { short.BaseIsMoved }
    ensures prefix { short.PrefixIsDeclared }
{}

/// Where triples stand, whole and however deep nodes nest: each object of each verb is said of the
/// subject before it, which is what the first node stands for; what stands inside `[ ]` is said of
/// its blank node, a new one; the cells of `( )` are a chain of blank nodes up to rdf:nil, whose
/// rdf:first are its elements in order, and whose rdf:rest is the next (SPARQL 1.1 Query, sections
/// 4.1.4 and 4.2). Each node stands for its term between the two states, and what is inside it is said
/// there, so that this may be asked of it again.
pub fn triples_stand_with_their_nodes()
    ensures verbs { PropertiesStand }
    ensures triples { TriplesStand }
    ensures brackets { BracketsStand }
    ensures lists { ListsStand }
{}

/// The triples of `GRAPH name { .. }` stand in the graph of that name, all that is inside their nodes
/// too, and those outside GRAPH in the default one: so in quad data and in templates, block after block
/// (SPARQL 1.1 Update, sections 3.1.1 to 3.1.3). A basic graph pattern names no graph.
pub fn triples_stand_in_their_graph()
    ensures blocks { BlocksStand }
    ensures data { DataStand }
    ensures patterns { PatternsStand }
{}
