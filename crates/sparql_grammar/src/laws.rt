//! What holds of each request, each query and their trees.
ghost use Rattle.sparql_grammar.specs.GroupLaws.{FiltersStandApart, PatternsDivide, TriplesStandTogether};
ghost use Rattle.sparql_grammar.specs.QuadLaws.{QuadsAreGroups, QuadsAreOneGroup};
ghost use Rattle.sparql_grammar.specs.QueryLaws.{OneQuery, QueriesAreProper};
ghost use Rattle.sparql_grammar.specs.RequestLaws.{OneRequest, RequestsAreProper};

/// No lexemes are two requests (SPARQL 1.1 Query, section 19.8): the grammar has one tree at most
/// for them, however deep their brackets nest.
pub fn one_request_tree()
    ensures { OneRequest }
{}

/// The parts of a text's request are proper: prefixed names have local parts that may stand in an
/// IRI, tags are tags, each verb has an object, and each subject has properties, behind it or
/// inside.
pub fn requests_are_proper()
    ensures { RequestsAreProper }
{}

/// No lexemes are two queries (SPARQL 1.1 Query, section 19.8): the grammar has one tree at most
/// for them, however deep their brackets nest.
pub fn one_query_tree()
    ensures { OneQuery }
{}

/// A text's query is proper: prefixed names have local parts that may stand in an IRI, tags are
/// tags, each verb has an object, each subject has properties, behind it or inside, and no list of
/// triples, groups or columns is empty, in groups at any depth.
pub fn queries_are_proper()
    ensures { QueriesAreProper }
{}

/// Which triples of a group are one basic graph pattern (SPARQL 1.1 Query, section 5.1): a FILTER
/// between triples ends none, and anything else does. Its FILTERs stand apart, in the order of the
/// text.
pub fn filters_end_no_triples()
    ensures together { TriplesStandTogether }
    ensures divided { PatternsDivide }
    ensures apart { FiltersStandApart }
{}

/// Where lexemes are quads in braces (SPARQL 1.1 Query, section 19.8, rule 48: QuadPattern), they
/// are also a group (rule 53: GroupGraphPattern), and one group alone. So what DELETE WHERE deletes
/// is also the pattern that it asks for (SPARQL 1.1 Update, section 3.1.3.3).
pub fn quads_are_groups()
    ensures found { QuadsAreGroups }
    ensures only { QuadsAreOneGroup }
{}
