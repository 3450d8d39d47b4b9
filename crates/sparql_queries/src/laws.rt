//! What holds of each group and each template.
ghost use Rattle.sparql_queries.specs.GroupLaws.{GraphsAreSaid, GroupsAreSaid, MinusesAreSaid, OptionalsAreSaid, TemplatesStand, TriplesAreBasic, UnionsAreSaid};

/// A group has its members and its FILTERs in the order of the text: triples that stand together are
/// one basic graph pattern, whose blank nodes are hidden variables; groups with UNION between them
/// are its parts; OPTIONAL, MINUS and GRAPH have their group, and GRAPH its name (SPARQL 1.1 Query,
/// sections 4.1.4 and 5 to 8).
pub fn groups_are_as_written()
    ensures group { GroupsAreSaid }
    ensures triples { TriplesAreBasic }
    ensures union { UnionsAreSaid }
    ensures optional { OptionalsAreSaid }
    ensures minus { MinusesAreSaid }
    ensures graph { GraphsAreSaid }
{}

/// A template has the quads of the text, in its order: those inside `GRAPH name { .. }` in the graph
/// of that name, those outside in none, which is that of WITH, or the default one; and blank nodes of
/// its own (SPARQL 1.1 Update, section 3.1.3).
pub fn templates_stand_in_their_graph()
    ensures { TemplatesStand }
{}
