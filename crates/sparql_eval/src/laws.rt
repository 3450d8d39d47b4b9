//! Laws over the definitions alone.
ghost use Rattle.sparql_eval.specs.GraphLaws.{GraphsLeft, GraphsMeant, GraphsWanted, PatternsLookedFor};
ghost use Rattle.sparql_eval.specs.Laws.{CopyReads, DropAllEmpties, EachSolutionHasItsOwnBlankNodes, InsertAgain, InsertDataIsModify, ModifyDeletesThenInserts, MoveIsCopyThenDrop, OneAnswer, OthersStay, SilentChangesNothing};
ghost use Rattle.sparql_eval.specs.TemplateLaws.{GraphTable, InstancesAreOfTheirTemplate};

/// A request leads to one state or is refused, never both.
pub fn one_answer()
    ensures { OneAnswer }
{}

/// A SILENT operation changes nothing where something stands against it.
pub fn silent_changes_nothing()
    ensures { SilentChangesNothing }
{}

/// DROP ALL leaves the empty state with its counter.
pub fn drop_all_empties()
    ensures { DropAllEmpties }
{}

/// After COPY the second graph has just the triples of the first.
pub fn copy_reads()
    ensures { CopyReads }
{}

/// MOVE is COPY and then DROP of the first graph.
pub fn move_is_copy_then_drop()
    ensures { MoveIsCopyThenDrop }
{}

/// INSERT DATA of what is there changes at most the counter.
pub fn insert_again()
    ensures { InsertAgain }
{}

/// Each operation leaves all other graphs as they were.
pub fn others_stay()
    ensures { OthersStay }
{}

/// DELETE/INSERT takes the instances of its DELETE template away, and then brings those of its
/// INSERT template in; the counter goes past the new blank nodes of all solutions.
pub fn modify_deletes_then_inserts()
    ensures { ModifyDeletesThenInserts }
{}

/// The new blank nodes of a solution are no other's: with k of them in the template those of
/// solution i, from 0, have the numbers from i * k on, and below (i + 1) * k.
pub fn each_solution_has_its_own_blank_nodes()
    ensures { EachSolutionHasItsOwnBlankNodes }
{}

/// INSERT DATA of quads is INSERT of these quads WHERE { }.
pub fn insert_data_is_modify()
    ensures { InsertDataIsModify }
{}

/// The quads of a template stand where GRAPH says, those outside GRAPH in the graph of WITH, or in the
/// default one (SPARQL 1.1 Update, section 3.1.3); and each place of an instance is what the template
/// has there under the solution.
pub fn templates_stand_in_their_graph()
    ensures graphs { GraphTable }
    ensures instances { InstancesAreOfTheirTemplate }
{}

/// The operations on graphs, graph by graph (SPARQL 1.1 Update, section 3.2): which graphs CLEAR and DROP
/// mean; that CREATE brings a graph without a quad, CLEAR leaves the graphs there that it empties, DROP
/// doesn't, COPY and ADD make their second graph though the first is empty, and ADD takes nothing away;
/// and where each is refused. The pattern of DELETE/INSERT is looked for in the graph of WITH (section
/// 3.1.3).
pub fn operations_are_of_their_graphs()
    ensures meant { GraphsMeant }
    ensures left { GraphsLeft }
    ensures wanted { GraphsWanted }
    ensures patterns { PatternsLookedFor }
{}
