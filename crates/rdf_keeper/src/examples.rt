//! Worked examples of scripts, of whole sessions, of histories and of the numbers of blank nodes.
ghost use Rattle.rdf_keeper.specs.Examples.{NothingAsked, FourCommands, LineEnds, OpenBody, EndAndSpace, BadCommands, WholeLines, MarkNames, ReplyLines, NothingAnswered, LoadUndone, LoadTwice, LoadRedone, MarkReached, Committed, GraphShown, GraphCommitted, OpenLoad, RefusedFirst, StoppedAtOnce, HistoryCut, BlankNumbers};

use crate::law::a_script_has_one_output;

/// The examples come out as they say: which commands a script has; what whole sessions answer, to the byte, with their status
/// and the state at their end, and that they answer nothing else where memory is never wanting; what a request after an undo
/// leaves of a history; which number a blank node gets.
pub fn the_worked_examples_hold()
    ensures nothing_asked { NothingAsked }
    ensures four_commands { FourCommands }
    ensures line_ends { LineEnds }
    ensures open_body { OpenBody }
    ensures end_and_space { EndAndSpace }
    ensures bad_commands { BadCommands }
    ensures whole_lines { WholeLines }
    ensures mark_names { MarkNames }
    ensures reply_lines { ReplyLines }
    ensures nothing_answered { NothingAnswered }
    ensures load_undone { LoadUndone }
    ensures load_twice { LoadTwice }
    ensures load_redone { LoadRedone }
    ensures mark_reached { MarkReached }
    ensures committed { Committed }
    ensures graph_shown { GraphShown }
    ensures graph_committed { GraphCommitted }
    ensures open_load { OpenLoad }
    ensures refused_first { RefusedFirst }
    ensures stopped_at_once { StoppedAtOnce }
    ensures history_cut { HistoryCut }
    ensures blank_numbers { BlankNumbers }
{
    a_script_has_one_output();
}
