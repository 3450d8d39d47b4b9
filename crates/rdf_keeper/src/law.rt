//! Laws over the definitions alone: that a script's lines are its text, that its pieces are the script, that it has one output, that its refusals change nothing,
//! that what is printed is read back in each format, that what is shown of a state is taken up again, and that files are opened as the words name
//! them.
ghost use Rattle.rdf_keeper.specs.Program.Order.{FilesInOrder};
ghost use Rattle.rdf_keeper.specs.Script.CommandLaws.{BodiesAreTexts, BodiesAsk, ChangesTell, CommentsAskNothing, EndsAreLines, FormatsAsk, LinesTell, NamesAsk, NamesOfMarks, OpenBodies, OthersAreBad, StatusesTell, WordsAsk};
ghost use Rattle.rdf_keeper.specs.Script.EarlyRuns.{EarlyRunsAgree};
ghost use Rattle.rdf_keeper.specs.Script.EndLaws.{AcceptedToTheEnd, FaultsAreTold, ReadFaultsCame, RefusedWithoutFaults, WriteFaultsCame};
ghost use Rattle.rdf_keeper.specs.Script.Promised.{AnswersAreTransitions, ScriptsArePromised, UndoneInAScript, RedoneInAScript};
ghost use Rattle.rdf_keeper.specs.Script.Refusals.{RefusedAnswersLeave};
ghost use Rattle.rdf_keeper.specs.Script.LineLaws.{LinesAreTheText, LinesAreEnded, OneCut};
ghost use Rattle.rdf_keeper.specs.Script.Printed.{LinesAreDocuments, SortedTextsAreDocuments, PrintedLinesAreDocuments};
ghost use Rattle.rdf_keeper.specs.Script.OrderLaws.{FailedReadsComeBehindAnswers, NothingComesBehindAFailure, NothingIsReadBehindARefusal, NothingIsReadBehindTheEnd, ReadsComeBehindAnswers, WritesAreAnswers};
ghost use Rattle.rdf_keeper.specs.Script.Pieces.{PiecesAreTheText};
ghost use Rattle.rdf_keeper.specs.Script.Saved.{RestoredShowsItsText, ScriptsGoOnAlike, ShownComesBack};
ghost use Rattle.rdf_keeper.specs.Script.Small.{AnswersAreReplies, ChangesAreShown, QueryScriptAsks, RepliesAreAnswers, UpdateScriptActs};
ghost use Rattle.rdf_keeper.specs.Script.OneOutput.{OneOutput, OneOutputOfBytes, OneText, OneTextOfBytes};

use crate::program::Folder;

/// A refusal, of a script's line that is no command too, leaves the session as it was.
pub fn refused_answers_leave()
    ensures { RefusedAnswersLeave }
{}

/// Where no answer is that memory is wanting and the session comes to its end, what it answers, where it
/// stands then and its status are given by its commands; but for the lines of some faults, which are
/// the reader's own choice. Where no answer has such a line, the bytes are given. So is all this by the bytes
/// that `run` is given to read, in whatever pieces they come.
pub fn a_script_has_one_output()
    ensures answers { OneOutput }
    ensures bytes { OneText }
    ensures answers_of_bytes { OneOutputOfBytes }
    ensures bytes_of_bytes { OneTextOfBytes }
{
    rdf_session::one_reply();
}

/// The list of commands and of answer lines, as a reader has it: what each word of a script asks for, which words and names are none, what a
/// body is and where it ends; how an answer tells what came and what went, the line of a fault, the rows of a query; and the exit
/// status of each ending.
pub fn commands_are_as_listed()
    ensures words { WordsAsk }
    ensures names { NamesAsk }
    ensures formats { FormatsAsk }
    ensures bodies { BodiesAsk }
    ensures texts { BodiesAreTexts }
    ensures ends { EndsAreLines }
    ensures open { OpenBodies }
    ensures comments { CommentsAskNothing }
    ensures others { OthersAreBad }
    ensures marks { NamesOfMarks }
    ensures lines { LinesTell }
    ensures changes { ChangesTell }
    ensures statuses { StatusesTell }
{}

/// However two sessions end that are given the same bytes to read, by a failed read or write, or where memory for the next command is
/// wanting: as far as both went they make the same answers, but for the lines of some faults, as long as none is that memory is wanting.
/// Those of the one that ended first are the first of the other's, what was written of an answer that broke off is a front of it,
/// and where both made as many they stand at the same session. Those of one that came to its end are all.
pub fn early_runs_agree()
    ensures { EarlyRunsAgree }
{
    rdf_session::one_reply();
}

/// The promise of the whole, of scripts: over the bytes that are read the commands of a script,
/// with the replies that its answers tell, are those of a session, so the promise of
/// [`rdf_session::the_headline`] is kept of its end. An `%undo` that is accepted behind a request
/// gives back the state before it, and a `%redo` behind that the state after, whatever queries,
/// looks, marks and refusals come between.
pub fn a_script_keeps_the_promise()
    ensures transitions { AnswersAreTransitions }
    ensures promise { ScriptsArePromised }
    ensures undone { UndoneInAScript }
    ensures redone { RedoneInAScript }
{
    rdf_session::the_headline();
    rdf_session::undo_gives_back();
}

/// In whatever pieces a script comes, the commands that come wholly with one piece after another are those of its whole lines,
/// and with what is left where it ends they are its commands: what [`crate::Feed::take`] answers piece by piece.
pub fn pieces_are_the_script()
    ensures { PiecesAreTheText }
{}

/// Where each call of a session stands in the log of [`crate::run_on`]. Before a read call all commands that were wholly read
/// are answered, and where the first refusal ends a session, none of these answers is one. No read call comes behind the end,
/// and no call behind one that failed. What is written is never ahead of the commands that were wholly read.
pub fn each_call_has_its_place()
    ensures reads { ReadsComeBehindAnswers }
    ensures failed_reads { FailedReadsComeBehindAnswers }
    ensures refusals { NothingIsReadBehindARefusal }
    ensures ends { NothingIsReadBehindTheEnd }
    ensures failures { NothingComesBehindAFailure }
    ensures writes { WritesAreAnswers }
{}

/// What the status of a session tells of its end, by the log of [`crate::run_on`]. A call that fails is the last, and its fault is
/// told; a fault is told only of such a call, or of so many read calls that found no end. A script is accepted only where its end was
/// read and no call failed, and refused only where none did.
pub fn the_status_tells_the_end()
    ensures faults { FaultsAreTold }
    ensures write_faults { WriteFaultsCame }
    ensures read_faults { ReadFaultsCame }
    ensures accepted { AcceptedToTheEnd }
    ensures refused { RefusedWithoutFaults }
{}

/// The lines of a script, one after another, are its text. An LF ends each of them but perhaps the last, and stands nowhere
/// else; and no other lines of this kind are the text.
pub fn script_lines_are_the_text()
    ensures text { LinesAreTheText }
    ensures ended { LinesAreEnded }
    ensures one { OneCut }
{}

/// The lines of quads of the default graph whose blank numbers come in order of first appearance, from 0, are a document of
/// these very quads, in this order, as N-Quads, as N-Triples and, against any base, as Turtle (RDF 1.1 N-Quads, section 2.1;
/// RDF 1.1 N-Triples, section 1). Where such quads are sorted, so is what [`rdf_lines::write_sorted`] writes of them; and of a
/// sound dataset of such quads so is what `%print` shows: it can be loaded in each format.
pub fn printed_lines_are_documents()
    ensures lines { LinesAreDocuments }
    ensures sorted { SortedTextsAreDocuments }
    ensures printed { PrintedLinesAreDocuments }
{}

/// What `%state` shows of a session, without its count, restores that session's state, whatever base IRI it is given, and only want
/// of memory refuses it; what is restored from a text shows that very text. At the same base IRI and under the same depth all later
/// scripts are answered byte for byte as they may be behind a `%commit` where the other was saved.
pub fn a_shown_state_comes_back()
    ensures back { ShownComesBack }
    ensures text { RestoredShowsItsText }
    ensures alike { ScriptsGoOnAlike }
{
    rdf_session::a_saved_state_comes_back();
}

/// The words `query` and `update` are sessions in small. The script of a query, `%query`, its lines and `%end`, is that one
/// command, and so is that of an update. What answers the command without refusing it is a reply to the query, whose payload the
/// word writes, and an answer line behind it. An accepted update, and then what the session behind it shows, answer `%update` and
/// `%print`, `%state` or `%changes`.
pub fn a_word_is_a_session_in_small()
    ensures asks { QueryScriptAsks }
    ensures acts { UpdateScriptActs }
    ensures replies { RepliesAreAnswers }
    ensures answers { AnswersAreReplies }
    ensures shown { ChangesAreShown }
{}

/// Whatever words ask for, and wherever a fault ends the program, the files that it has opened, or tried to open, are the first
/// ones of those that the words name, in their order: the data, and then the script, the query or the request. None is opened twice
/// that isn't named twice, and no other is.
pub fn files_are_opened_in_order<F: Folder>()
    ensures { FilesInOrder F.step }
{}
