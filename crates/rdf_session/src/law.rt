//! Laws over the definitions alone: the promise of the whole, and what holds after any list of
//! commands, that undo gives back and redo gives again, what a depth forgets, which state is the
//! base, that a command has one reply and a request one result, that a load is INSERT DATA and
//! takes just its blank numbers, what counts tell, and that a saved state comes back.
ghost use Rattle.std.specs.Prelude.{◌≡◌, List, ℕ, Option, take};
ghost use Rattle.rdf_dataset.specs.State.{State};
ghost use Rattle.rdf_session.specs.History.{nothing};
ghost use Rattle.rdf_session.specs.Session.{Session, Command, Reply, fresh, now, with_depth};
ghost use Rattle.rdf_session.specs.Standing.{Run, Follows, requests_of, MakesAll};
ghost use Rattle.rdf_session.specs.BlankCount.{LimitIsTheCount, LoadTakesTheCount, LoadWantsTheCount};
ghost use Rattle.rdf_session.specs.ComesAbout.{MayBeAccepted, EachCommandRuns};
ghost use Rattle.rdf_session.specs.Commits.{CommitKeepsTheState, BaseIsTheFirst, BaseIsTheLastCommitted};
ghost use Rattle.rdf_session.specs.Counted.{CountsAreTold};
ghost use Rattle.rdf_session.specs.Forgets.{RequestsLeaveTheLast};
ghost use Rattle.rdf_session.specs.GivesBack.{RunsAreWhole, UndoGivesBack, RedoGivesAgain, RollbackGivesBack, RefusalsLeave};
ghost use Rattle.rdf_session.specs.Headline.{Headline};
ghost use Rattle.rdf_session.specs.Inside.ReaderLaws.{ReaderLaws};
ghost use Rattle.rdf_session.specs.LoadLaws.{LoadInserts, LoadIsRefusedAlike};
ghost use Rattle.rdf_session.specs.OneQueryReply.{OneQueryReply};
ghost use Rattle.rdf_session.specs.OneReply.{OneReply};
ghost use Rattle.rdf_session.specs.OneResult.{SomeResult, OneResult, ResultOrRefusal};
ghost use Rattle.rdf_session.specs.Onward.{PromisedOnward, PromiseGoesOn, ReachedHaveHistory, RestoredArePromised};
ghost use Rattle.rdf_session.specs.RollsBack.{RollbackGivesBackItsMark, RollbackIsTaken};
ghost use Rattle.rdf_session.specs.Saved.{CommandsGoOnAlike, RestoredIsAsCommitted, RestoredIsSavedAlike, SavedComesBack};
ghost use Rattle.rdf_session.specs.UndoRedo.{UndoThenRedo, RedoThenUndo};

// The laws of the readers, which those below stand on.
fn readers_keep_laws()
    ensures { ReaderLaws }
{
    rdf_lines::each_text_is_one_document();
    rdf_turtle::one_meaning();
    sparql_syntax::one_request();
}

/// The promise of the whole. For every depth and every state to start with, those that were restored among
/// them, after any commands with any replies (loads, updates, undos, redos,
/// marks, rollbacks, commits and refusals): an accepted request leaves exactly the state that its operations make of the state
/// before, one after another; an undo then gives back the state before, in quads, names of graphs and blank counter, and a redo
/// the state after, whatever marks and refusals come between; a refused command changes nothing, and a request is refused only
/// where its operations lead to no state, or memory is wanting; the state is exactly what the requests that still stand, those
/// that were committed or forgotten among them, make of the start, so the same requests leave the same state, whatever else was
/// done and taken back; and the entry of each request, standing or to be redone, is the net between its neighbouring states.
///
/// What this speaks of comes about: where operations lead to a state, their request may be accepted, undone and redone, and
/// from every state whose counter is right commands of each kind run.
pub fn the_headline()
    ensures promise { Headline }
    ensures accepted { MayBeAccepted }
    ensures each_runs { EachCommandRuns }
{
    readers_keep_laws();
}

/// The promise of a session that has a history when it is taken up. Each session that commands led to has one: that of the
/// requests since its base. Behind any further commands all of the promise holds of it: an accepted request leaves exactly what its
/// operations make, undo and redo give back, a refusal changes nothing, the base and the state are exactly what the requests that
/// were committed since and those that stand now make of the base then, those of before among them; and the same requests over
/// that base leave the same state, whatever was done and taken back before or since. It is kept of all commands from the start, too, as if they were
/// one list; and of a session that was restored from a state text, from that text's state on.
pub fn the_promise_goes_on()
    ensures onward { PromisedOnward }
    ensures reached { ReachedHaveHistory }
    ensures further { PromiseGoesOn }
    ensures restored { RestoredArePromised }
{
    readers_keep_laws();
}

/// After any commands with any replies, refusals and want of memory among them, each state is what
/// its standing request makes, against the session's base IRI, of the state before, and the state
/// now is what the requests up to the cursor make of the base, one after another. Without a depth
/// the base is the state at the last commit, or the one that the session began with; a commit
/// leaves the state as it was, without a history.
pub fn standing_requests()
    ensures each { (depth : Option ℕ) (base_iri : Option (List ℕ)) (state : State)
        (events : List (Command × Reply)) (session : Session) →
        Run (with_depth depth (fresh base_iri state)) events session →
        Follows base_iri session.base
        (requests_of depth nothing events).items session.states.items }
    ensures now { (depth : Option ℕ) (base_iri : Option (List ℕ)) (state : State)
        (events : List (Command × Reply)) (session : Session) →
        Run (with_depth depth (fresh base_iri state)) events session →
        MakesAll base_iri (take session.states.cursor
        (requests_of depth nothing events).items) session.base (now session) }
    ensures first_base { BaseIsTheFirst }
    ensures last_base { BaseIsTheLastCommitted }
    ensures committed { CommitKeepsTheState }
{}

/// After any commands with any replies the cursor and each mark lie in the list of states, which is
/// no longer than the depth. Where
/// the cursor lies there: the next undo behind an accepted request gives back the state before it,
/// in quads, graph names and counter, with the counts turned; the next redo behind that gives the
/// session again that the request had left, its history too, with the same counts. Marks and
/// refusals may come between. A rollback to a mark that was put where the session stood gives back
/// that state, whatever requests were accepted since. Anywhere in a history an undo and a redo
/// behind it, or the other way, leave the session as it was. So does a refusal.
pub fn undo_gives_back()
    ensures whole { RunsAreWhole }
    ensures undo { UndoGivesBack }
    ensures redo { RedoGivesAgain }
    ensures undo_redo { UndoThenRedo }
    ensures redo_undo { RedoThenUndo }
    ensures rollback { RollbackGivesBack }
    ensures refused { RefusalsLeave }
{}

/// A rollback to a mark gives back the state at which the mark was put, in quads, graph names and
/// counter, whatever commands with whatever replies came between: requests, refusals, undos, redos,
/// rollbacks, commits, and marks of other names. Without a depth, where only requests and refusals
/// came between, it is refused only where memory is wanting.
pub fn a_rollback_gives_back_its_mark()
    ensures state { RollbackGivesBackItsMark }
    ensures taken { RollbackIsTaken }
{}

/// The counts of an answer tell how many quads came, and how many went: `added` is the number of those
/// that the state has behind the command and hadn't before, `removed` that of those which it had before
/// and hasn't behind it; at an undo and a rollback too.
pub fn counts_are_told()
    ensures { CountsAreTold }
{
    rdf_dataset::changes_are_exact();
}

/// An accepted request leaves the states up to the cursor with the new one behind them, and each mark
/// at its state; under a depth, where these are more than it allows, but for the first of them and
/// the marks there.
pub fn a_depth_forgets_the_oldest()
    ensures { RequestsLeaveTheLast }
{}

/// Where no reply is that memory is wanting, a command has one reply, but for a line of a fault
/// that is the reader's own choice; and it leads to one session. So has a query. A request has one
/// result at each state, or is refused there, and never both.
pub fn one_reply()
    ensures commands { OneReply }
    ensures queries { OneQueryReply }
    ensures there { SomeResult }
    ensures result { OneResult }
    ensures never_both { ResultOrRefusal }
{
    readers_keep_laws();
    sparql_syntax::one_query();
    sparql_algebra::one_selection();
    sparql_algebra::one_answer();
}

/// A load does what INSERT DATA of its document's quads does, and is refused for want of blank
/// numbers just where that is. The blank numbers of the document are just those below one number:
/// so many the load takes, and these it wants.
pub fn a_load_is_insert_data()
    ensures leads { LoadInserts }
    ensures refused { LoadIsRefusedAlike }
    ensures limit { LimitIsTheCount }
    ensures takes { LoadTakesTheCount }
    ensures wants { LoadWantsTheCount }
{
    readers_keep_laws();
    rdf_lines::blank_numbers_are_below();
    rdf_turtle::blank_numbers_are_below();
}

/// A session that is restored from what another saved is at that one's state, whatever base IRI it is
/// given, and only want of memory refuses it; what is restored is saved as the same text. Under the
/// same depth and base IRI it is the very session that a commit leaves where the other was saved: all
/// later commands have the same replies at both, and undo, redo and rollback go no further back.
pub fn a_saved_state_comes_back()
    ensures back { SavedComesBack }
    ensures text { RestoredIsSavedAlike }
    ensures committed { RestoredIsAsCommitted }
    ensures alike { CommandsGoOnAlike }
{
    rdf_lines::state_text_is_one();
    rdf_lines::state_texts_differ();
}
