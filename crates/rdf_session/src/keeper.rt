//! The keeper: a dataset with its history.
ghost use Rattle.std.specs.Prelude.{◌≡◌, ℕ, List, ◌+◌, ◌≤◌, ◌-◌, ◌++◌, Some, Result, Ok, Err, IfOk, IfErr, OnErr, OnOk, MatchResult, cond, drop, length};
ghost use Rattle.std.specs.FinSet as set;
ghost use Rattle.std.specs.List.{AllByRecursion, concat};
ghost use Rattle.rdf_dataset.specs.State.{Begins, empty_state, IsSound, State, net_between};
ghost use Rattle.rdf_session.specs.Beginning.{BeginsWithLoad};
ghost use Rattle.rdf_session.specs.Depth.{greatest_depth, is_past};
ghost use Rattle.rdf_session.specs.Documents.{IsDocument, of_lines};
ghost use Rattle.rdf_session.specs.GivesBack.{IsWholeSession};
ghost use Rattle.rdf_session.specs.History.{marks_behind, nothing};
ghost use Rattle.rdf_session.specs.Inside.Spans.{no_span};
ghost use Rattle.rdf_session.specs.Inside.Staging.{TellsFault};
ghost use Rattle.rdf_session.specs.Session.{nets_between};
ghost use Rattle.rdf_dataset.specs.Sorted.{ListsSorted};
ghost use Rattle.rdf_session.specs.QuadLines.{ListsQuads};
ghost use Rattle.rdf_session.specs.Query.{Replies, RepliesIn};
ghost use Rattle.rdf_session.specs.Request.{Load, Update};
ghost use Rattle.rdf_session.specs.Saved.{IsTextOf, Restores};
ghost use Rattle.rdf_session.specs.Session.{Commit, Do, Done, Mark, Redo, Rollback, Session, Transition, Undo, accepted, all_states, counts_between, fresh, now, reply_of, reply_of_mark, with_depth};
ghost use Rattle.rdf_session.specs.Faults.{no_memory};
ghost use Rattle.rdf_session.specs.declared.format.Format.TheVariants.{Turtle};

use crate::between::{composed, size_between, size_of};
use crate::fault::{Counts, KeeperFault};
use crate::fed_start::FedStart;
use crate::format::Format;
use crate::lines::write_lines;
use crate::load::{read, stage};
use crate::marks::Marks;
use crate::query::{Answer, evaluate, read_text};
use crate::saved::{restored, restored_text, save};
use crate::span::Span;
use crate::start::begin_in_turtle;
use crate::update::{read_request, stage_request};
use rdf_dataset::{Dataset, Net, Source};
use rdf_lines::{LineFormat, StateFault};
use rdf_terms::{Iri, NoMemory as NoMemoryFault, Quad, Term, Vocabulary};
use sparql_results::ResultsFormat;
use std::alloc::Global;
use std::cell::OnceCell;
use std::collections::VecDeque;
use std::marker::Model;

/// A dataset with its history: the state now, the net of each accepted request, and marks.
/// A contract sees the session, whose cursor and marks always lie in its list of states.
#[derive(Drop)]
pub struct Keeper {
    base_iri: Option<Iri>,
    depth: Option<usize>,
    dataset: Dataset,
    entries: VecDeque<Net>,
    cursor: usize,
    marks: Marks,
    // what changed since the base, for whoever asks
    span: Span,
    // made by the first request or query that wants it
    vocabulary: OnceCell<Vocabulary>,
    alloc: Global,
}

impl Model for Keeper {
    ghost use Rattle.rdf_session.specs.Session.{Session, session_code};
    ghost use Rattle.rdf_session.specs.Inside.Kept.{IsBounded, IsKept, base_of, session_from};
    ghost use Rattle.rdf_session.specs.Inside.Spans.{IsSpan};

    ghost Value = { Session };

    ghost coded = { session_code };

    ghost view = { λ k. session_from (record { base_iri = k.base_iri; depth = k.depth })
        (base_of k.dataset k.entries.items k.cursor) k.entries.items k.cursor k.marks };

    ghost invariant = { λ k. IsKept
        (base_of k.dataset k.entries.items k.cursor) k.dataset k.entries.items k.cursor k.marks
        × IsBounded k.depth k.entries.items
        × IsSpan (base_of k.dataset k.entries.items k.cursor) k.entries.items k.span };
}

impl Keeper {
    /// A session that begins with no quads and no names, with a base IRI for the requests that resolve
    /// against one.
    pub fn new(alloc: Global, base: Option<Iri>) -> Keeper
        ensures { result ≡ fresh base (empty_state 0) }
    {
        Keeper::over(alloc, Dataset::new(alloc), base)
    }

    /// A session that begins at the dataset, with a base IRI for the requests that resolve against one.
    pub fn over(alloc: Global, dataset: Dataset, base: Option<Iri>) -> Keeper
        ensures { result ≡ fresh base dataset }
    {
        let _sound = dataset.next_blank();
        Keeper {
            base_iri: base,
            depth: None,
            dataset,
            entries: VecDeque::new(alloc),
            cursor: 0,
            marks: Marks::new(alloc),
            span: Span::new(alloc),
            vocabulary: OnceCell::new(),
            alloc,
        }
    }

    /// A session that begins with what a document loads, against the base where it is Turtle: nothing of it can be
    /// undone. It lets the text go as soon as it is read.
    ///
    /// # Errors
    /// Those of [`load`](Keeper::load).
    pub fn begun_with(
        alloc: Global,
        base: Option<Iri>,
        format: Format,
        text: Vec<u8>,
    ) -> Result<Keeper, KeeperFault>
        ensures { BeginsWithLoad format base text.items result }
    {
        match format {
            Format::NQuads => Keeper::begun_with_lines(alloc, base, LineFormat::NQuads, text),
            Format::NTriples => Keeper::begun_with_lines(alloc, base, LineFormat::NTriples, text),
            Format::Turtle => Keeper::begun_with_turtle(alloc, base, text),
        }
    }

    // The same of a document of lines, which is fed in one piece.
    fn begun_with_lines(
        alloc: Global,
        base: Option<Iri>,
        format: LineFormat,
        text: Vec<u8>,
    ) -> Result<Keeper, KeeperFault>
        ensures { BeginsWithLoad (of_lines format) base text.items result }
    {
        match FedStart::new(alloc, base, format).feed(text.as_slice()) {
            Ok(start) => {
                drop(text);
                start.end()
            }
            Err(fault) => Err(fault),
        }
    }

    // And of one of Turtle.
    fn begun_with_turtle(
        alloc: Global,
        base: Option<Iri>,
        text: Vec<u8>,
    ) -> Result<Keeper, KeeperFault>
        ensures { BeginsWithLoad Turtle base text.items result }
    {
        match begin_in_turtle(alloc, text, base.as_ref()) {
            Ok(dataset) => Ok(Keeper::over(alloc, dataset, base)),
            Err(fault) => Err(fault),
        }
    }

    /// A session that begins at the sound state whose state text the bytes are, without a history.
    ///
    /// # Errors
    /// [`NotState`](StateFault::NotState) where they are the text of no sound state,
    /// [`NoMemory`](StateFault::NoMemory) where memory is wanting.
    pub fn restore(alloc: Global, bytes: &[u8], base: Option<Iri>) -> Result<Keeper, StateFault>
        ensures { Restores base bytes.now result }
    {
        let dataset = restored(alloc, bytes)?;
        Ok(Keeper::over(alloc, dataset, base))
    }

    /// A session that begins as [`restore`](Keeper::restore) has it, and lets the text go as soon as it is read.
    ///
    /// # Errors
    /// Those of [`restore`](Keeper::restore).
    pub fn restore_text(
        alloc: Global,
        text: Vec<u8>,
        base: Option<Iri>,
    ) -> Result<Keeper, StateFault>
        ensures { Restores base text.items result }
    {
        let start = restored_text(alloc, text)?;
        Ok(Keeper::over(alloc, start, base))
    }

    /// The session with a bounded history: where an accepted request brings one entry more than `depth`, the oldest
    /// is forgotten, and the state behind it is the base. It takes no memory.
    pub fn with_depth(mut self, depth: usize) -> Keeper
        requires from_one { 1 ≤ depth }
        requires upto_greatest { depth ≤ greatest_depth }
        requires without_history { self.states ≡ nothing }
        ensures { result ≡ with_depth (Some depth) self }
    {
        self.depth = Some(depth);
        self
    }

    /// Loads a document, against the session's base where it is Turtle: its quads come in, each with the name of its graph, and its blank node j becomes
    /// the node with the number of the counter and j more. Counts are of the quads that are new.
    ///
    /// # Errors
    /// `Line` at the first faulty line, `Turtle` where the text is no document of Turtle, `BlankNumbers` where the counter would pass 10^18, `NoMemory`; the
    /// session is then as it was.
    pub fn load(&mut self, format: Format, text: &[u8]) -> Result<Counts, KeeperFault>
        ensures { Transition self.old (Do (Load format text.now)) (reply_of result) self.new }
    {
        let quads = self.document(format, text)?;
        self.insert(quads)
    }

    /// Loads a document as [`load`](Keeper::load) does, and lets its text go as soon as it is read.
    ///
    /// # Errors
    /// Those of [`load`](Keeper::load); the session is then as it was.
    pub fn load_text(&mut self, format: Format, text: Vec<u8>) -> Result<Counts, KeeperFault>
        ensures { Transition self.old (Do (Load format text.items)) (reply_of result) self.new }
    {
        let quads = self.document(format, text.as_slice())?;
        drop(text);
        self.insert(quads)
    }

    // The quads of a text, against the session's base.
    fn document(&self, format: Format, text: &[u8]) -> Result<Vec<Quad>, KeeperFault>
        ensures { MatchResult result
            (λ quads. IsDocument format self.now.base_iri text.now quads.items)
            (λ fault. TellsFault format self.now.base_iri text.now fault) }
    {
        read(self.alloc, format, text, self.base_iri.as_ref())
    }

    // Loads the quads of a document, whichever text it is of.
    fn insert(&mut self, quads: Vec<Quad>) -> Result<Counts, KeeperFault>
        ensures { (format : Format) (text : List ℕ) →
            IsDocument format self.old.base_iri text quads.items →
            Transition self.old (Do (Load format text)) (reply_of result) self.new }
    {
        let net = stage(self.alloc, &self.dataset, quads)?;
        self.accept(net)
    }

    /// Applies a request of SPARQL 1.1 Update, its references against the session's base: its operations act in their order. Counts are of
    /// the quads that all of them together added and removed.
    ///
    /// # Errors
    /// `Syntax` where the text is no request, then `Apply` at the first operation that is refused; `NoMemory`; the session is
    /// then as it was, whatever operations come before.
    pub fn update(&mut self, text: &[u8]) -> Result<Counts, KeeperFault>
        ensures { Transition self.old (Do (Update text.now)) (reply_of result) self.new }
    {
        let vocabulary = self.vocabulary()?;
        let request = read_request(self.alloc, vocabulary, text, self.base_iri.as_ref())?;
        let net = stage_request(self.alloc, vocabulary, &self.dataset, &request)?;
        self.accept(net)
    }

    /// What a query of SPARQL 1.1 answers of the state now, its references against the session's base. It changes nothing.
    ///
    /// # Errors
    /// `Syntax` where the text is no query; `NoMemory`.
    pub fn query(&self, text: &[u8]) -> Result<Answer, KeeperFault>
        ensures { Replies self.now text.now result }
    {
        self.query_in(ResultsFormat::Tsv, text)
    }

    /// What a query answers of the state now, as [`Keeper::query`] does, its results in a format.
    ///
    /// # Errors
    /// `Syntax` where the text is no query; `NoMemory`.
    pub fn query_in(&self, format: ResultsFormat, text: &[u8]) -> Result<Answer, KeeperFault>
        ensures { RepliesIn format self.now text.now result }
    {
        let vocabulary = self.vocabulary()?;
        let query = read_text(self.alloc, vocabulary, text, self.base_iri.as_ref())?;
        Ok(evaluate(self.alloc, vocabulary, format, &query, &self.dataset)?)
    }

    // The vocabulary that is lent to whatever reads or evaluates.
    fn vocabulary(&self) -> Result<&Vocabulary, NoMemoryFault> {
        let alloc = self.alloc;
        self.vocabulary.get_or_try_init(|| Vocabulary::new(alloc))
    }

    // Takes the net of an accepted request. All growths come before the first change, and the oldest entry is
    // forgotten behind the last.
    fn accept(&mut self, net: Net) -> Result<Counts, KeeperFault>
        requires { Begins net (now self.old) }
        ensures ok { IfOk result (λ counts. (after : State) →
            net ≡ net_between (now self.old) after →
            (self.new ≡ accepted after self.old)
            × (counts ≡ counts_between (now self.old) after)) }
        ensures refused { IfErr result (λ fault. fault ≡ no_memory) }
        ensures err { OnErr result (self.new ≡ self.old) }
    {
        self.entries.reserve(1)?;
        self.dataset.commit(&net)?;
        let counts = counts_of(&net);
        let size = size_of(&net);
        self.span
            .leave(self.alloc, &self.entries, self.cursor, net.before());
        self.entries.truncate(self.cursor);
        self.entries.push_back_reserved(net);
        self.marks.keep_through(self.cursor);
        self.cursor = self.entries.len();
        forget_oldest(
            self.depth,
            &mut self.entries,
            &mut self.marks,
            &mut self.cursor,
            &mut self.span,
        );
        self.gather(size);
        Ok(counts)
    }

    // Takes what was done into the net since the base, once that pays; at the base nothing has changed, and nothing is held.
    // Nothing that is seen changes, and where memory is wanting nothing is refused.
    fn gather(&mut self, size: usize)
        ensures { self.new ≡ self.old }
    {
        if self.cursor == 0 {
            self.span.clear();
        } else if self.span.is_due(size, &self.entries, self.cursor) {
            let counter = self.dataset.next_blank();
            self.span
                .gather(self.alloc, &self.entries, self.cursor, counter);
        }
    }

    /// Goes back before the last standing request: quads, names and counter are as they were. It needs no
    /// memory where the request removed no quad and no name.
    ///
    /// # Errors
    /// `NothingToUndo` at the base, `NoMemory`; the session is then as it was.
    pub fn undo(&mut self) -> Result<Counts, KeeperFault>
        ensures { Transition self.old Undo (reply_of result) self.new }
    {
        if self.cursor == 0 {
            return Err(KeeperFault::NothingToUndo);
        }
        let entry = &self.entries[self.cursor - 1];
        self.dataset.revert(entry)?;
        let counts = back_counts_of(entry);
        let size = size_of(entry);
        self.cursor -= 1;
        self.gather(size);
        Ok(counts)
    }

    /// Goes on to the state after the request that was undone last, which isn't run again. It needs no
    /// memory where the request added no quad and no name.
    ///
    /// # Errors
    /// `NothingToRedo` at the last request, `NoMemory`; the session is then as it was.
    pub fn redo(&mut self) -> Result<Counts, KeeperFault>
        ensures { Transition self.old Redo (reply_of result) self.new }
    {
        if self.cursor == self.entries.len() {
            return Err(KeeperFault::NothingToRedo);
        }
        let entry = &self.entries[self.cursor];
        self.dataset.commit(entry)?;
        let counts = counts_of(entry);
        let size = size_of(entry);
        self.cursor += 1;
        self.gather(size);
        Ok(counts)
    }

    /// Puts the name, any text, at the cursor, and nowhere else.
    ///
    /// # Errors
    /// [`NoMemory`](rdf_terms::NoMemory): the marks are then as they were.
    pub fn mark(&mut self, name: &[u8]) -> Result<(), NoMemoryFault>
        ensures { Transition self.old (Mark name.now) (reply_of_mark result) self.new }
    {
        self.marks.put(name, self.cursor)?;
        Ok(())
    }

    /// Goes back to a mark in one change; what was passed can be redone.
    ///
    /// # Errors
    /// `NoSuchMark`, `MarkAhead` where the mark lies past the cursor, `NoMemory`; the session is then as it was.
    pub fn rollback(&mut self, name: &[u8]) -> Result<Counts, KeeperFault>
        ensures { Transition self.old (Rollback name.now) (reply_of result) self.new }
    {
        let Some(place) = self.marks.place_of(name) else {
            return Err(KeeperFault::NoSuchMark);
        };
        if place > self.cursor {
            return Err(KeeperFault::MarkAhead);
        }
        let counter = self.dataset.next_blank();
        let net = composed(self.alloc, &self.entries, place, self.cursor, counter)?;
        self.dataset.revert(&net)?;
        let counts = back_counts_of(&net);
        let size = size_between(&self.entries, place, self.cursor);
        self.cursor = place;
        self.gather(size);
        Ok(counts)
    }

    /// Makes the state now the base, and forgets requests and marks. It takes no memory.
    pub fn commit(&mut self)
        ensures { Transition self.old Commit Done self.new }
    {
        self.entries.clear();
        self.marks.clear();
        self.span.clear();
        self.cursor = 0;
    }

    /// The nets between neighbouring states, standing or to be redone, the oldest first.
    pub fn entries(&self) -> &VecDeque<Net>
        ensures { result.now.items ≡ nets_between self.now.base self.now.states.items }
    {
        &self.entries
    }

    /// The net between the base and the state now.
    ///
    /// # Errors
    /// [`NoMemory`](rdf_terms::NoMemory).
    pub fn changes(&self) -> Result<Net, NoMemoryFault>
        ensures { IfOk result (λ net. net ≡ net_between self.now.base (now self.now)) }
    {
        let counter = self.dataset.next_blank();
        self.span
            .net_to(self.alloc, &self.entries, self.cursor, counter)
    }

    /// Appends the lines of the quads now, sorted, as canonical N-Quads (RDF 1.1 N-Quads, section 2), and
    /// answers how many there are.
    ///
    /// # Errors
    /// [`NoMemory`](rdf_terms::NoMemory): the vector is then as it was.
    pub fn write_quads(&self, out: &mut Vec<u8>) -> Result<u64, NoMemoryFault>
        ensures ok { IfOk result (λ count. (lines : List (List ℕ))
            × ListsQuads (now self.now) lines
            × (out.new.items ≡ out.old.items ++ concat lines) × (count ≡ length lines)) }
        ensures err { OnErr result (out.new.items ≡ out.old.items) }
    {
        let quads = self.dataset.quads()?;
        write_lines(&quads, out)?;
        Ok(quads.len() as u64)
    }

    /// Appends the state text of the state now, at which [`restore`](Keeper::restore) begins again. The
    /// history is left out.
    ///
    /// # Errors
    /// [`NoMemory`](rdf_terms::NoMemory): the vector is then as it was.
    pub fn dump(&self, out: &mut Vec<u8>) -> Result<(), NoMemoryFault>
        ensures ok { OnOk result ((text : List ℕ)
            × IsTextOf (now self.now) text × (out.new.items ≡ out.old.items ++ text)) }
        ensures err { OnErr result (out.new.items ≡ out.old.items) }
    {
        save(&self.dataset, out)
    }

    /// The names of the graphs now, sorted, those of empty graphs too.
    ///
    /// # Errors
    /// [`NoMemory`](rdf_terms::NoMemory).
    pub fn names(&self) -> Result<Vec<Term>, NoMemoryFault>
        ensures { IfOk result (λ names. ListsSorted (now self.now).names names.items) }
    {
        self.dataset.names_sorted()
    }

    /// The number of the next blank node now. It takes no memory. Each state of any keeper is sound, and its cursor and
    /// each of its marks lie in the list of states.
    pub fn next_blank(&self) -> u64
        ensures value { result ≡ (now self.now).next }
        ensures sound { AllByRecursion IsSound (all_states self.now) }
        ensures whole { IsWholeSession self.now }
    {
        Source::next_blank(&self.dataset)
    }
}

fn counts_of(net: &Net) -> Counts
    ensures added { result.added ≡ set.len net.now.added }
    ensures removed { result.removed ≡ set.len net.now.removed }
{
    Counts {
        added: net.added().len() as u64,
        removed: net.removed().len() as u64,
    }
}

// The counts of the net the other way.
fn back_counts_of(net: &Net) -> Counts
    ensures added { result.added ≡ set.len net.now.removed }
    ensures removed { result.removed ≡ set.len net.now.added }
{
    Counts {
        added: net.removed().len() as u64,
        removed: net.added().len() as u64,
    }
}

// Forgets the first entry, with the marks before it, where there are more than the depth. It takes no memory.
fn forget_oldest(
    depth: Option<usize>,
    entries: &mut VecDeque<Net>,
    marks: &mut Marks,
    cursor: &mut usize,
    span: &mut Span,
)
    ensures entries { entries.new.items ≡
        cond (is_past depth cursor.old) (drop 1 entries.old.items) entries.old.items }
    ensures marks { marks.new ≡
        cond (is_past depth cursor.old) (marks_behind 1 marks.old) marks.old }
    ensures cursor { cursor.new ≡ cond (is_past depth cursor.old) (cursor.old - 1) cursor.old }
    ensures span { span.new ≡ cond (is_past depth cursor.old) no_span span.old }
{
    let Some(depth) = depth else {
        return;
    };
    if *cursor > depth {
        entries.pop_front();
        marks.fall();
        span.stop();
        *cursor -= 1;
    }
}
