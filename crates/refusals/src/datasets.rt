//! A net that takes the quads and the name of one graph out and brings those of another in: its commit
//! and its revert, each made again where it is refused. What the dataset holds is known at each place,
//! and is asked of its names and of each order of its quads.
ghost use Rattle.std.specs.Prelude.{◌≡◌, ℕ, IsTrue, IfSome, MatchBool};
ghost use Rattle.rdf_dataset.specs.State.{IsTermBelow, IsQuadBelow, Begins, Ends};

use rdf_dataset::{Dataset, Net, Source, Staged};
use rdf_terms::{GraphName, Iri, Quad, Term};
use std::alloc::Global;
use told_parts::{memory_is_back, requests_count};

// A graph of two quads, and the number of the next blank node where it is there.
#[derive(Clone, Copy)]
struct Place {
    graph: &'static str,
    next: u64,
}

const FRONT: Place = Place {
    graph: "a:g",
    next: 1,
};

const BACK: Place = Place {
    graph: "a:h",
    next: 3,
};

// The terms of the quads of a graph: one of their subjects, their predicate, and their object, which is
// also the graph's name.
#[derive(Drop)]
struct Asked {
    graph: GraphName,
    subject: Term,
    predicate: Term,
    object: Term,
}

// What is asked of a dataset at each place.
#[derive(Drop)]
struct Questions {
    alloc: Global,
    front: Asked,
    back: Asked,
}

impl Asked {
    fn new(alloc: Global, place: Place) -> Option<Asked> {
        Some(Asked {
            graph: GraphName::Named(iri(alloc, place.graph)?),
            subject: iri(alloc, "a:s")?,
            predicate: iri(alloc, "a:p")?,
            object: iri(alloc, place.graph)?,
        })
    }
}

/// Whether a commit and a revert that are refused leave quads, names and counter, and do what they
/// should when they are made again.
pub fn outcome(alloc: Global) -> &'static str {
    requests_count(alloc);
    if is_kept(alloc) {
        "datasets: as without a refusal"
    } else {
        "datasets: changed by a refusal"
    }
}

fn is_kept(alloc: Global) -> bool {
    match made(alloc) {
        Some(questions) => is_answered(&questions),
        None => false,
    }
}

// What is asked, made again where that is refused.
fn made(alloc: Global) -> Option<Questions> {
    match Questions::new(alloc) {
        None => {
            memory_is_back(alloc);
            Questions::new(alloc)
        }
        made => made,
    }
}

fn is_answered(questions: &Questions) -> bool {
    match attempt(questions) {
        Some(is_right) => is_right,
        None => {
            memory_is_back(questions.alloc);
            attempt(questions) == Some(true)
        }
    }
}

// Whether all is answered as it should be; nothing where the dataset or the net isn't made.
fn attempt(questions: &Questions) -> Option<bool> {
    let mut dataset = Dataset::new(questions.alloc);
    match begun(questions.alloc, &mut dataset) {
        Some(net) => Some(survives(&mut dataset, &net, questions)),
        None => None,
    }
}

// Whether the net leads the dataset there and back.
fn survives(dataset: &mut Dataset, net: &Net, questions: &Questions) -> bool
    requires { Begins net.now dataset.old }
{
    if !questions.at_front(dataset) {
        return false;
    }
    if !goes(dataset, net, questions) {
        return false;
    }
    if !questions.at_back(dataset) {
        return false;
    }
    comes_back(dataset, net, questions) && questions.at_front(dataset)
}

/// Brings an empty dataset to the front, and gives the net from there to the back.
pub fn begun(alloc: Global, dataset: &mut Dataset) -> Option<Net>
    ensures { IfSome result (λ net. Begins net dataset.new) }
{
    match insertion(alloc, dataset, FRONT) {
        Some(first) => moved(alloc, dataset, first),
        None => None,
    }
}

// Brings the dataset to where the net ends, and gives the net from there to the back.
fn moved(alloc: Global, dataset: &mut Dataset, first: Net) -> Option<Net>
    requires { Begins first dataset.old }
    ensures { IfSome result (λ net. Begins net dataset.new) }
{
    match insertion(alloc, dataset, BACK) {
        Some(second) => moved_on(dataset, first, &second),
        None => None,
    }
}

// Brings the dataset to where the first net ends, and gives the net from there to where the second ends.
fn moved_on(dataset: &mut Dataset, first: Net, second: &Net) -> Option<Net>
    requires first { Begins first dataset.old }
    requires second { Begins second.now dataset.old }
    ensures { IfSome result (λ net. Begins net dataset.new) }
{
    match dataset.commit(&first) {
        Ok(()) => match first.reversed().then(second) {
            Ok(net) => Some(net),
            Err(_) => None,
        },
        Err(_) => None,
    }
}

fn iri(alloc: Global, text: &str) -> Option<Term>
    ensures { IfSome result (λ t. (next : ℕ) → IsTermBelow next t) }
{
    match Iri::new(alloc, text) {
        Ok(iri) => Some(Term::Iri(iri)),
        Err(_) => None,
    }
}

fn quad(alloc: Global, graph: &str, subject: &str) -> Option<Quad>
    ensures { IfSome result (λ q. (next : ℕ) → IsQuadBelow next q) }
{
    match iri(alloc, graph) {
        Some(name) => match iri(alloc, subject) {
            Some(subject) => quad_of(alloc, name, subject, graph),
            None => None,
        },
        None => None,
    }
}

fn quad_of(alloc: Global, name: Term, subject: Term, object: &str) -> Option<Quad>
    requires name { (next : ℕ) → IsTermBelow next name }
    requires subject { (next : ℕ) → IsTermBelow next subject }
    ensures { IfSome result (λ q. (next : ℕ) → IsQuadBelow next q) }
{
    match iri(alloc, "a:p") {
        Some(predicate) => match iri(alloc, object) {
            Some(object) => Quad::new(GraphName::Named(name), subject, predicate, object),
            None => None,
        },
        None => None,
    }
}

fn insert(alloc: Global, view: &mut Staged<'_, Dataset>, graph: &str, subject: &str) -> bool
    ensures { view.new.under ≡ view.old.under }
{
    match quad(alloc, graph, subject) {
        Some(quad) => match view.insert(quad) {
            Ok(_) => true,
            Err(_) => false,
        },
        None => false,
    }
}

// Inserts the quads of the place, and takes its numbers.
fn insert_both(alloc: Global, view: &mut Staged<'_, Dataset>, place: Place) -> bool
    ensures { view.new.under ≡ view.old.under }
{
    insert(alloc, view, place.graph, "a:s")
        && insert(alloc, view, place.graph, "a:t")
        && view.take_blanks(place.next).is_some()
}

// The net from a dataset without quads to the place.
fn insertion(alloc: Global, dataset: &Dataset, place: Place) -> Option<Net>
    ensures { IfSome result (λ net. Begins net dataset.now) }
{
    let mut view = Staged::over(alloc, dataset);
    if !insert_both(alloc, &mut view, place) {
        return None;
    }
    match view.into_net() {
        Ok(net) => Some(net),
        Err(_) => None,
    }
}

fn commits(dataset: &mut Dataset, net: &Net) -> bool
    requires { Begins net.now dataset.old }
    ensures { MatchBool result (Ends net.now dataset.new) (dataset.new ≡ dataset.old) }
{
    match dataset.commit(net) {
        Ok(()) => true,
        Err(_) => false,
    }
}

fn reverts(dataset: &mut Dataset, net: &Net) -> bool
    requires { Ends net.now dataset.old }
    ensures { MatchBool result (Begins net.now dataset.new) (dataset.new ≡ dataset.old) }
{
    match dataset.revert(net) {
        Ok(()) => true,
        Err(_) => false,
    }
}

// Commits the net, again where that was refused and has changed nothing.
fn goes(dataset: &mut Dataset, net: &Net, questions: &Questions) -> bool
    requires { Begins net.now dataset.old }
    ensures { IsTrue result → Ends net.now dataset.new }
{
    if commits(dataset, net) {
        return true;
    }
    memory_is_back(questions.alloc);
    questions.at_front(dataset) && commits(dataset, net)
}

// Reverts it so.
fn comes_back(dataset: &mut Dataset, net: &Net, questions: &Questions) -> bool
    requires { Ends net.now dataset.old }
{
    if reverts(dataset, net) {
        return true;
    }
    memory_is_back(questions.alloc);
    questions.at_back(dataset) && reverts(dataset, net)
}

impl Questions {
    fn new(alloc: Global) -> Option<Questions> {
        let front = Asked::new(alloc, FRONT)?;
        let back = Asked::new(alloc, BACK)?;
        Some(Questions { alloc, front, back })
    }

    fn at_front(&self, dataset: &Dataset) -> bool {
        is_at(self.alloc, dataset, FRONT)
            && self.finds(dataset, &self.front, 1, 2)
            && self.finds(dataset, &self.back, 0, 0)
    }

    fn at_back(&self, dataset: &Dataset) -> bool {
        is_at(self.alloc, dataset, BACK)
            && self.finds(dataset, &self.front, 0, 0)
            && self.finds(dataset, &self.back, 1, 2)
    }

    // Whether as many quads have the subject, and as many the predicate or the object.
    fn finds(&self, dataset: &Dataset, asked: &Asked, of_subject: usize, all: usize) -> bool {
        let subject = Some(&asked.subject);
        let predicate = Some(&asked.predicate);
        let object = Some(&asked.object);
        self.found(dataset, &asked.graph, subject, None, None) == Some(of_subject)
            && self.found(dataset, &asked.graph, None, predicate, None) == Some(all)
            && self.found(dataset, &asked.graph, None, None, object) == Some(all)
    }

    // How many quads a look-up appends, made again where it is refused.
    fn found(
        &self,
        dataset: &Dataset,
        graph: &GraphName,
        subject: Option<&Term>,
        predicate: Option<&Term>,
        object: Option<&Term>,
    ) -> Option<usize> {
        let mut quads = Vec::new(self.alloc);
        if dataset
            .matches(graph, subject, predicate, object, &mut quads)
            .is_err()
        {
            memory_is_back(self.alloc);
            if !quads.is_empty() {
                return None;
            }
            dataset
                .matches(graph, subject, predicate, object, &mut quads)
                .ok()?;
        }
        Some(quads.len())
    }
}

// Whether what is listed is two quads of the place's graph and its name.
fn is_at(alloc: Global, dataset: &Dataset, place: Place) -> bool {
    dataset.next_blank() == place.next
        && lists_quads(alloc, dataset, place.graph)
        && lists_names(alloc, dataset, place.graph)
}

// Each is listed again where that is refused.
fn lists_quads(alloc: Global, dataset: &Dataset, graph: &str) -> bool {
    match quads_listed(dataset, graph) {
        Some(is_right) => is_right,
        None => {
            memory_is_back(alloc);
            quads_listed(dataset, graph) == Some(true)
        }
    }
}

fn quads_listed(dataset: &Dataset, graph: &str) -> Option<bool> {
    match dataset.quads() {
        Ok(quads) => Some(lie_in(quads.as_slice(), graph)),
        Err(_) => None,
    }
}

fn lists_names(alloc: Global, dataset: &Dataset, graph: &str) -> bool {
    match names_listed(dataset, graph) {
        Some(is_right) => is_right,
        None => {
            memory_is_back(alloc);
            names_listed(dataset, graph) == Some(true)
        }
    }
}

fn names_listed(dataset: &Dataset, graph: &str) -> Option<bool> {
    match dataset.names_sorted() {
        Ok(names) => Some(is_name(names.as_slice(), graph)),
        Err(_) => None,
    }
}

fn lie_in(quads: &[Quad], graph: &str) -> bool {
    match quads {
        [first, second] => lies_in(first, graph) && lies_in(second, graph),
        _ => false,
    }
}

fn lies_in(quad: &Quad, graph: &str) -> bool {
    match quad.graph() {
        GraphName::Default => false,
        GraphName::Named(name) => is_iri(name, graph),
    }
}

fn is_name(names: &[Term], text: &str) -> bool {
    match names {
        [name] => is_iri(name, text),
        _ => false,
    }
}

fn is_iri(term: &Term, text: &str) -> bool {
    match term {
        Term::Iri(iri) => iri.as_str() == text,
        _ => false,
    }
}
