//! The state in which declarations and triples are read.
ghost use Rattle.std.specs.Prelude.{◌≡◌, ◌+◌, length, Some, IfOk, OnOk, OnErr, IsTrue};
ghost use Rattle.std.specs.Option.{option_copied};
ghost use Rattle.rdf_grammar.specs.Literals.{literal_of, proper_literal};
ghost use Rattle.rdf_grammar.specs.Prologue as prologue;
ghost use Rattle.rdf_grammar.specs.Prologue.{is_proper};
ghost use Rattle.sparql_drafts.specs.Drafting as drafting;
ghost use Rattle.sparql_drafts.specs.Kept.{Gives, Tells};
ghost use Rattle.sparql_drafts.specs.Meaning as meaning;
ghost use Rattle.sparql_drafts.specs.Room.{HasRoom, IsPaired, TakesAtMost, SaysAtLeast};

use crate::draft::{QuadPattern, Quads, VarOrIri, VarOrTerm};
use crate::fault::{DraftFault, or_fault};
use rdf_grammar::{Literal as Written, Name, Numbering, Prologue};
use rdf_terms::{Iri, Items, Literal, NoMemory, Term, Vocabulary};
use rdf_tokens::Slice;
use sparql_grammar::Declaration;
use std::alloc::Global;
use std::marker::Model;
use std::mem;

/// The prologue, the graph around the triples and the numbering, as the text so far leaves them, and
/// what the operation at hand has said so far.
#[derive(Drop)]
pub struct Scope<'a> {
    pub(crate) alloc: Global,
    pub(crate) vocabulary: Vocabulary,
    prologue: Prologue<'a>,
    graph: Option<VarOrIri<'a>>,
    numbering: Numbering<'a>,
    patterns: Vec<QuadPattern<'a>>,
    graphs: Items<VarOrIri<'a>>,
    labels: Items<Slice<'a>>,
}

impl<'a> Model for Scope<'a> {
    ghost use Rattle.sparql_drafts.specs.Drafting.{Drafting};

    ghost Value = { Drafting };

    ghost view = { λ s. record {
      prologue = s.prologue;
      graph = s.graph;
      numbering = s.numbering;
      patterns = s.patterns.items;
      graphs = s.graphs;
      labels = s.labels;
    } };
}

// An equal base.
fn copied(base: Option<&Iri>) -> Result<Option<Iri>, NoMemory>
    ensures { IfOk result (λ copy. copy ≡ option_copied base.entry) }
{
    match base {
        Some(iri) => Ok(Some(iri.copy()?)),
        None => Ok(None),
    }
}

impl<'a> Scope<'a> {
    /// This base; nothing is declared, and nothing said. The vocabulary is shared.
    ///
    /// # Errors
    /// [`NoMemory`] where memory is wanting.
    pub fn new(
        alloc: Global,
        vocabulary: &Vocabulary,
        base: Option<&Iri>,
    ) -> Result<Scope<'a>, NoMemory>
        ensures { let begun = prologue.start (option_copied base.entry) in
            IfOk result (λ scope. scope ≡ drafting.start begun) }
    {
        Ok(Scope {
            alloc,
            vocabulary: vocabulary.copy()?,
            prologue: Prologue::new(alloc, copied(base)?)?,
            graph: None,
            numbering: Numbering::new(alloc),
            patterns: Vec::new(alloc),
            graphs: Items::new(alloc),
            labels: Items::new(alloc),
        })
    }

    /// Nothing is said: the data of an operation begins.
    pub(crate) fn begin(&mut self)
        ensures { self.new ≡ drafting.start self.old.prologue }
    {
        self.graph = None;
        self.patterns = Vec::new(self.alloc);
        let _ = mem::replace(&mut self.numbering, Numbering::new(self.alloc));
        let _ = mem::replace(&mut self.graphs, Items::new(self.alloc));
        let _ = mem::replace(&mut self.labels, Items::new(self.alloc));
    }

    /// What was said: the data of an operation ends.
    pub(crate) fn end(&mut self) -> Quads<'a>
        ensures value { result ≡ drafting.quads self.old }
        ensures prologue { self.new.prologue ≡ self.old.prologue }
    {
        let patterns = mem::replace(&mut self.patterns, Vec::new(self.alloc));
        let graphs = mem::replace(&mut self.graphs, Items::new(self.alloc));
        let labels = mem::replace(&mut self.labels, Items::new(self.alloc));
        Quads {
            patterns: Items::from_vec(patterns),
            graphs,
            labels,
            blanks: self.numbering.next(),
        }
    }

    /// Makes room for the triples of a subject.
    ///
    /// # Errors
    /// [`NoMemory`] where memory is wanting.
    pub(crate) fn reserve(&mut self) -> Result<(), NoMemory>
        requires { IsPaired self.old }
        ensures same { self.new ≡ self.old }
        ensures room { OnOk result (HasRoom 1 self.new) }
    {
        self.patterns.reserve(1)?;
        Ok(())
    }

    /// A new blank node.
    #[tactic(auto, unfolding(crate::specs::Drafting::fresh))]
    pub(crate) fn fresh(&mut self) -> VarOrTerm<'a>
        requires room { HasRoom 0 self.old }
        ensures gives { drafting.fresh self.old ≡ Some (result, self.new) }
        ensures prologue { self.new.prologue ≡ self.old.prologue }
        ensures room { TakesAtMost 1 self.old self.new }
        ensures says { SaysAtLeast 0 self.old self.new }
    {
        VarOrTerm::Term(Term::Blank(self.numbering.fresh()))
    }

    /// The blank node of a label.
    #[tactic(auto, using(crate::proofs::ScopeLabels::known_label, crate::proofs::ScopeLabels::new_label), unfolding(crate::specs::Drafting::labelled))]
    pub(crate) fn labelled(&mut self, label: &Slice<'a>) -> Result<VarOrTerm<'a>, NoMemory>
        requires room { HasRoom 0 self.old }
        ensures gives { let step = drafting.labelled label.now in
            IfOk result (λ node. step self.old ≡ Some (node, self.new)) }
        ensures prologue { self.new.prologue ≡ self.old.prologue }
        ensures room { TakesAtMost 1 self.old self.new }
        ensures says { SaysAtLeast 0 self.old self.new }
    {
        let before = self.numbering.next();
        let number = self.numbering.labelled(label)?;
        if self.numbering.next() != before {
            self.labels.push(label.fork())?;
        }
        Ok(VarOrTerm::Term(Term::Blank(number)))
    }

    /// Says a triple in the graph where it stands.
    #[tactic(auto, unfolding(crate::specs::Drafting::says))]
    pub(crate) fn says(
        &mut self,
        subject: &VarOrTerm<'a>,
        predicate: &VarOrIri<'a>,
        object: VarOrTerm<'a>,
    ) -> Result<(), NoMemory>
        ensures gives { let step = drafting.says subject.now predicate.now object.entry in
            OnOk result (step self.old ≡ Some (tt, self.new)) }
        ensures prologue { self.new.prologue ≡ self.old.prologue }
        ensures number { self.new.numbering ≡ self.old.numbering }
        ensures more { OnOk result (length self.new.patterns ≡ length self.old.patterns + 1) }
    {
        let graph = match &self.graph {
            Some(name) => Some(name.copy()?),
            None => None,
        };
        let subject = subject.copy()?;
        let predicate = predicate.copy()?;
        self.patterns.push(QuadPattern {
            graph,
            subject,
            predicate,
            object,
        })?;
        Ok(())
    }

    /// The triples that follow stand in the default graph.
    #[tactic(auto, unfolding(crate::specs::Drafting::in_default))]
    pub(crate) fn in_default(&mut self)
        ensures gives { drafting.in_default self.old ≡ Some (tt, self.new) }
        ensures prologue { self.new.prologue ≡ self.old.prologue }
        ensures number { self.new.numbering ≡ self.old.numbering }
        ensures patterns { self.new.patterns ≡ self.old.patterns }
    {
        self.graph = None;
    }

    /// The triples that follow stand in the graph of this name.
    #[tactic(auto, unfolding(crate::specs::Drafting::in_graph))]
    pub(crate) fn in_graph(&mut self, name: VarOrIri<'a>) -> Result<(), NoMemory>
        ensures gives { OnOk result (drafting.in_graph name.entry self.old ≡ Some (tt, self.new)) }
        ensures prologue { self.new.prologue ≡ self.old.prologue }
        ensures number { self.new.numbering ≡ self.old.numbering }
        ensures patterns { self.new.patterns ≡ self.old.patterns }
    {
        self.graphs.push(name.copy()?)?;
        self.graph = Some(name);
        Ok(())
    }

    /// The property from a cell of a list to its element.
    pub(crate) fn rdf_first(&self) -> Result<VarOrIri<'a>, NoMemory>
        ensures { IfOk result (λ property. property ≡ meaning.first) }
    {
        Ok(VarOrIri::Iri(self.vocabulary.rdf_first().copy()?))
    }

    /// The property from a cell of a list to the next one.
    pub(crate) fn rdf_rest(&self) -> Result<VarOrIri<'a>, NoMemory>
        ensures { IfOk result (λ property. property ≡ meaning.rest) }
    {
        Ok(VarOrIri::Iri(self.vocabulary.rdf_rest().copy()?))
    }

    /// The list without elements.
    pub(crate) fn rdf_nil(&self) -> Result<VarOrTerm<'a>, NoMemory>
        ensures { IfOk result (λ list. list ≡ meaning.nil) }
    {
        Ok(VarOrTerm::Term(Term::Iri(self.vocabulary.rdf_nil().copy()?)))
    }

    /// A declaration, which is in force from here on (SPARQL 1.1 Query, section 4.1.1).
    ///
    /// # Errors
    /// [`DraftFault::NoIri`] where it has a relative reference and there is no base;
    /// [`DraftFault::NoMemory`] where memory is wanting. Then nothing is declared.
    #[tactic(auto, unfolding(crate::specs::Meaning::declaration))]
    pub fn declare(&mut self, declaration: &Declaration<'a>) -> Result<(), DraftFault>
        ensures gives { let step = meaning.declaration declaration.now in
            Gives (step self.old.prologue) result self.new.prologue }
        ensures kept { OnErr result (self.new.prologue ≡ self.old.prologue) }
    {
        match declaration {
            Declaration::Prefix(prefix, reference) => {
                let iri = self.resolved(reference)?;
                Ok(self.prologue.declare(prefix, iri)?)
            }
            Declaration::Base(reference) => or_fault(self.prologue.move_base(reference)),
        }
    }

    /// The IRI of a name (SPARQL 1.1 Query, section 4.1.1).
    ///
    /// # Errors
    /// [`DraftFault::NoIri`] where its prefix isn't declared, or it is a relative reference and there
    /// is no base; [`DraftFault::NoMemory`] where memory is wanting.
    #[tactic(auto, unfolding(crate::specs::Meaning::iri))]
    pub fn iri(&mut self, name: &Name<'a>) -> Result<Iri, DraftFault>
        requires { IsTrue (is_proper name.now) }
        ensures gives { Gives (meaning.iri name.now self.old) result self.new }
        ensures tells { Tells (prologue.iri_of name.now self.old.prologue) result }
        ensures same { self.new ≡ self.old }
    {
        or_fault(self.prologue.iri(name))
    }

    /// What a literal stands for (SPARQL 1.1 Query, section 4.1.2).
    ///
    /// # Errors
    /// As of [`Scope::iri`], for the name of its datatype.
    #[tactic(auto, unfolding(crate::specs::Meaning::literal))]
    pub fn literal(&mut self, literal: &Written<'a>) -> Result<Literal, DraftFault>
        requires { IsTrue (proper_literal literal.now) }
        ensures gives { Gives (meaning.literal literal.now self.old) result self.new }
        ensures tells { Tells (literal_of literal.now self.old.prologue) result }
        ensures same { self.new ≡ self.old }
    {
        or_fault(self.prologue.literal(&self.vocabulary, literal))
    }

    /// The IRI of a reference.
    pub(crate) fn resolved(&self, reference: &Slice<'a>) -> Result<Iri, DraftFault>
        ensures { Tells (prologue.resolved reference.now self.now.prologue) result }
    {
        or_fault(self.prologue.resolve(reference))
    }
}
