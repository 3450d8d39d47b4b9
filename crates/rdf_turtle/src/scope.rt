//! The state in which a document is read.
ghost use Rattle.std.specs.Prelude.{◌≡◌, ◌+◌, false, length, IfOk, OnOk, IsTrue};
ghost use Rattle.rdf_terms.specs.Term.{is_literal_term};
ghost use Rattle.rdf_grammar.specs.Keys.{key_of};
ghost use Rattle.rdf_turtle.specs.Meaning as meaning;
ghost use Rattle.rdf_grammar.specs.Literals.{known_literal, proper_literal};
ghost use Rattle.rdf_grammar.specs.Prologue as prologue;
ghost use Rattle.rdf_grammar.specs.Prologue.{declared, knows, is_proper};
ghost use Rattle.rdf_turtle.specs.Inside.Room.{HasRoom, TakesAtMost};
ghost use Rattle.rdf_turtle.specs.Inside.Told.{GivesOrMisses};
ghost use Rattle.rdf_turtle.specs.ParserState as state;

use crate::sink::TripleSink;
use crate::tree::{Literal as Written, Name};
use rdf_grammar::{Numbering, Prologue, PrologueFault};
use rdf_terms::{Iri, Literal, NoMemory, Term, Vocabulary};
use rdf_tokens::Slice;
use std::alloc::Global;
use std::marker::Model;

/// The prologue and the numbering, as the text so far leaves them, and what takes the triples that are said.
#[derive(Drop)]
pub(crate) struct Scope<'a, S: TripleSink> {
    pub(crate) alloc: Global,
    pub(crate) vocabulary: Vocabulary,
    pub(crate) prologue: Prologue<'a>,
    numbering: Numbering<'a>,
    sink: S,
}

impl<'a, S: TripleSink> Model for Scope<'a, S> {
    ghost use Rattle.std.specs.Prelude.{◌≤◌, length};
    ghost use Rattle.rdf_turtle.specs.ParserState.{ParserState, longest};

    ghost Value = { ParserState };

    ghost view = { λ s. record {
      prologue = s.prologue;
      numbering = s.numbering;
      quads = S.taken s.sink;
    } };

    ghost invariant = { λ s. length (S.taken s.sink) ≤ longest };
}

impl<'a, S: TripleSink> Scope<'a, S> {
    /// Nothing is declared, and nothing said.
    pub(crate) fn new(alloc: Global, base: Option<Iri>) -> Result<Scope<'a, S>, NoMemory>
        ensures { IfOk result (λ scope. scope ≡ state.start base) }
    {
        let vocabulary = Vocabulary::new(alloc)?;
        let prologue = Prologue::new(alloc, base)?;
        Ok(Scope {
            alloc,
            vocabulary,
            prologue,
            numbering: Numbering::new(alloc),
            sink: S::empty(alloc),
        })
    }

    /// What has taken the triples said.
    pub(crate) fn into_sink(self) -> S
        ensures { S.taken result ≡ self.entry.quads }
    {
        let Scope {
            vocabulary,
            prologue,
            numbering,
            sink,
            ..
        } = self;
        // (let go in one call each, which is proved sooner)
        drop(vocabulary);
        drop(prologue);
        drop(numbering);
        sink
    }

    /// A new blank node.
    #[tactic(auto, unfolding(crate::specs::ParserState::fresh))]
    pub(crate) fn fresh(&mut self) -> Term
        requires room { HasRoom 0 self.old }
        ensures gives { state.fresh self.old ≡ Some (result, self.new) }
        ensures prologue { self.new.prologue ≡ self.old.prologue }
        ensures room { TakesAtMost 1 self.old self.new }
        ensures kind { is_literal_term result ≡ false }
    {
        Term::Blank(self.numbering.fresh())
    }

    /// The blank node of a label.
    #[tactic(auto, unfolding(crate::specs::ParserState::labelled))]
    pub(crate) fn labelled(&mut self, label: &Slice<'a>) -> Result<Term, NoMemory>
        requires room { HasRoom 0 self.old }
        ensures gives { let step = state.labelled (key_of label.now) in
            IfOk result (λ node. step self.old ≡ Some (node, self.new)) }
        ensures prologue { self.new.prologue ≡ self.old.prologue }
        ensures room { TakesAtMost 1 self.old self.new }
        ensures kind { IfOk result (λ node. is_literal_term node ≡ false) }
    {
        Ok(Term::Blank(self.numbering.labelled(label)?))
    }

    /// Says a triple.
    #[tactic(auto, unfolding(crate::specs::ParserState::says))]
    #[inline(always)]
    pub(crate) fn says(
        &mut self,
        subject: &Term,
        predicate: &Iri,
        object: Term,
    ) -> Result<(), NoMemory>
        requires subject { is_literal_term subject.now ≡ false }
        ensures gives { let step = state.says subject.now predicate.now object in
            OnOk result (step self.old ≡ Some (tt, self.new)) }
        ensures prologue { self.new.prologue ≡ self.old.prologue }
        ensures number { self.new.numbering ≡ self.old.numbering }
        ensures more { OnOk result (length self.new.quads ≡ length self.old.quads + 1) }
    {
        self.sink.take(subject, predicate, object)
    }

    /// The IRI of a name.
    #[tactic(auto, unfolding(crate::specs::Meaning::iri))]
    pub(crate) fn iri(&mut self, name: &Name<'a>) -> Result<Iri, PrologueFault>
        requires proper { IsTrue (is_proper name.now) }
        ensures gives { GivesOrMisses (meaning.iri name.now self.old) result self.new }
        ensures known { OnOk result (IsTrue (knows (declared self.old.prologue) name.now)) }
        ensures same { self.new ≡ self.old }
    {
        self.prologue.iri(name)
    }

    /// What a literal stands for.
    #[tactic(auto, unfolding(crate::specs::Meaning::literal))]
    pub(crate) fn literal(&mut self, literal: &Written<'a>) -> Result<Literal, PrologueFault>
        requires proper { IsTrue (proper_literal literal.now) }
        ensures gives { GivesOrMisses (meaning.literal literal.now self.old) result self.new }
        ensures known { OnOk result
            (IsTrue (known_literal (declared self.old.prologue) literal.now)) }
        ensures same { self.new ≡ self.old }
    {
        self.prologue.literal(&self.vocabulary, literal)
    }

    /// The IRI of a reference.
    pub(crate) fn resolved(&self, reference: &Slice<'a>) -> Result<Iri, PrologueFault>
        ensures { GivesOrMisses
            (state.told (prologue.resolved reference.now) self.now) result self.now }
    {
        self.prologue.resolve(reference)
    }
}
