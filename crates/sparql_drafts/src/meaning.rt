//! What triples say.
ghost use Rattle.std.specs.Prelude.{◌≡◌, true, drop, length, OnOk, IsTrue, map};
ghost use Rattle.std.specs.List.{list_all};
ghost use Rattle.rdf_grammar.specs.Steps.{each};
ghost use Rattle.sparql_grammar.specs.Proper as proper;
ghost use Rattle.sparql_grammar.specs.Proper.{holds};
ghost use Rattle.sparql_drafts.specs.Kept.{Gives, Tells};
ghost use Rattle.sparql_drafts.specs.Meaning as spec;
ghost use Rattle.sparql_drafts.specs.Room.{HasRoom, TakesAtMost, SaysAtLeast, IsPaired};

use crate::draft::{Quads, VarOrIri, VarOrTerm};
use crate::fault::DraftFault;
use crate::scope::Scope;
use rdf_terms::Term;
use sparql_grammar::{Block, Node, Property, Triples, VarOrIri as WrittenName, Verb};

impl<'a> Scope<'a> {
    #[tactic(auto, unfolding(crate::specs::Meaning::verb))]
    fn verb(&mut self, verb: &Verb<'a>) -> Result<VarOrIri<'a>, DraftFault>
        requires proper { IsTrue (proper.proper_verb verb.now) }
        ensures gives { Gives (spec.verb verb.now self.old) result self.new }
        ensures same { self.new ≡ self.old }
    {
        match verb {
            Verb::Variable(name) => Ok(VarOrIri::Variable(name.fork())),
            Verb::Name(name) => Ok(VarOrIri::Iri(self.iri(name)?)),
            Verb::Type => Ok(VarOrIri::Iri(self.vocabulary.rdf_type().copy()?)),
        }
    }

    /// The variable, or the IRI of the name, that is written (SPARQL 1.1 Query, section 4.1).
    ///
    /// # Errors
    /// As of [`Scope::iri`].
    #[tactic(auto, unfolding(crate::specs::Meaning::var_or_iri))]
    pub fn var_or_iri(&mut self, name: &WrittenName<'a>) -> Result<VarOrIri<'a>, DraftFault>
        requires proper { IsTrue (proper.proper_var_or_iri name.now) }
        ensures gives { Gives (spec.var_or_iri name.now self.old) result self.new }
        ensures same { self.new ≡ self.old }
    {
        match name {
            WrittenName::Variable(name) => Ok(VarOrIri::Variable(name.fork())),
            WrittenName::Name(name) => Ok(VarOrIri::Iri(self.iri(name)?)),
        }
    }

    // What a node stands for.
    fn term(&mut self, node: &Node<'a>) -> Result<VarOrTerm<'a>, DraftFault>
        requires proper { IsTrue (proper.proper_node node.now) }
        requires room { HasRoom 0 self.old }
        ensures gives { Gives ((spec.meaning node.now).term self.old) result self.new }
        ensures prologue { self.new.prologue ≡ self.old.prologue }
        ensures room { TakesAtMost 1 self.old self.new }
        ensures says { SaysAtLeast 0 self.old self.new }
    {
        match node {
            Node::Variable(name) => Ok(VarOrTerm::Variable(name.fork())),
            Node::Name(name) => Ok(VarOrTerm::Term(Term::Iri(self.iri(name)?))),
            Node::Literal(literal) => Ok(VarOrTerm::Term(Term::Literal(self.literal(literal)?))),
            Node::Label(label) => Ok(self.labelled(label)?),
            Node::Blank(_, _) => Ok(self.fresh()),
            Node::Collection(_, items) => match items.as_slice() {
                [] => Ok(self.rdf_nil()?),
                [_, ..] => Ok(self.fresh()),
            },
        }
    }

    // The triples inside a node.
    #[cycle(inside)]
    #[tactic(auto, using(crate::proofs::ScopeLoops::filled_count, crate::proofs::ScopeLoops::rest_all))]
    fn inside(&mut self, node: &Node<'a>, term: &VarOrTerm<'a>) -> Result<(), DraftFault>
        requires proper { IsTrue (proper.proper_node node.now) }
        requires room { HasRoom 0 self.old }
        ensures gives { Gives ((spec.meaning node.now).inside term.now self.old) result self.new }
        ensures prologue { self.new.prologue ≡ self.old.prologue }
        ensures room { OnOk result (TakesAtMost 0 self.old self.new) }
        ensures says { OnOk result (SaysAtLeast 0 self.old self.new) }
        ensures alone { proper.stands_alone node.now ≡ true
            → OnOk result (SaysAtLeast 1 self.old self.new) }
    {
        match node {
            Node::Blank(_, properties) => self.properties(term, properties.as_slice()),
            Node::Collection(_, items) => self.elements(term, items.as_slice()),
            Node::Variable(_) | Node::Name(_) | Node::Literal(_) | Node::Label(_) => Ok(()),
        }
    }

    // The triple itself, then those inside the object.
    #[cycle(inside)]
    #[tactic(auto, unfolding(crate::specs::Meaning::object))]
    fn object(
        &mut self,
        subject: &VarOrTerm<'a>,
        predicate: &VarOrIri<'a>,
        node: &Node<'a>,
    ) -> Result<(), DraftFault>
        requires proper { IsTrue (proper.proper_node node.now) }
        requires room { HasRoom 0 self.old }
        ensures gives { let says = spec.object subject.now predicate.now (spec.meaning node.now) in
            Gives (says self.old) result self.new }
        ensures prologue { self.new.prologue ≡ self.old.prologue }
        ensures room { OnOk result (TakesAtMost 0 self.old self.new) }
        ensures says { OnOk result (SaysAtLeast 1 self.old self.new) }
    {
        let object = self.term(node)?;
        match node {
            Node::Variable(_) | Node::Name(_) | Node::Literal(_) | Node::Label(_) => {
                Ok(self.says(subject, predicate, object)?)
            }
            Node::Blank(_, _) | Node::Collection(_, _) => {
                let said = object.copy()?;
                self.says(subject, predicate, said)?;
                self.inside(node, &object)
            }
        }
    }

    // The cell behind one, and what is inside its element.
    #[cycle(inside)]
    fn next_cell(
        &mut self,
        cell: &VarOrTerm<'a>,
        item: &Node<'a>,
    ) -> Result<VarOrTerm<'a>, DraftFault>
        requires proper { IsTrue (proper.proper_node item.now) }
        requires room { HasRoom 0 self.old }
        ensures gives { let step = spec.next_cell cell.now (spec.meaning item.now) in
            Gives (step self.old) result self.new }
        ensures prologue { self.new.prologue ≡ self.old.prologue }
        ensures room { OnOk result (TakesAtMost 0 self.old self.new) }
        ensures says { OnOk result (SaysAtLeast 1 self.old self.new) }
    {
        let first = self.rdf_first()?;
        let rest = self.rdf_rest()?;
        let next = self.fresh();
        let said = next.copy()?;
        self.says(cell, &rest, said)?;
        self.object(&next, &first, item)?;
        Ok(next)
    }

    // The cells behind one, and what is inside their elements.
    #[cycle(inside)]
    fn behind(&mut self, cell: &VarOrTerm<'a>, items: &[Node<'a>]) -> Result<(), DraftFault>
        requires proper { IsTrue (list_all holds (map proper.proper_node items.now)) }
        requires room { HasRoom 0 self.old }
        ensures gives { let says = spec.behind cell.now (map spec.meaning items.now) in
            Gives (says self.old) result self.new }
        ensures prologue { self.new.prologue ≡ self.old.prologue }
        ensures room { OnOk result (TakesAtMost 0 self.old self.new) }
        ensures says { OnOk result (SaysAtLeast (length items.now) self.old self.new) }
    {
        let mut cell = cell.copy()?;
        for item in items {
            let next = self.next_cell(&cell, item)?;
            cell = next;
        }
        let rest = self.rdf_rest()?;
        let nil = self.rdf_nil()?;
        Ok(self.says(&cell, &rest, nil)?)
    }

    // The element of a cell, and what is inside it.
    #[cycle(inside)]
    fn element(&mut self, cell: &VarOrTerm<'a>, item: &Node<'a>) -> Result<(), DraftFault>
        requires proper { IsTrue (proper.proper_node item.now) }
        requires room { HasRoom 0 self.old }
        ensures gives { let says = spec.object cell.now spec.first (spec.meaning item.now) in
            Gives (says self.old) result self.new }
        ensures prologue { self.new.prologue ≡ self.old.prologue }
        ensures room { OnOk result (TakesAtMost 0 self.old self.new) }
        ensures says { OnOk result (SaysAtLeast 1 self.old self.new) }
    {
        let first = self.rdf_first()?;
        self.object(cell, &first, item)
    }

    // The element of a list's first cell, and what is inside it.
    #[cycle(inside)]
    fn first_element(&mut self, cell: &VarOrTerm<'a>, item: &Node<'a>) -> Result<(), DraftFault>
        requires proper { IsTrue (proper.proper_node item.now) }
        requires room { HasRoom 0 self.old }
        ensures gives { let says = spec.object cell.now spec.first (spec.meaning item.now) in
            Gives (says self.old) result self.new }
        ensures prologue { self.new.prologue ≡ self.old.prologue }
        ensures room { OnOk result (TakesAtMost 0 self.old self.new) }
        ensures says { OnOk result (SaysAtLeast 1 self.old self.new) }
    {
        self.element(cell, item)
    }

    // The triples of a list, from its first cell on.
    #[cycle(inside)]
    fn elements(&mut self, cell: &VarOrTerm<'a>, items: &[Node<'a>]) -> Result<(), DraftFault>
        requires proper { IsTrue (list_all holds (map proper.proper_node items.now)) }
        requires proper_rest { IsTrue (list_all holds (map proper.proper_node (drop 1 items.now))) }
        requires room { HasRoom 0 self.old }
        ensures gives { let says = spec.list_inside (map spec.meaning items.now) cell.now in
            Gives (says self.old) result self.new }
        ensures prologue { self.new.prologue ≡ self.old.prologue }
        ensures room { OnOk result (TakesAtMost 0 self.old self.new) }
        ensures says { OnOk result (SaysAtLeast (length items.now) self.old self.new) }
    {
        match items {
            [] => Ok(()),
            [first, rest @ ..] => {
                self.first_element(cell, first)?;
                self.behind(cell, rest)
            }
        }
    }

    #[cycle(inside)]
    fn objects(
        &mut self,
        subject: &VarOrTerm<'a>,
        predicate: &VarOrIri<'a>,
        nodes: &[Node<'a>],
    ) -> Result<(), DraftFault>
        requires proper { IsTrue (list_all holds (map proper.proper_node nodes.now)) }
        requires filled { IsTrue (proper.is_filled nodes.now) }
        requires room { HasRoom 0 self.old }
        ensures gives { let says = spec.objects subject.now predicate.now
            (map spec.meaning nodes.now) in
            Gives (says self.old) result self.new }
        ensures prologue { self.new.prologue ≡ self.old.prologue }
        ensures room { OnOk result (TakesAtMost 0 self.old self.new) }
        ensures says { OnOk result (SaysAtLeast (length nodes.now) self.old self.new) }
    {
        if nodes.is_empty() {
            unreachable!();
        }
        for node in nodes {
            self.object(subject, predicate, node)?;
        }
        Ok(())
    }

    #[cycle(inside)]
    fn property(
        &mut self,
        subject: &VarOrTerm<'a>,
        property: &Property<'a>,
    ) -> Result<(), DraftFault>
        requires proper { IsTrue (proper.proper_property property.now) }
        requires room { HasRoom 0 self.old }
        ensures gives { Gives (spec.property property.now subject.now self.old) result self.new }
        ensures prologue { self.new.prologue ≡ self.old.prologue }
        ensures room { OnOk result (TakesAtMost 0 self.old self.new) }
        ensures says { OnOk result (SaysAtLeast 1 self.old self.new) }
    {
        let predicate = self.verb(&property.verb)?;
        self.objects(subject, &predicate, property.objects.as_slice())
    }

    #[cycle(inside)]
    fn properties(
        &mut self,
        subject: &VarOrTerm<'a>,
        properties: &[Property<'a>],
    ) -> Result<(), DraftFault>
        requires proper { IsTrue (list_all holds (map proper.proper_property properties.now)) }
        requires room { HasRoom 0 self.old }
        ensures gives { let says = spec.properties subject.now properties.now in
            Gives (says self.old) result self.new }
        ensures prologue { self.new.prologue ≡ self.old.prologue }
        ensures room { OnOk result (TakesAtMost 0 self.old self.new) }
        ensures says { OnOk result (SaysAtLeast (length properties.now) self.old self.new) }
    {
        for property in properties {
            self.property(subject, property)?;
        }
        Ok(())
    }

    // The triples inside a subject, then those of its properties.
    fn subject_with(
        &mut self,
        node: &Node<'a>,
        properties: &[Property<'a>],
    ) -> Result<(), DraftFault>
        requires proper { IsTrue (proper.proper_node node.now) }
        requires proper_properties { IsTrue (list_all holds
            (map proper.proper_property properties.now)) }
        requires room { HasRoom 1 self.old }
        ensures gives { let says = spec.subject_with node.now properties.now in
            Gives (says self.old) result self.new }
        ensures prologue { self.new.prologue ≡ self.old.prologue }
        ensures room { OnOk result (TakesAtMost 1 self.old self.new) }
        ensures says { OnOk result (SaysAtLeast (length properties.now) self.old self.new) }
        ensures alone { proper.stands_alone node.now ≡ true
            → OnOk result (SaysAtLeast 1 self.old self.new) }
    {
        let subject = self.term(node)?;
        self.inside(node, &subject)?;
        self.properties(&subject, properties)
    }

    // The triples of a subject with its properties.
    #[tactic(auto, unfolding(crate::specs::Meaning::triples))]
    fn triples(&mut self, triples: &Triples<'a>) -> Result<(), DraftFault>
        requires proper { IsTrue (proper.proper_triples triples.now) }
        requires room { IsPaired self.old }
        ensures gives { Gives (spec.triples triples.now self.old) result self.new }
        ensures prologue { self.new.prologue ≡ self.old.prologue }
        ensures room { OnOk result (IsPaired self.new) }
    {
        self.reserve()?;
        self.subject_with(&triples.subject, triples.properties.as_slice())
    }

    // The graph in which the triples of a block stand.
    fn graph(&mut self, graph: &Option<WrittenName<'a>>) -> Result<(), DraftFault>
        requires proper { IsTrue (proper.proper_graph graph.now) }
        ensures gives { Gives (spec.graph graph.now self.old) result self.new }
        ensures prologue { self.new.prologue ≡ self.old.prologue }
        ensures number { self.new.numbering ≡ self.old.numbering }
        ensures patterns { self.new.patterns ≡ self.old.patterns }
    {
        match graph {
            None => {
                self.in_default();
                Ok(())
            }
            Some(name) => {
                let name = self.var_or_iri(name)?;
                Ok(self.in_graph(name)?)
            }
        }
    }

    fn all_triples(&mut self, all: &[Triples<'a>]) -> Result<(), DraftFault>
        requires proper { IsTrue (list_all holds (map proper.proper_triples all.now)) }
        requires room { IsPaired self.old }
        ensures gives { let says = each (λ f. f) (map spec.triples all.now) in
            Gives (says self.old) result self.new }
        ensures prologue { self.new.prologue ≡ self.old.prologue }
        ensures room { OnOk result (IsPaired self.new) }
    {
        for one in all {
            self.triples(one)?;
        }
        Ok(())
    }

    fn block(&mut self, block: &Block<'a>) -> Result<(), DraftFault>
        requires proper { IsTrue (proper.proper_block block.now) }
        requires room { IsPaired self.old }
        ensures gives { Gives (spec.block block.now self.old) result self.new }
        ensures prologue { self.new.prologue ≡ self.old.prologue }
        ensures room { OnOk result (IsPaired self.new) }
    {
        self.graph(&block.graph)?;
        self.all_triples(block.triples.as_slice())
    }

    /// The quads of an operation's data, whose blank nodes are numbered from 0 by their places in the
    /// text, over all its blocks (SPARQL 1.1 Update, section 3.1.1).
    ///
    /// # Errors
    /// [`DraftFault::NoIri`] where a name has no IRI; [`DraftFault::NoMemory`] where memory is wanting.
    #[tactic(auto, unfolding(crate::specs::Meaning::quads_in))]
    pub fn data(&mut self, blocks: &[Block<'a>]) -> Result<Quads<'a>, DraftFault>
        requires proper { IsTrue (list_all holds (map proper.proper_block blocks.now)) }
        ensures tells { Tells (spec.quads_in blocks.now self.old.prologue) result }
        ensures prologue { self.new.prologue ≡ self.old.prologue }
    {
        self.begin();
        for block in blocks {
            self.block(block)?;
        }
        Ok(self.end())
    }

    /// The triples of a basic graph pattern, in no graph, whose blank nodes are numbered from 0 by
    /// their places in the text (SPARQL 1.1 Query, sections 4.1.4 and 5.1).
    ///
    /// # Errors
    /// [`DraftFault::NoIri`] where a name has no IRI; [`DraftFault::NoMemory`] where memory is wanting.
    #[tactic(auto, unfolding(crate::specs::Meaning::pattern_in))]
    pub fn basic_graph_pattern(&mut self, triples: &[Triples<'a>]) -> Result<Quads<'a>, DraftFault>
        requires proper { IsTrue (list_all holds (map proper.proper_triples triples.now)) }
        ensures tells { Tells (spec.pattern_in triples.now self.old.prologue) result }
        ensures prologue { self.new.prologue ≡ self.old.prologue }
    {
        self.begin();
        self.all_triples(triples)?;
        Ok(self.end())
    }
}
