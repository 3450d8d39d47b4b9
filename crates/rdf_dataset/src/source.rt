//! What a dataset is to those who read it.
ghost use Rattle.std.specs.Prelude.{◌≡◌, ◌≤◌, ◌+◌, false, length, option_copied, IfOk, OnOk, OnErr};
ghost use Rattle.std.specs.FinSet as set;
ghost use Rattle.rdf_terms.specs.Lists.{AppendsOnce};
ghost use Rattle.rdf_dataset.specs.State.{State, AppendsSome, IsSound, in_named, matches};

use rdf_terms::{GraphName, NoMemory, Quad, Term};

/// What holds the quads, the graph names and the blank counter of a dataset.
pub trait Source {
    /// What is held.
    ghost contents: { Self → State };

    /// Whether the quad is there. It takes no memory.
    fn contains(&self, quad: &Quad) -> bool
        ensures { result ≡ set.contains (contents self.now).quads quad.now };

    /// Whether a graph has the name, be it empty. It takes no memory.
    fn has_name(&self, name: &Term) -> bool
        ensures { result ≡ set.contains (contents self.now).names name.now };

    /// The number of the next blank node: those that are there have lower ones. It takes no memory.
    fn next_blank(&self) -> u64
        ensures value { result ≡ (contents self.now).next }
        ensures sound { IsSound (contents self.now) };

    /// Appends each graph name once, in any order.
    ///
    /// # Errors
    /// [`NoMemory`] where memory is wanting: nothing is appended then.
    fn names(&self, out: &mut Vec<Term>) -> Result<(), NoMemory>
        ensures ok { OnOk result (AppendsOnce
            (contents self.now).names out.old.items out.new.items) }
        ensures err { OnErr result (out.new.items ≡ out.old.items) };

    /// Appends each quad of the graph that has the terms of the bound places once, in any order, and
    /// answers how many quads were looked at.
    ///
    /// # Errors
    /// [`NoMemory`] where memory is wanting: nothing is appended then.
    fn matches(
        &self,
        graph: &GraphName,
        subject: Option<&Term>,
        predicate: Option<&Term>,
        object: Option<&Term>,
        out: &mut Vec<Quad>,
    ) -> Result<usize, NoMemory>
        ensures found { OnOk result (AppendsOnce
            (set.retain (contents self.now).quads (matches graph.now (option_copied subject.entry)
            (option_copied predicate.entry) (option_copied object.entry)))
            out.old.items out.new.items) }
        ensures looked { IfOk result
            (λ looked. length out.new.items ≤ length out.old.items + looked) }
        ensures err { OnErr result (out.new.items ≡ out.old.items) };

    /// Appends each quad of the named graphs once, in any order, and answers how many quads were looked
    /// at. As it is given here, it asks for the quads of each graph name.
    ///
    /// # Errors
    /// [`NoMemory`] where memory is wanting: nothing is appended then.
    fn named_quads(&self, out: &mut Vec<Quad>) -> Result<usize, NoMemory>
        ensures found { OnOk result (AppendsOnce
            (set.retain (contents self.now).quads in_named) out.old.items out.new.items) }
        ensures looked { IfOk result
            (λ looked. length out.new.items ≤ length out.old.items + looked) }
        ensures err { OnErr result (out.new.items ≡ out.old.items) }
    {
        let _next = self.next_blank();
        let alloc = *out.allocator();
        let mut names = Vec::new(alloc);
        self.names(&mut names)?;
        let mut found = Vec::new(alloc);
        let mut looked: usize = 0;
        for name in names {
            let more = self.matches(&GraphName::Named(name), None, None, None, &mut found)?;
            looked = looked.saturating_add(more);
        }
        out.append(&mut found)?;
        Ok(looked)
    }

    /// Appends some of the quads that [`matches`](Source::matches) appends, each once, and answers
    /// whether these are all; where they aren't, they are `most`. As it is given here, it appends all.
    ///
    /// # Errors
    /// [`NoMemory`] where memory is wanting: nothing is appended then.
    fn some_matches(
        &self,
        graph: &GraphName,
        subject: Option<&Term>,
        predicate: Option<&Term>,
        object: Option<&Term>,
        most: usize,
        out: &mut Vec<Quad>,
    ) -> Result<bool, NoMemory>
        ensures found { IfOk result (λ all. AppendsSome
            (set.retain (contents self.now).quads (matches graph.now (option_copied subject.entry)
            (option_copied predicate.entry) (option_copied object.entry)))
            all out.old.items out.new.items) }
        ensures stopped { IfOk result (λ all. all ≡ false →
            length out.new.items ≡ length out.old.items + most) }
        ensures err { OnErr result (out.new.items ≡ out.old.items) }
    {
        self.matches(graph, subject, predicate, object, out)?;
        Ok(true)
    }
}

/// What a source holds is sound.
pub fn sources_are_sound<D: Source>(source: &D)
    ensures { IsSound (D.contents source.now) }
{
    let _next = source.next_blank();
}
