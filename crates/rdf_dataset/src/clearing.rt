//! Graphs that are emptied. Of one that was emptied of more than a few quads, and of all where the named ones were emptied
//! together, only what came since is walked.
ghost use Rattle.std.specs.Prelude.{◌≡◌, None, OnOk};
ghost use Rattle.std.specs.FinSet as set;
ghost use Rattle.rdf_terms.specs.declared.quad.GraphName.TheVariants.{Default};
ghost use Rattle.rdf_terms.specs.Lists.{ListsOnce};
ghost use Rattle.rdf_dataset.specs.State.{matches, without_graph, without_named, without_names};
ghost use Rattle.rdf_dataset.specs.Staging.{staged};
ghost use Rattle.rdf_dataset.specs.Inside.Emptied.{less};

use crate::source::Source;
use crate::staged::Staged;
use rdf_sets::Tree;
use rdf_store::Store;
use rdf_terms::{GraphName, NoMemory, Quad};

// How many quads are soon walked: a graph that is emptied of no more has no part of its own.
const FEW: usize = 100;

impl<'a, D: Source> Staged<'a, D> {
    // Takes the quads out.
    fn remove_each(&mut self, quads: &[Quad]) -> Result<(), NoMemory>
        ensures ok { OnOk result (self.new ≡ staged self.old (less self.old.now quads.now)) }
        ensures beneath { self.new.under ≡ self.old.under }
    {
        for quad in quads {
            self.remove(quad)?;
        }
        Ok(())
    }

    // Takes the quads of the named graphs out.
    fn empty_named(&mut self) -> Result<(), NoMemory>
        ensures ok { OnOk result (self.new ≡ staged self.old (without_named self.old.now)) }
        ensures beneath { self.new.under ≡ self.old.under }
    {
        let mut found = Vec::new(self.alloc);
        self.named_quads(&mut found)?;
        self.remove_each(found.as_slice())
    }

    // Takes the names of graphs out, none of which has a quad.
    fn drop_names(&mut self) -> Result<(), NoMemory>
        requires { without_named self.old.now ≡ self.old.now }
        ensures ok { OnOk result (self.new ≡ staged self.old (without_names self.old.now)) }
        ensures beneath { self.new.under ≡ self.old.under }
    {
        let mut named = Vec::new(self.alloc);
        self.names(&mut named)?;
        for name in named {
            self.drop_name(&name)?;
        }
        Ok(())
    }

    // Takes the quads of a graph out, and answers how many were looked at.
    fn empty(&mut self, graph: &GraphName) -> Result<usize, NoMemory>
        ensures ok { OnOk result (self.new
            ≡ staged self.old (without_graph self.old.now graph.now)) }
        ensures beneath { self.new.under ≡ self.old.under }
    {
        let mut found = Vec::new(self.alloc);
        let looked = self.matches(graph, None, None, None, &mut found)?;
        self.remove_each(found.as_slice())?;
        Ok(looked)
    }

    // Finds a graph, which has these quads, in a part of its own from now on.
    pub(crate) fn hold(&mut self, graph: &GraphName, quads: &[Quad])
        requires { ListsOnce (set.retain self.old.now.quads (matches graph.now None None None))
            quads.now }
        ensures { self.new ≡ self.old }
    {
        self.emptied.hold(self.alloc, graph, quads);
    }

    /// Takes the quads of a graph out. Its name stays.
    ///
    /// # Errors
    /// [`NoMemory`] where memory is wanting: some of the quads have gone then.
    pub fn clear_graph(&mut self, graph: &GraphName) -> Result<(), NoMemory>
        ensures ok { OnOk result (self.new ≡ staged self.old (without_graph self.old.now graph.now)) }
        ensures beneath { self.new.under ≡ self.old.under }
    {
        if self.empty(graph)? > FEW {
            self.hold(graph, &[]);
        }
        Ok(())
    }

    /// Takes the quads of the default graph out. From then on only those that have come since are looked at there.
    ///
    /// # Errors
    /// [`NoMemory`] where memory is wanting: some of the quads have gone then.
    pub fn clear_default(&mut self) -> Result<(), NoMemory>
        ensures ok { OnOk result (self.new
            ≡ staged self.old (without_graph self.old.now Default)) }
        ensures beneath { self.new.under ≡ self.old.under }
    {
        self.empty(&GraphName::Default)?;
        self.hold(&GraphName::Default, &[]);
        Ok(())
    }

    /// Takes the quads of all named graphs out. Their names stay. From then on only quads that have come since are looked
    /// at there.
    ///
    /// # Errors
    /// [`NoMemory`] where memory is wanting: some of the quads have gone then.
    pub fn clear_named(&mut self) -> Result<(), NoMemory>
        ensures ok { OnOk result (self.new ≡ staged self.old (without_named self.old.now)) }
        ensures beneath { self.new.under ≡ self.old.under }
    {
        self.empty_named()?;
        self.emptied.named = Some(Store::new(self.alloc));
        Ok(())
    }

    /// Takes the quads of all named graphs out, and their names. From then on only what has come since is looked at.
    ///
    /// # Errors
    /// [`NoMemory`] where memory is wanting: some of the quads and names have gone then.
    pub fn drop_named(&mut self) -> Result<(), NoMemory>
        ensures ok { OnOk result (self.new ≡ staged self.old (without_names self.old.now)) }
        ensures beneath { self.new.under ≡ self.old.under }
    {
        self.clear_named()?;
        self.drop_names()?;
        self.emptied.names = Some(Tree::new(self.alloc));
        Ok(())
    }
}
