//! Statements written as they stand in their lines, with numbers for labels.
ghost use Rattle.std.specs.Prelude.{◌≡◌, ◌++◌, take, length, codes, OnOk, OnErr};
ghost use Rattle.rdf_lines.specs.Labels.{all_noted, labels_of, quad_in};
ghost use Rattle.rdf_lines.specs.QuadText.{quad_text};
ghost use Rattle.rdf_lines.specs.Inside.Slices.{AreSlices, graph_slice_text, labels_in_graph_slice, labels_in_slice, slice_text};
ghost use Rattle.rdf_lines.specs.declared.statement.Statement.{Statement};

use crate::labels::Labels;
use crate::slices::{StatementSlices, TermSlice};
use crate::write::append_term;
use rdf_terms::{NoMemory, Term, Text, or_truncate};
use std::alloc::Global;

// Appends a text and a space.
fn append_text(text: &str, out: &mut Vec<u8>) -> Result<(), NoMemory>
    ensures ok { OnOk result (out.new.items ≡ out.old.items ++ (text.now ++ codes " ")) }
    ensures kept { take (length out.old.items) out.new.items ≡ out.old.items }
{
    out.extend_from_slice(text.as_bytes())?;
    out.push(b' ')?;
    Ok(())
}

impl Labels {
    // Appends the canonical text of a term and a space. Its label is known from now on.
    fn append_slice(
        &mut self,
        alloc: Global,
        slice: &TermSlice<'_>,
        out: &mut Vec<u8>,
    ) -> Result<(), NoMemory>
        ensures labels { OnOk result (self.new ≡ all_noted self.old (labels_in_slice slice.now)) }
        ensures text { OnOk result (out.new.items
            ≡ out.old.items ++ (slice_text self.new slice.now ++ codes " ")) }
        ensures kept { take (length out.old.items) out.new.items ≡ out.old.items }
    {
        match slice {
            TermSlice::Label(label) => {
                let number = self.number(Text::new(alloc, label)?)?;
                append_term(&Term::Blank(number), out)
            }
            TermSlice::Whole(text) => append_text(text, out),
        }
    }

    fn append_graph_slice(
        &mut self,
        alloc: Global,
        graph: &Option<TermSlice<'_>>,
        out: &mut Vec<u8>,
    ) -> Result<(), NoMemory>
        ensures labels { OnOk result (self.new
            ≡ all_noted self.old (labels_in_graph_slice graph.now)) }
        ensures text { OnOk result (out.new.items
            ≡ out.old.items ++ graph_slice_text self.new graph.now) }
        ensures kept { take (length out.old.items) out.new.items ≡ out.old.items }
    {
        match graph {
            Some(slice) => self.append_slice(alloc, slice, out),
            None => Ok(()),
        }
    }

    fn append_slices(
        &mut self,
        alloc: Global,
        slices: &StatementSlices<'_>,
        out: &mut Vec<u8>,
    ) -> Result<(), NoMemory>
        ensures labels { OnOk result ((s : Statement) → AreSlices slices.now s → self.new
            ≡ all_noted self.old (labels_of s)) }
        ensures text { OnOk result ((s : Statement) → AreSlices slices.now s → out.new.items
            ≡ out.old.items ++ quad_text (quad_in self.new s)) }
        ensures kept { take (length out.old.items) out.new.items ≡ out.old.items }
    {
        self.append_slice(alloc, &slices.subject, out)?;
        append_text(slices.predicate, out)?;
        self.append_slice(alloc, &slices.object, out)?;
        self.append_graph_slice(alloc, &slices.graph, out)?;
        out.extend_from_slice(b".\n")?;
        Ok(())
    }

    /// Appends the canonical line of the statement that the slices are, with numbers for labels.
    ///
    /// # Errors
    /// [`NoMemory`] where memory is wanting; the vector is then as it was.
    pub fn write_slices(
        &mut self,
        alloc: Global,
        slices: &StatementSlices<'_>,
        out: &mut Vec<u8>,
    ) -> Result<(), NoMemory>
        ensures labels { OnOk result ((s : Statement) → AreSlices slices.now s → self.new
            ≡ all_noted self.old (labels_of s)) }
        ensures text { OnOk result ((s : Statement) → AreSlices slices.now s → out.new.items
            ≡ out.old.items ++ quad_text (quad_in self.new s)) }
        ensures err { OnErr result (out.new.items ≡ out.old.items) }
    {
        let before = out.len();
        or_truncate(self.append_slices(alloc, slices, out), out, before)
    }
}
