//! Flags of columns. They take room where they are up alone.
ghost use Rattle.std.specs.Prelude.{◌≡◌, IfNone, IfOk, IfSome, [], false, length, true};
ghost use Rattle.sparql_solve.specs.Flags.{raised};

use rdf_terms::NoMemory;
use std::alloc::Global;
use std::marker::Model;

/// A flag for each of some columns.
#[derive(Drop)]
pub(crate) struct Flags {
    len: usize,
    /// Whether all of them are up.
    are_all: bool,
    /// The columns whose flag is up, each once; none where all are.
    columns: Vec<usize>,
}

impl Model for Flags {
    ghost use Rattle.std.specs.Prelude.{Bool, List};

    ghost Value = { List Bool };

    ghost use Rattle.sparql_solve.specs.Flags.{raised};

    ghost view = { λ f. raised f.are_all f.columns.items f.len };
}

impl Flags {
    /// So many flags, of which these columns' are up.
    pub(crate) fn of(len: usize, mut columns: Vec<usize>) -> Result<Flags, NoMemory>
        ensures { IfOk result (λ flags. flags ≡ raised false columns.items len) }
    {
        columns.sort()?;
        columns.dedup();
        Ok(Flags {
            len,
            are_all: false,
            columns,
        })
    }

    /// So many flags, all of them up.
    pub(crate) fn all(alloc: Global, len: usize) -> Flags
        ensures { result ≡ raised true [] len }
    {
        Flags {
            len,
            are_all: true,
            columns: Vec::new(alloc),
        }
    }

    /// How many there are.
    pub(crate) fn len(&self) -> usize
        ensures { result ≡ length self.now }
    {
        self.len
    }

    /// The columns whose flag is up; `None` where all are.
    pub(crate) fn columns(&self) -> Option<&[usize]>
        ensures some { IfSome result (λ columns.
            self.now ≡ raised false columns.now (length self.now)) }
        ensures all { IfNone result (self.now ≡ raised true [] (length self.now)) }
    {
        if self.are_all {
            None
        } else {
            Some(self.columns.as_slice())
        }
    }
}
