//! The row above a group, under which its members are found (SPARQL 1.1 Query, section 18.6).
ghost use Rattle.std.specs.Prelude.{◌≡◌, IfOk};
ghost use Rattle.std.specs.Option.{option_copied};
ghost use Rattle.sparql_values.specs.Mapping.{compatible, empty_mapping, merge, value_in};
ghost use Rattle.sparql_solve.specs.Under.{binds_none};

use crate::mappings::Mapping;
use rdf_terms::{NoMemory, Term};
use sparql_values::SortedNames;
use std::alloc::Global;
use std::marker::Model;

/// The row above a group. Whether it binds anything is found once, and then asked for each member.
#[derive(Drop)]
pub(crate) struct Above {
    row: Mapping,
    is_unbound: bool,
}

impl Model for Above {
    ghost use Rattle.std.specs.Prelude.{◌≡◌, List, Option};
    ghost use Rattle.rdf_terms.specs.declared.term.Term.{Term};
    ghost use Rattle.sparql_solve.specs.Under.{binds_none};

    ghost Value = { List (Option Term) };

    ghost view = { λ a. a.row };

    ghost invariant = { λ a. a.is_unbound ≡ binds_none a.row };
}

impl Above {
    /// The row that binds nothing above all groups.
    pub(crate) fn nothing(alloc: Global, variables: &SortedNames) -> Result<Above, NoMemory>
        ensures { IfOk result (λ above. above ≡ empty_mapping variables.now) }
    {
        Ok(Above::of(Mapping::unbound(alloc, variables)?))
    }

    /// A row as the one above.
    pub(crate) fn of(row: Mapping) -> Above
        ensures { result ≡ row }
    {
        let is_unbound = row.is_unbound();
        Above { row, is_unbound }
    }

    pub(crate) fn row(&self) -> &Mapping
        ensures { result.now ≡ self.now }
    {
        &self.row
    }

    /// Whether it binds nothing.
    pub(crate) fn is_unbound(&self) -> bool
        ensures { result ≡ binds_none self.now }
    {
        self.is_unbound
    }

    pub(crate) fn is_compatible(&self, row: &Mapping) -> bool
        ensures { result ≡ compatible self.now row.now }
    {
        self.row.is_compatible(row)
    }

    pub(crate) fn merged(&self, alloc: Global, row: &Mapping) -> Result<Above, NoMemory>
        ensures { IfOk result (λ above. above ≡ merge self.now row.now) }
    {
        Ok(Above::of(self.row.merged(alloc, row)?))
    }

    /// What stands at the column, if there is one.
    pub(crate) fn value_in(&self, column: Option<usize>) -> Option<&Term>
        ensures { option_copied result ≡ value_in self.now column }
    {
        self.row.value_in(column)
    }
}
