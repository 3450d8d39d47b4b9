//! What holds of all sets of quads.
ghost use Rattle.std.specs.Prelude.{ℕ, Option};
ghost use Rattle.rdf_orders.specs.Quads.{matches};
ghost use Rattle.rdf_orders.specs.Runs.{StandsTogether};

/// For each choice of bound places the quads that match are one unbroken run of one of the orders.
pub fn matching_quads_stand_together()
    ensures { (graph : ℕ) (subject predicate object : Option ℕ) →
        StandsTogether (matches graph subject predicate object) }
{}
