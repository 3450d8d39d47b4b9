//! What holds of the changes of states.
ghost use Rattle.rdf_dataset.specs.ChangeLaws.{DataLaws, ExchangeLaws, LookUpsMatch, NetLaws};

/// What changes make of a state, quad by quad. A net adds what its second state alone has and removes
/// what its first alone has, and turned it leads back. Data comes in with the names of its graphs, and
/// each of its blank nodes is a new one (SPARQL 1.1 Update, section 3.1.1). Where quads go and others
/// come in their place, one that does both is there behind it (section 3.1.3).
pub fn changes_are_exact()
    ensures nets { NetLaws }
    ensures data { DataLaws }
    ensures exchanges { ExchangeLaws }
{}

/// A look-up wants just the quads of its graph that have the terms of the places that are bound.
pub fn look_ups_match()
    ensures { LookUpsMatch }
{}
