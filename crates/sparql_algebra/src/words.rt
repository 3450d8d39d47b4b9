//! The translation of groups and the operators in the standard's words.
ghost use Rattle.sparql_algebra.specs.Listing.{Listing};
ghost use Rattle.sparql_algebra.specs.Words as words;
ghost use Rattle.sparql_values.specs.Mapping.{Variables};

/// A group is translated element by element from the empty pattern on: triples, groups, unions and
/// GRAPH are joined with what stands before them, OPTIONAL is a LeftJoin whose condition are the
/// FILTERs of its own group, and MINUS a Minus. The group's FILTERs are asked of all of it (SPARQL
/// 1.1 Query, sections 18.2.2.2 to 18.2.2.7).
pub fn groups_are_translated()
    ensures begins { words.GroupBegins }
    ensures triples { words.TriplesFollow }
    ensures group { words.GroupFollows }
    ensures union { words.UnionFollows }
    ensures grows { words.UnionGrows }
    ensures optional { words.OptionalFollows }
    ensures named { words.GraphFollows }
    ensures minus { words.MinusFollows }
    ensures filters { words.FiltersEnd }
{}

/// Filter keeps a mapping where its expression is true of it. Minus keeps one where each mapping on
/// the right is not compatible with it, or has no variable in common with it (section 18.5).
pub fn mappings_are_kept()
    ensures filter { (vs : Variables) (d : Listing) → words.FilterKeepsTrue vs d }
    ensures minus { (vs : Variables) (d : Listing) → words.MinusKeeps vs d }
{}
