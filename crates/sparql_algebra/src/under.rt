//! Patterns under the mappings that they are joined with.
ghost use Rattle.sparql_algebra.specs.Listing.{Listing};
ghost use Rattle.sparql_algebra.specs.Under as u;
ghost use Rattle.sparql_values.specs.Mapping.{Variables};

/// What is joined with a solution, or stands optionally beside it, is asked for under it alone: of
/// a pattern's solutions those that are compatible with it. Under the mapping that binds nothing
/// these are all of them. What takes a solution away is asked for under that solution too.
pub fn joined_under_the_left()
    ensures joins { (vs : Variables) (d : Listing) → u.JoinsUnder vs d }
    ensures left_joins { (vs : Variables) (d : Listing) → u.LeftJoinsUnder vs d }
    ensures all { (vs : Variables) (d : Listing) → u.AllUnderNothing vs d }
    ensures minus { u.MinusUnder }
{}

/// Each operator under a mapping is made of its parts under mappings (SPARQL 1.1 Query, section
/// 18.5): the right side of Join under what the mapping and the left solution have, that of
/// LeftJoin and of Minus under the left solution alone, Filter's condition asked of the pattern's
/// own solution, and GRAPH in the graphs whose name agrees with the mapping.
pub fn operators_under_a_mapping()
    ensures basic { (vs : Variables) (d : Listing) → u.BasicUnder vs d }
    ensures union { (vs : Variables) (d : Listing) → u.UnionUnder vs d }
    ensures join { (vs : Variables) (d : Listing) → u.JoinUnder vs d }
    ensures left_join { (vs : Variables) (d : Listing) → u.LeftJoinUnder vs d }
    ensures minus { (vs : Variables) (d : Listing) → u.MinusUnderLeft vs d }
    ensures filter { (vs : Variables) (d : Listing) → u.FilterUnder vs d }
    ensures named { (vs : Variables) (d : Listing) → u.NamedUnder vs d }
    ensures variable { (vs : Variables) (d : Listing) → u.VariableUnder vs d }
{}

/// Where the right side was found alone, what is compatible with the mapping is kept of the join,
/// or of what Minus leaves.
pub fn sides_found_alone()
    ensures join { (vs : Variables) (d : Listing) → u.JoinAlone vs d }
    ensures left_join { (vs : Variables) (d : Listing) → u.LeftJoinAlone vs d }
    ensures minus { (vs : Variables) (d : Listing) → u.MinusAlone vs d }
{}

/// GRAPH is the same in every active graph, and so is a pattern that has no triple patterns outside
/// it. A pattern under mappings that agree on the columns that it may bind is the same.
pub fn patterns_see_their_own()
    ensures active { (vs : Variables) (d : Listing) → u.GraphSetsActive vs d }
    ensures unread { (vs : Variables) (d : Listing) → u.ActiveUnread vs d }
    ensures seen { (vs : Variables) (d : Listing) → u.UnderSeen vs d }
{}
