//! What holds of look-ups, and of members that are followed.
ghost use Rattle.sparql_solve.specs.Ask.{FollowedInParts, GroupIsFollowed};
ghost use Rattle.sparql_solve.specs.LookUps.{LookUpsGiveMerges, LookUpsGivePairs};

/// Under one left solution, the look-ups of a basic graph pattern in a graph give each pair of a
/// mapping and an assignment of the hidden variables that the definition counts, whose mapping is
/// compatible with the left solution, once, and merged with it. Without the hidden variables these
/// are the merges of the left solution with the pattern's solutions (SPARQL 1.1 Query, sections
/// 18.3.1 and 18.5).
pub fn look_ups_are_merges()
    ensures pairs { LookUpsGivePairs }
    ensures merges { LookUpsGiveMerges }
{}

/// What follows from some rows by the members of a group, and from others, follows from both; and
/// from the row that binds nothing the group's solutions do (SPARQL 1.1 Query, section 18.6).
pub fn rows_are_followed()
    ensures parts { FollowedInParts }
    ensures group { GroupIsFollowed }
{}
