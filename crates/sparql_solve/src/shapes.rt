//! Whether patterns read the active graph, and whether they hold MINUS (SPARQL 1.1 Query, sections
//! 13.3 and 8.2).
ghost use Rattle.std.specs.Prelude.{◌≡◌, ◌||◌, false, true, map, ◌≤◌, IsTrue, drop, length};
ghost use Rattle.sparql_algebra.specs.Algebra.{element, translation, union_of};
ghost use Rattle.sparql_algebra.specs.Under.{is_positive, reads, stands_any};
ghost use Rattle.sparql_solve.specs.Members.{part};
ghost use Rattle.sparql_trees.specs.Visible.{joined, member_names, names_where};
ghost use Rattle.std.specs.List.{list_all};
ghost use Rattle.sparql_solve.specs.Under.{is_apart};

use crate::members::is_joined;
use sparql_trees::{BasicGraphPattern, Member, Pattern};

// Whether there are triple patterns, or hidden variables of some.
fn has_triples(basic: &BasicGraphPattern) -> bool
    ensures { result ≡ false →
        (stands_any basic.now.triples || is_positive basic.now.hidden) ≡ false }
{
    if basic.hidden != 0 {
        return true;
    }
    !basic.triples.is_empty()
}

// Whether one of the groups reads the active graph.
#[cycle(reads)]
fn groups_read(groups: &[Pattern]) -> bool
    ensures { result ≡ false → reads (union_of (map translation groups.now)) ≡ false }
{
    for group in groups {
        if group_reads(group) {
            return true;
        }
    }
    false
}

/// Whether the group has triple patterns outside GRAPH.
#[cycle(reads)]
pub(crate) fn group_reads(pattern: &Pattern) -> bool
    ensures { result ≡ false → reads (translation pattern.now) ≡ false }
{
    let members = pattern.members.as_slice();
    for member in members {
        if reads(member) {
            return true;
        }
    }
    false
}

// Whether the member is joined, and has no triple patterns outside GRAPH.
fn is_apart(member: &Member) -> bool
    ensures { IsTrue result → is_apart (element member.now) ≡ true }
{
    is_joined(member) && !reads(member)
}

/// How many members stand before those at the end that are joined and have no triple patterns
/// outside GRAPH.
pub(crate) fn before_apart(members: &[Member]) -> usize
    ensures within { result ≤ length members.now }
    ensures apart { list_all (λ m. is_apart (element m)) (drop result members.now) ≡ true }
{
    let mut first = members.len();
    while first > 0 {
        if !is_apart(&members[first - 1]) {
            return first;
        }
        first -= 1;
    }
    0
}

#[cycle(reads)]
fn reads(member: &Member) -> bool
    ensures { result ≡ false → reads (part (element member.now)) ≡ false }
{
    match member {
        Member::Basic(basic) => has_triples(basic),
        Member::Union(groups) => groups_read(groups.as_slice()),
        Member::Optional(pattern) => group_reads(pattern),
        Member::Graph(_, _) => false,
        Member::Minus(pattern) => group_reads(pattern),
    }
}

// Whether MINUS stands in one of the groups.
#[cycle(minus)]
fn one_has_minus(groups: &[Pattern]) -> bool
    ensures { result ≡ false → joined (map (names_where true) groups.now)
        ≡ joined (map (names_where false) groups.now) }
{
    for group in groups {
        if has_minus(group) {
            return true;
        }
    }
    false
}

/// Whether MINUS stands in the group, at any depth: where it doesn't, each variable that the group
/// names is visible.
#[cycle(minus)]
pub(crate) fn has_minus(pattern: &Pattern) -> bool
    ensures { result ≡ false → names_where true pattern.now ≡ names_where false pattern.now }
{
    let members = pattern.members.as_slice();
    for member in members {
        if holds_minus(member) {
            return true;
        }
    }
    false
}

#[cycle(minus)]
fn holds_minus(member: &Member) -> bool
    ensures { result ≡ false → member_names true member.now ≡ member_names false member.now }
{
    match member {
        Member::Basic(_) => false,
        Member::Union(groups) => one_has_minus(groups.as_slice()),
        Member::Optional(pattern) | Member::Graph(_, pattern) => has_minus(pattern),
        Member::Minus(_) => true,
    }
}
