//! Whether a query's prefixes are declared.
ghost use Rattle.std.specs.Prelude.{◌≡◌, IfOk, OnOk, map};
ghost use Rattle.std.specs.List.{list_all};
ghost use Rattle.sparql_grammar.specs.Proper.{holds};
ghost use Rattle.sparql_queries.specs.Addends.{known_addend};
ghost use Rattle.sparql_queries.specs.Known as spec;

use indexmap::IndexSet;
use rdf_grammar::Key;
use rdf_terms::NoMemory;
use sparql_drafts::{
    declare_prefix, knows_all_triples, knows_literal, knows_name, knows_var_or_iri,
};
use sparql_expressions::Expression;
use sparql_grammar::{Declaration, Group, Member, Query, QueryForm};
use sparql_trees::Sign;
use std::alloc::Global;

// Each of these answers whether the prefix of each name is declared.

#[cycle(known_expression)]
#[tactic(auto, using(crate::proofs::KnownLemmas::sum_tested))]
fn knows_expression<'a>(declared: &IndexSet<Key<'a>>, expression: &Expression<'a>) -> bool
    ensures { result ≡ spec.known_expression declared.now.keys expression.now }
{
    match expression {
        Expression::Variable(_) | Expression::Bound(_) => true,
        Expression::Or(operands) | Expression::And(operands) | Expression::Product(operands) => {
            knows_expressions(declared, operands.as_slice())
        }
        Expression::Compare(_, left, right) => {
            knows_expression(declared, left.get()) && knows_expression(declared, right.get())
        }
        Expression::SameTerm(left, right) => {
            knows_expression(declared, left.get()) && knows_expression(declared, right.get())
        }
        Expression::Sum(first, addends) => {
            knows_expression(declared, first.get()) && knows_addends(declared, addends.as_slice())
        }
        Expression::Not(operand) | Expression::Signed(_, operand) | Expression::Call(_, operand) =>
            knows_expression(declared, operand.get()),
        Expression::Name(name) => knows_name(declared, name),
        Expression::Literal(literal) => knows_literal(declared, literal),
    }
}

#[cycle(known_expression)]
fn knows_expressions<'a>(declared: &IndexSet<Key<'a>>, expressions: &[Expression<'a>]) -> bool
    ensures { let knows = spec.known_expression declared.now.keys in
        result ≡ list_all holds (map knows expressions.now) }
{
    for expression in expressions {
        if !knows_expression(declared, expression) {
            return false;
        }
    }
    true
}

#[cycle(known_expression)]
fn knows_addends<'a>(declared: &IndexSet<Key<'a>>, addends: &[(Sign, Expression<'a>)]) -> bool
    ensures { let knows = known_addend declared.now.keys in
        result ≡ list_all holds (map knows addends.now) }
{
    for addend in addends {
        if !knows_expression(declared, &addend.1) {
            return false;
        }
    }
    true
}

/// Whether each prefix of a group is one of these.
#[cycle(known)]
pub fn knows_group<'a>(declared: &IndexSet<Key<'a>>, group: &Group<'a>) -> bool
    ensures { result ≡ spec.known_group declared.now.keys group.now }
{
    knows_members(declared, group.members.as_slice())
        && knows_expressions(declared, group.filters.as_slice())
}

#[cycle(known)]
fn knows_members<'a>(declared: &IndexSet<Key<'a>>, members: &[Member<'a>]) -> bool
    ensures { let knows = spec.known_member declared.now.keys in
        result ≡ list_all holds (map knows members.now) }
{
    for member in members {
        if !knows_member(declared, member) {
            return false;
        }
    }
    true
}

#[cycle(known)]
fn knows_groups<'a>(declared: &IndexSet<Key<'a>>, groups: &[Group<'a>]) -> bool
    ensures { let knows = spec.known_group declared.now.keys in
        result ≡ list_all holds (map knows groups.now) }
{
    for group in groups {
        if !knows_group(declared, group) {
            return false;
        }
    }
    true
}

#[cycle(known)]
fn knows_member<'a>(declared: &IndexSet<Key<'a>>, member: &Member<'a>) -> bool
    ensures { result ≡ spec.known_member declared.now.keys member.now }
{
    match member {
        Member::Triples(triples) => knows_all_triples(declared, triples.as_slice()),
        Member::Union(groups) => knows_groups(declared, groups.as_slice()),
        Member::Optional(group) | Member::Minus(group) => knows_group(declared, group),
        Member::Graph(name, group) => {
            knows_var_or_iri(declared, name) && knows_group(declared, group)
        }
    }
}

fn knows_form<'a>(declared: &IndexSet<Key<'a>>, form: &QueryForm<'a>) -> bool
    ensures { result ≡ spec.known_form declared.now.keys form.now }
{
    match form {
        QueryForm::Select { group, .. } | QueryForm::Ask(group) => knows_group(declared, group),
    }
}

fn declare_all<'a>(
    declared: &mut IndexSet<Key<'a>>,
    declarations: &[Declaration<'a>],
) -> Result<(), NoMemory>
    ensures { let behind = spec.declared_by declared.old.keys declarations.now in
        OnOk result (declared.new.keys ≡ behind) }
{
    for declaration in declarations {
        declare_prefix(declared, declaration)?;
    }
    Ok(())
}

/// Whether each prefix of a query is declared in its prologue.
///
/// # Errors
/// [`NoMemory`] where memory is wanting.
pub fn knows_query(alloc: Global, query: &Query<'_>) -> Result<bool, NoMemory>
    ensures { IfOk result (λ knows. knows ≡ spec.known_query query.now) }
{
    let mut declared = IndexSet::new(alloc);
    declare_all(&mut declared, query.prologue.as_slice())?;
    Ok(knows_form(&declared, &query.form))
}
