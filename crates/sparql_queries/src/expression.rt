//! What expressions say (SPARQL 1.1 Query, sections 4.1 and 17).
ghost use Rattle.std.specs.Prelude.{◌≡◌, IsTrue, map, option_map};
ghost use Rattle.std.specs.List.{list_all};
ghost use Rattle.rdf_grammar.specs.Literals.{literal_of, proper_literal};
ghost use Rattle.rdf_grammar.specs.Prologue.{iri_of, is_proper};
ghost use Rattle.sparql_drafts.specs.Kept.{Tells};
ghost use Rattle.sparql_expressions.specs.ProperExpressions as proper;
ghost use Rattle.sparql_grammar.specs.Proper.{holds};
ghost use Rattle.sparql_queries.specs.Addends as addends;
ghost use Rattle.sparql_queries.specs.Expressions as spec;

use crate::basic::variable_name;
use rdf_grammar::{Literal, Name};
use rdf_terms::{Items, Term};
use sparql_drafts::{DraftFault, Scope};
use sparql_expressions::Expression as Written;
use sparql_trees::{Boxed, Expression, Sign};
use std::alloc::Global;

fn name<'a>(scope: &mut Scope<'a>, written: &Name<'a>) -> Result<Expression, DraftFault>
    requires proper { IsTrue (is_proper written.now) }
    ensures tells { let found = iri_of written.now scope.old.prologue in
        Tells (option_map (λ iri. Expression.Term (Term.Iri iri)) found) result }
    ensures prologue { scope.new.prologue ≡ scope.old.prologue }
{
    Ok(Expression::Term(Term::Iri(scope.iri(written)?)))
}

fn literal<'a>(scope: &mut Scope<'a>, written: &Literal<'a>) -> Result<Expression, DraftFault>
    requires proper { IsTrue (proper_literal written.now) }
    ensures tells { let found = literal_of written.now scope.old.prologue in
        Tells (option_map (λ parts. Expression.Term (Term.Literal parts)) found) result }
    ensures prologue { scope.new.prologue ≡ scope.old.prologue }
{
    Ok(Expression::Term(Term::Literal(scope.literal(written)?)))
}

/// What an expression says.
#[cycle(expression)]
pub(crate) fn expression<'a>(
    alloc: Global,
    scope: &mut Scope<'a>,
    written: &Written<'a>,
) -> Result<Expression, DraftFault>
    requires proper { IsTrue (proper.proper_expression written.now) }
    ensures tells { Tells (spec.expression_in scope.old.prologue written.now) result }
    ensures prologue { scope.new.prologue ≡ scope.old.prologue }
{
    match written {
        Written::Or(operands) => {
            let said = expressions(alloc, scope, operands.as_slice())?;
            Ok(Expression::Or(said))
        }
        Written::And(operands) => {
            let said = expressions(alloc, scope, operands.as_slice())?;
            Ok(Expression::And(said))
        }
        Written::Compare(operator, left, right) => {
            let left = boxed(alloc, scope, left)?;
            let right = boxed(alloc, scope, right)?;
            Ok(Expression::Compare(*operator, left, right))
        }
        Written::Sum(first, others) => {
            let left = boxed(alloc, scope, first)?;
            let right = addends(alloc, scope, others.as_slice())?;
            Ok(Expression::Sum(left, right))
        }
        Written::Product(operands) => {
            let said = expressions(alloc, scope, operands.as_slice())?;
            Ok(Expression::Product(said))
        }
        Written::Not(operand) => {
            let said = boxed(alloc, scope, operand)?;
            Ok(Expression::Not(said))
        }
        Written::Signed(sign, operand) => {
            let said = boxed(alloc, scope, operand)?;
            Ok(Expression::Signed(*sign, said))
        }
        Written::Variable(variable) => Ok(Expression::Variable(variable_name(alloc, variable)?)),
        Written::Name(written) => name(scope, written),
        Written::Literal(written) => literal(scope, written),
        Written::Bound(variable) => Ok(Expression::Bound(variable_name(alloc, variable)?)),
        Written::SameTerm(left, right) => {
            let left = boxed(alloc, scope, left)?;
            let right = boxed(alloc, scope, right)?;
            Ok(Expression::SameTerm(left, right))
        }
        Written::Call(function, operand) => {
            let said = boxed(alloc, scope, operand)?;
            Ok(Expression::Call(*function, said))
        }
    }
}

#[cycle(expression)]
fn boxed<'a>(
    alloc: Global,
    scope: &mut Scope<'a>,
    written: &Boxed<Written<'a>>,
) -> Result<Boxed<Expression>, DraftFault>
    requires proper { IsTrue (proper.proper_expression written.now) }
    ensures tells { Tells (spec.expression_in scope.old.prologue written.now) result }
    ensures prologue { scope.new.prologue ≡ scope.old.prologue }
{
    let said = expression(alloc, scope, written.get())?;
    Ok(Boxed::new(alloc, said)?)
}

/// What each of these expressions says.
#[cycle(expression)]
pub(crate) fn expressions<'a>(
    alloc: Global,
    scope: &mut Scope<'a>,
    written: &[Written<'a>],
) -> Result<Items<Expression>, DraftFault>
    requires proper { IsTrue (list_all holds (map proper.proper_expression written.now)) }
    ensures tells { let says = spec.expression_in scope.old.prologue in
        Tells (spec.all (map says written.now)) result }
    ensures prologue { scope.new.prologue ≡ scope.old.prologue }
{
    let mut made = Items::new(alloc);
    for one in written {
        let said = expression(alloc, scope, one)?;
        made.push(said)?;
    }
    Ok(made)
}

#[cycle(expression)]
fn addends<'a>(
    alloc: Global,
    scope: &mut Scope<'a>,
    written: &[(Sign, Written<'a>)],
) -> Result<Items<(Sign, Expression)>, DraftFault>
    requires proper { IsTrue (addends.each_value proper.proper_expression written.now) }
    ensures tells { let says = addends.addend_in scope.old.prologue in
        Tells (spec.all (map says written.now)) result }
    ensures prologue { scope.new.prologue ≡ scope.old.prologue }
{
    let mut made = Items::new(alloc);
    for one in written {
        let said = expression(alloc, scope, &one.1)?;
        made.push((one.0, said))?;
    }
    Ok(made)
}
