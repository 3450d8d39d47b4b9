//! Expressions (SPARQL 1.1 Query, section 19.8), a reader for each production. What stands in
//! parentheses is a recursion, and operands between equal operators are a loop.

ghost use Rattle.std.specs.Prelude.{◌≡◌, ◌≢◌, ◌≤◌, ◌<◌, [], ◌∷◌, length, OnOk, MatchResult};
ghost use Rattle.rdf_grammar.specs.Readings.{Reads};
ghost use Rattle.sparql_expressions.specs.ExpressionReading as spec;

use crate::choice::{begins_addend, comparison, function, sign};
use crate::tree::{Expression, Literal};
use rdf_grammar::{GrammarFault, iri, literal};
use rdf_terms::Items;
use sparql_terminals::{Parser, Terminal};
use sparql_trees::{Boxed, Sign};

// The only one of these operands, or all of them where there are more.
fn alone<'a>(operands: Items<Expression<'a>>) -> Result<Expression<'a>, Items<Expression<'a>>>
    ensures { MatchResult result
        (λ only. operands.entry ≡ only ∷ [])
        (λ all. (all ≡ operands.entry) × (length all ≢ 1)) }
{
    let mut all = operands.into_vec();
    if all.len() != 1 {
        return Err(Items::from_vec(all));
    }
    match all.pop() {
        Some(only) => Ok(only),
        None => Err(Items::from_vec(all)),
    }
}

// "(" Var ")", behind BOUND
#[tactic(auto, unfolding(crate::specs::ExpressionReading::bound))]
fn bound<'a>(parser: &mut Parser<'_, 'a>) -> Result<Expression<'a>, GrammarFault>
    ensures reads { Reads (spec.bound parser.old) result parser.new }
    ensures shorter { OnOk result (length parser.new < length parser.old) }
{
    parser.expect(Terminal::Open)?;
    let variable = parser.value(Terminal::Variable)?;
    parser.expect(Terminal::Close)?;
    Ok(Expression::Bound(variable))
}

// ")", behind the operands of SAMETERM
#[tactic(auto, unfolding(crate::specs::ExpressionReading::same_term_of))]
fn same_term_of<'a>(
    parser: &mut Parser<'_, 'a>,
    left: Boxed<Expression<'a>>,
    right: Boxed<Expression<'a>>,
) -> Result<Expression<'a>, GrammarFault>
    ensures reads { Reads (spec.same_term_of left.entry right.entry parser.old) result parser.new }
    ensures shorter { OnOk result (length parser.new < length parser.old) }
{
    parser.expect(Terminal::Close)?;
    Ok(Expression::SameTerm(left, right))
}

// 132: NumericLiteralPositive, 133: NumericLiteralNegative
#[tactic(auto, unfolding(crate::specs::ExpressionReading::signed_number))]
fn signed_number<'a>(parser: &mut Parser<'_, 'a>) -> Result<Literal<'a>, GrammarFault>
    ensures reads { Reads (spec.signed_number parser.old) result parser.new }
    ensures shorter { OnOk result (length parser.new < length parser.old) }
{
    match parser.peek() {
        Some(Terminal::SignedInteger) => {
            Ok(Literal::Integer(parser.value(Terminal::SignedInteger)?))
        }
        Some(Terminal::SignedDecimal) => {
            Ok(Literal::Decimal(parser.value(Terminal::SignedDecimal)?))
        }
        Some(Terminal::SignedDouble) => {
            Ok(Literal::Double(parser.value(Terminal::SignedDouble)?))
        }
        _ => Err(GrammarFault::Syntax),
    }
}

// 110: Expression. The depth is how many parentheses may be open from the one around it on.
#[cycle(expression)]
#[tactic(auto, unfolding(crate::specs::ExpressionReading::expression))]
fn expression<'a>(parser: &mut Parser<'_, 'a>, depth: usize) -> Result<Expression<'a>, GrammarFault>
    ensures reads { Reads (spec.expression depth parser.old) result parser.new }
    ensures shorter { OnOk result (length parser.new < length parser.old) }
{
    if depth == 0 {
        return Err(GrammarFault::Syntax);
    }
    conditional_or(parser, depth - 1)
}

// 111: ConditionalOrExpression
#[cycle(expression)]
#[tactic(auto, unfolding(crate::specs::ExpressionReading::conditional_or))]
fn conditional_or<'a>(
    parser: &mut Parser<'_, 'a>,
    depth: usize,
) -> Result<Expression<'a>, GrammarFault>
    ensures reads { Reads
        (spec.conditional_or (spec.expression depth) parser.old) result parser.new }
    ensures shorter { OnOk result (length parser.new < length parser.old) }
{
    let mut operands = Items::new(parser.alloc());
    operands.push(conditional_and(parser, depth)?)?;
    while parser.eat(Terminal::Or) {
        operands.push(conditional_and(parser, depth)?)?;
    }
    match alone(operands) {
        Ok(only) => Ok(only),
        Err(operands) => Ok(Expression::Or(operands)),
    }
}

// 112: ConditionalAndExpression
#[cycle(expression)]
#[tactic(auto, unfolding(crate::specs::ExpressionReading::conditional_and))]
fn conditional_and<'a>(
    parser: &mut Parser<'_, 'a>,
    depth: usize,
) -> Result<Expression<'a>, GrammarFault>
    ensures reads { Reads
        (spec.conditional_and (spec.expression depth) parser.old) result parser.new }
    ensures shorter { OnOk result (length parser.new < length parser.old) }
{
    let mut operands = Items::new(parser.alloc());
    operands.push(relational(parser, depth)?)?;
    while parser.eat(Terminal::And) {
        operands.push(relational(parser, depth)?)?;
    }
    match alone(operands) {
        Ok(only) => Ok(only),
        Err(operands) => Ok(Expression::And(operands)),
    }
}

// 114: RelationalExpression
#[cycle(expression)]
#[tactic(auto, unfolding(crate::specs::ExpressionReading::relational, rdf_grammar::specs::Readings::any))]
fn relational<'a>(parser: &mut Parser<'_, 'a>, depth: usize) -> Result<Expression<'a>, GrammarFault>
    ensures reads { Reads
        (spec.relational (spec.expression depth) parser.old) result parser.new }
    ensures shorter { OnOk result (length parser.new < length parser.old) }
{
    let left = additive(parser, depth)?;
    let Some(operator) = comparison(parser.peek()) else {
        return Ok(left);
    };
    parser.pass();
    let left = Boxed::new(parser.alloc(), left)?;
    let right = additive(parser, depth)?;
    let right = Boxed::new(parser.alloc(), right)?;
    Ok(Expression::Compare(operator, left, right))
}

// 116: AdditiveExpression
#[cycle(expression)]
#[tactic(auto, unfolding(crate::specs::ExpressionReading::additive))]
fn additive<'a>(parser: &mut Parser<'_, 'a>, depth: usize) -> Result<Expression<'a>, GrammarFault>
    ensures reads { Reads
        (spec.additive (spec.expression depth) parser.old) result parser.new }
    ensures shorter { OnOk result (length parser.new < length parser.old) }
{
    let first = multiplicative(parser, depth)?;
    let mut others = Items::new(parser.alloc());
    while begins_addend(parser.peek()) {
        others.push(addend(parser, depth)?)?;
    }
    if others.is_empty() {
        return Ok(first);
    }
    Ok(Expression::Sum(Boxed::new(parser.alloc(), first)?, others))
}

// What is added or taken: a product behind its sign, or a number with its sign, and its factors.
#[cycle(expression)]
#[tactic(auto, unfolding(crate::specs::ExpressionReading::addend, crate::specs::ExpressionReading::signed_product, rdf_grammar::specs::Readings::any))]
fn addend<'a>(
    parser: &mut Parser<'_, 'a>,
    depth: usize,
) -> Result<(Sign, Expression<'a>), GrammarFault>
    ensures reads { Reads (spec.addend (spec.expression depth) parser.old) result parser.new }
    ensures shorter { OnOk result (length parser.new < length parser.old) }
{
    match sign(parser.peek()) {
        Some(sign) => {
            parser.pass();
            Ok((sign, multiplicative(parser, depth)?))
        }
        None => {
            let number = signed_number(parser)?;
            Ok((
                Sign::Plus,
                product(parser, depth, Expression::Literal(number))?,
            ))
        }
    }
}

// 117: MultiplicativeExpression
#[cycle(expression)]
#[tactic(auto, unfolding(crate::specs::ExpressionReading::multiplicative))]
fn multiplicative<'a>(
    parser: &mut Parser<'_, 'a>,
    depth: usize,
) -> Result<Expression<'a>, GrammarFault>
    ensures reads { Reads
        (spec.multiplicative (spec.expression depth) parser.old) result parser.new }
    ensures shorter { OnOk result (length parser.new < length parser.old) }
{
    let first = unary(parser, depth)?;
    product(parser, depth, first)
}

// ( "*" UnaryExpression )*, behind the first factor
#[cycle(expression)]
#[tactic(auto, unfolding(crate::specs::ExpressionReading::product))]
fn product<'a>(
    parser: &mut Parser<'_, 'a>,
    depth: usize,
    first: Expression<'a>,
) -> Result<Expression<'a>, GrammarFault>
    ensures reads { Reads
        (spec.product (spec.expression depth) first.entry parser.old) result parser.new }
    ensures shorter { OnOk result (length parser.new ≤ length parser.old) }
{
    let mut factors = Items::new(parser.alloc());
    factors.push(first)?;
    while parser.eat(Terminal::Star) {
        factors.push(unary(parser, depth)?)?;
    }
    match alone(factors) {
        Ok(only) => Ok(only),
        Err(factors) => Ok(Expression::Product(factors)),
    }
}

// 118: UnaryExpression
#[cycle(expression)]
#[tactic(auto, unfolding(crate::specs::ExpressionReading::unary, rdf_grammar::specs::Readings::any))]
fn unary<'a>(parser: &mut Parser<'_, 'a>, depth: usize) -> Result<Expression<'a>, GrammarFault>
    ensures reads { Reads (spec.unary (spec.expression depth) parser.old) result parser.new }
    ensures shorter { OnOk result (length parser.new < length parser.old) }
{
    match parser.peek() {
        Some(Terminal::Not) => {
            parser.pass();
            let operand = primary(parser, depth)?;
            Ok(Expression::Not(Boxed::new(parser.alloc(), operand)?))
        }
        Some(Terminal::Plus) => {
            parser.pass();
            let operand = primary(parser, depth)?;
            Ok(Expression::Signed(Sign::Plus, Boxed::new(parser.alloc(), operand)?))
        }
        Some(Terminal::Minus) => {
            parser.pass();
            let operand = primary(parser, depth)?;
            Ok(Expression::Signed(Sign::Minus, Boxed::new(parser.alloc(), operand)?))
        }
        _ => primary(parser, depth),
    }
}

// 119: PrimaryExpression
#[cycle(expression)]
#[tactic(auto, unfolding(crate::specs::ExpressionReading::primary))]
fn primary<'a>(parser: &mut Parser<'_, 'a>, depth: usize) -> Result<Expression<'a>, GrammarFault>
    ensures reads { Reads (spec.primary (spec.expression depth) parser.old) result parser.new }
    ensures shorter { OnOk result (length parser.new < length parser.old) }
{
    match parser.peek() {
        Some(Terminal::Open) => bracketted(parser, depth),
        Some(Terminal::Variable) => Ok(Expression::Variable(parser.value(Terminal::Variable)?)),
        Some(Terminal::Iri | Terminal::Pname) => Ok(Expression::Name(iri(parser)?)),
        Some(
            Terminal::Text
            | Terminal::Integer
            | Terminal::Decimal
            | Terminal::Double
            | Terminal::SignedInteger
            | Terminal::SignedDecimal
            | Terminal::SignedDouble
            | Terminal::True
            | Terminal::False,
        ) => Ok(Expression::Literal(literal(parser)?)),
        _ => built_in_call(parser, depth),
    }
}

/// A call of a function of SPARQL's own (121: BuiltInCall).
///
/// # Errors
/// `Syntax` where none comes next.
#[cycle(expression)]
#[tactic(auto, unfolding(crate::specs::ExpressionReading::built_in_call, rdf_grammar::specs::Readings::any))]
pub fn built_in_call<'a>(
    parser: &mut Parser<'_, 'a>,
    depth: usize,
) -> Result<Expression<'a>, GrammarFault>
    ensures reads { Reads
        (spec.built_in_call (spec.expression depth) parser.old) result parser.new }
    ensures shorter { OnOk result (length parser.new < length parser.old) }
{
    match parser.peek() {
        Some(Terminal::Bound) => {
            parser.pass();
            bound(parser)
        }
        Some(Terminal::SameTerm) => {
            parser.pass();
            same_term(parser, depth)
        }
        word => {
            let Some(function) = function(word) else {
                return Err(GrammarFault::Syntax);
            };
            parser.pass();
            let operand = bracketted(parser, depth)?;
            let operand = Boxed::new(parser.alloc(), operand)?;
            Ok(Expression::Call(function, operand))
        }
    }
}

// "(" Expression "," Expression ")", behind SAMETERM
#[cycle(expression)]
#[tactic(auto, unfolding(crate::specs::ExpressionReading::same_term))]
fn same_term<'a>(parser: &mut Parser<'_, 'a>, depth: usize) -> Result<Expression<'a>, GrammarFault>
    ensures reads { Reads (spec.same_term (spec.expression depth) parser.old) result parser.new }
    ensures shorter { OnOk result (length parser.new < length parser.old) }
{
    parser.expect(Terminal::Open)?;
    let left = expression(parser, depth)?;
    let left = Boxed::new(parser.alloc(), left)?;
    second_term(parser, depth, left)
}

// "," Expression ")", behind the first operand of SAMETERM
#[cycle(expression)]
#[tactic(auto, unfolding(crate::specs::ExpressionReading::second_term))]
fn second_term<'a>(
    parser: &mut Parser<'_, 'a>,
    depth: usize,
    left: Boxed<Expression<'a>>,
) -> Result<Expression<'a>, GrammarFault>
    ensures reads { Reads
        (spec.second_term (spec.expression depth) left.entry parser.old) result parser.new }
    ensures shorter { OnOk result (length parser.new < length parser.old) }
{
    parser.expect(Terminal::Comma)?;
    let right = expression(parser, depth)?;
    let right = Boxed::new(parser.alloc(), right)?;
    same_term_of(parser, left, right)
}

/// An expression in parentheses (120: BrackettedExpression).
///
/// # Errors
/// `Syntax` where none comes next.
#[cycle(expression)]
#[tactic(auto, unfolding(crate::specs::ExpressionReading::bracketted))]
pub fn bracketted<'a>(
    parser: &mut Parser<'_, 'a>,
    depth: usize,
) -> Result<Expression<'a>, GrammarFault>
    ensures reads { Reads (spec.bracketted (spec.expression depth) parser.old) result parser.new }
    ensures shorter { OnOk result (length parser.new < length parser.old) }
{
    parser.expect(Terminal::Open)?;
    let inner = expression(parser, depth)?;
    parser.expect(Terminal::Close)?;
    Ok(inner)
}
