//! Expressions: what a FILTER asks of a solution (SPARQL 1.1 Query, section 17).

use crate::boxed::Boxed;
use rdf_terms::{Items, Term, Text};

/// An operator that compares two values (section 17.3).
#[derive(Clone, Copy, Debug, PartialEq, Eq)]
pub enum Comparison {
    /// `=`
    Equal,
    /// `!=`
    NotEqual,
    /// `<`
    Less,
    /// `>`
    Greater,
    /// `<=`
    LessOrEqual,
    /// `>=`
    GreaterOrEqual,
}

/// `+` or `-`.
#[derive(Clone, Copy, Debug, PartialEq, Eq)]
pub enum Sign {
    Plus,
    Minus,
}

/// A function of one value (section 17.4).
#[derive(Clone, Copy, Debug, PartialEq, Eq)]
pub enum Function {
    /// ISIRI and ISURI (section 17.4.2.1).
    IsIri,
    /// ISBLANK (section 17.4.2.2).
    IsBlank,
    /// ISLITERAL (section 17.4.2.3).
    IsLiteral,
    /// STR (section 17.4.2.5).
    Str,
    /// LANG (section 17.4.2.6).
    Lang,
    /// DATATYPE (section 17.4.2.7).
    Datatype,
}

/// An expression. Operands between equal operators are one list, which groups from the left.
#[derive(Drop)]
pub enum Expression {
    /// `||` between these (section 17.4.1.5).
    Or(Items<Expression>),
    /// `&&` between these (section 17.4.1.6).
    And(Items<Expression>),
    /// Two values compared.
    Compare(Comparison, Boxed<Expression>, Boxed<Expression>),
    /// A value, and those that are added to it or taken from it.
    Sum(Boxed<Expression>, Items<(Sign, Expression)>),
    /// `*` between these.
    Product(Items<Expression>),
    /// `!` (section 17.3).
    Not(Boxed<Expression>),
    /// `+` or `-` before a value.
    Signed(Sign, Boxed<Expression>),
    /// The variable of this name, which stands without its `?` or `$`.
    Variable(Text),
    /// An IRI or a literal.
    Term(Term),
    /// BOUND of a variable (section 17.4.1.1).
    Bound(Text),
    /// SAMETERM (section 17.4.1.8).
    SameTerm(Boxed<Expression>, Boxed<Expression>),
    /// A function's call.
    Call(Function, Boxed<Expression>),
}
