//! The tree of an expression, whose names are as written (SPARQL 1.1 Query, section 19.8).

pub use rdf_grammar::{Literal, Name};
use rdf_terms::Items;
use rdf_tokens::Slice;
use sparql_trees::Boxed;
pub use sparql_trees::{Comparison, Function, Sign};

/// An expression (110: Expression). Operands between equal operators are one list, which groups from
/// the left.
#[derive(Drop)]
pub enum Expression<'a> {
    /// `||` between these (111: ConditionalOrExpression).
    Or(Items<Expression<'a>>),
    /// `&&` between these (112: ConditionalAndExpression).
    And(Items<Expression<'a>>),
    /// Two values compared (114: RelationalExpression).
    Compare(Comparison, Boxed<Expression<'a>>, Boxed<Expression<'a>>),
    /// A value, and those that are added to it or taken from it (116: AdditiveExpression). Behind it
    /// a number with a sign of its own is added as it stands.
    Sum(Boxed<Expression<'a>>, Items<(Sign, Expression<'a>)>),
    /// `*` between these (117: MultiplicativeExpression).
    Product(Items<Expression<'a>>),
    /// `!` before a value (118: UnaryExpression).
    Not(Boxed<Expression<'a>>),
    /// `+` or `-` before a value (118: UnaryExpression).
    Signed(Sign, Boxed<Expression<'a>>),
    /// With its `?` or `$`.
    Variable(Slice<'a>),
    Name(Name<'a>),
    Literal(Literal<'a>),
    /// BOUND of a variable, with its `?` or `$` (121: BuiltInCall).
    Bound(Slice<'a>),
    /// SAMETERM (121: BuiltInCall).
    SameTerm(Boxed<Expression<'a>>, Boxed<Expression<'a>>),
    /// A function of one value (121: BuiltInCall).
    Call(Function, Boxed<Expression<'a>>),
}
