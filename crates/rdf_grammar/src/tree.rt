//! The trees of IRIs and literals, which languages share.

use rdf_tokens::Slice;

/// An IRI as written (Turtle 1.1, section 2.4): a reference between `<` and `>`, or a prefix and a
/// local part.
#[derive(Debug, Drop)]
pub enum Name<'a> {
    Full(Slice<'a>),
    Prefixed(Slice<'a>, Slice<'a>),
}

/// A literal as written.
#[derive(Debug, Drop)]
pub enum Literal<'a> {
    Plain(Slice<'a>),
    Tagged(Slice<'a>, Slice<'a>),
    Typed(Slice<'a>, Name<'a>),
    Integer(Slice<'a>),
    Decimal(Slice<'a>),
    Double(Slice<'a>),
    /// A truth value, and its word as written.
    Boolean(bool, Slice<'a>),
}
