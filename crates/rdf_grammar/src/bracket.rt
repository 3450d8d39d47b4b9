//! Brackets.

/// What a terminal does to the brackets that are open.
#[derive(Clone, Copy, Debug, PartialEq, Eq)]
pub enum Bracket {
    /// It opens one.
    Opens,
    /// It closes one, if one is open.
    Closes,
    /// It is no bracket.
    Neither,
}
