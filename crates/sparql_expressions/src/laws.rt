//! What holds of the grammar of expressions.
ghost use Rattle.sparql_expressions.specs.ExpressionLaws.{ConstraintsAreRead, OneConstraint};

/// What is read behind FILTER is what the grammar derives, and that is one tree at most (SPARQL 1.1
/// Query, section 19.8).
pub fn one_constraint()
    ensures read { ConstraintsAreRead }
    ensures one { OneConstraint }
{}
