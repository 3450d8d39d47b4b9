//! The logical operators (SPARQL 1.1 Query, section 17.2). An error is no truth: `None`.
ghost use Rattle.std.specs.Prelude.{◌≡◌};
ghost use Rattle.sparql_values.specs.Values.{both, either, is_true, negated};

/// `||`
pub(crate) fn either(x: Option<bool>, y: Option<bool>) -> Option<bool>
    ensures { result ≡ either x y }
{
    match (x, y) {
        (Some(true), _) | (_, Some(true)) => Some(true),
        (Some(false), Some(false)) => Some(false),
        _ => None,
    }
}

/// `&&`
pub(crate) fn both(x: Option<bool>, y: Option<bool>) -> Option<bool>
    ensures { result ≡ both x y }
{
    match (x, y) {
        (Some(false), _) | (_, Some(false)) => Some(false),
        (Some(true), Some(true)) => Some(true),
        _ => None,
    }
}

/// `!`
pub(crate) fn negated(x: Option<bool>) -> Option<bool>
    ensures { result ≡ negated x }
{
    match x {
        Some(truth) => Some(!truth),
        None => None,
    }
}

/// Whether it is true, neither false nor an error.
pub(crate) fn is_true(x: Option<bool>) -> bool
    ensures { result ≡ is_true x }
{
    matches!(x, Some(true))
}
