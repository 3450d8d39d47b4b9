//! The result of ASK.
ghost use Rattle.std.specs.Prelude.{◌≡◌};
ghost use Rattle.sparql_results.specs.ResultsText.{boolean_text};

/// What ASK prints: `true` or `false`, and LF.
pub fn boolean_text(answer: bool) -> &'static str
    ensures { result.now ≡ boolean_text answer }
{
    if answer { "true\n" } else { "false\n" }
}
