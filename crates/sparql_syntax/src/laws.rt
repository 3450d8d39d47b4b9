//! What holds of each text.
ghost use Rattle.sparql_syntax.specs.BrokenRuleLaws as laws;
ghost use Rattle.sparql_syntax.specs.FaultyNameLaws as names;
ghost use Rattle.sparql_syntax.specs.ModifyLaws.{DeleteWhereIsItsGroup};
ghost use Rattle.sparql_syntax.specs.QueryLaws as query;
ghost use Rattle.sparql_syntax.specs.RequestBlanks.{RequestsStayBelow};
ghost use Rattle.sparql_syntax.specs.RuleLaws.{LabelsAreShared, PatternsAreQuads};
ghost use Rattle.sparql_syntax.specs.UpdateLaws.{SomeMeaning, OneRequest, NeverBoth, OneFault};

/// Each text is one query, or faulty, and never both.
pub fn one_query()
    ensures there { query.SomeMeaning }
    ensures query { query.OneQuery }
    ensures never_both { query.NeverBoth }
    ensures fault { query.OneFault }
{}

/// Each text is one request, or faulty, and never both.
pub fn one_request()
    ensures there { SomeMeaning }
    ensures request { OneRequest }
    ensures never_both { NeverBoth }
    ensures fault { OneFault }
{}

/// Why a name of a text has no IRI (SPARQL 1.1 Query, sections 4.1.1 and 19.5), in updates and in queries:
/// the fault is `UnknownPrefix` just where a prefixed name stands whose prefix isn't declared before it, and
/// `Relative` just where none does and a reference without a scheme stands while no base is in force. Its
/// line is that of the first such name; the search for one comes to the end of the lexemes where there is
/// none.
pub fn faulty_names_are_found()
    ensures unknown_in_updates { names.UnknownInUpdates }
    ensures relative_in_updates { names.RelativeInUpdates }
    ensures unknown_in_queries { names.UnknownInQueries }
    ensures relative_in_queries { names.RelativeInQueries }
{}

/// Where a text is refused by the rule on blank nodes, on variables or on literals (SPARQL 1.1 Update, section
/// 3.1), some lexeme breaks it, and the first such, whose line is told, is a blank node, a variable or a
/// literal. So is a label found where one is reused, and the first such stands before it too.
pub fn broken_rules_are_found()
    ensures blank { laws.BlankIsFound }
    ensures variable { laws.VariableIsFound }
    ensures literal { laws.LiteralIsFound }
    ensures blank_kind { laws.BlankIsOfKind }
    ensures variable_kind { laws.VariableIsOfKind }
    ensures literal_kind { laws.LiteralIsOfKind }
    ensures label { laws.LabelIsReused }
    ensures reused { laws.ReusedIsFound }
    ensures reused_in_queries { laws.ReusedIsFoundInQueries }
{}

/// And the other way round: where there is such a lexeme what the request or the query says breaks the rule.
pub fn found_lexemes_break_rules()
    ensures blank { laws.BlankIsBroken }
    ensures variable { laws.VariableIsBroken }
    ensures literal { laws.LiteralIsBroken }
    ensures reused { laws.ReusedIsBroken }
    ensures reused_in_queries { laws.ReusedIsBrokenInQueries }
{}

/// Where the static rules are kept no quad of the data is lost.
pub fn data_are_quads()
    ensures { PatternsAreQuads }
{}

/// A blank node label is reused where it stands in the data of two INSERT DATA operations, or in two
/// basic graph patterns, and nowhere else (SPARQL 1.1 Query, sections 4.1.4 and 19.6).
pub fn labels_are_shared()
    ensures { LabelsAreShared }
{}

/// DELETE WHERE deletes its quads where the group of the same text finds them, and inserts nothing
/// (SPARQL 1.1 Update, section 3.1.3.3).
pub fn delete_where_is_its_group()
    ensures { DeleteWhereIsItsGroup }
{}

/// Each blank node of a request has a number below the count of its data or of its template, no template
/// names one of the dataset, and what is deleted has none: where the request is applied no quad is lost for
/// want of a blank node (SPARQL 1.1 Update, sections 3.1.1 and 3.1.3).
pub fn requests_stay_below()
    ensures { RequestsStayBelow }
{}
