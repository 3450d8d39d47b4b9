//! What the texts of results tell.
ghost use Rattle.sparql_results.specs.Examples.{CsvTable, JsonTable, TsvTable};
ghost use Rattle.sparql_results.specs.FormLaws.{CsvTellsStrings, JsonTellsRows};
ghost use Rattle.sparql_results.specs.JsonReading.{JsonTextsAreRead, JsonTextsAreReadOnce};
ghost use Rattle.sparql_results.specs.RowLaws.{RowsDiffer};

/// Two different rows of one width never have the same text: no tab and no LF stands inside a field, and a field tells its
/// value.
pub fn rows_differ()
    ensures { RowsDiffer }
{}

/// Two selections that have one text in CSV have the same columns, and rows of the same strings.
pub fn csv_tells_strings()
    ensures { CsvTellsStrings }
{}

/// Two selections that have one text in JSON have the same columns and the same rows, where the columns have different names and
/// each row a value for each of them.
pub fn json_tells_rows()
    ensures { JsonTellsRows }
{}

/// What stands between the quotes of a JSON string is read as the text that was written, and as no other.
pub fn json_texts_are_read()
    ensures read { JsonTextsAreRead }
    ensures once { JsonTextsAreReadOnce }
{}

/// The standards' own examples of results are written as they have them: those of TSV and CSV row by row, and those of JSON, with
/// the canonical texts of terms and without white space (SPARQL 1.1 Query Results CSV and TSV Formats, sections 3 and 4; SPARQL 1.1
/// Query Results JSON Format, sections 2 and 3).
pub fn the_standards_results_are_written()
    ensures tsv { TsvTable }
    ensures csv { CsvTable }
    ensures json { JsonTable }
{}
