//! What the words query, update and check ask for.

use crate::program::help::{
    CHECK_ABOUT, CHECK_EXAMPLE, QUERY_ABOUT, QUERY_EXAMPLE, UPDATE_ABOUT, UPDATE_EXAMPLE,
};
use crate::program::words::{
    StartFormat, WordsFault, base_word, format_of, from_word, progress_word, start_format_of,
    start_format_words,
};
use crate::script::command::Topic;
use clap::{Arg, ArgAction, ArgMatches, Command};
use rdf_session::{Format, ResultsFormat};
use std::alloc::{AllocError, Global};

/// How standard input is called.
pub(crate) const INPUT: &str = "-";

const STRAY_FORMAT: &str = "\
error: each --format stands behind the --data whose format it says

For more information, try '--help'.
";

const LATE_STATE: &str = "\
error: a state text stands before all other data

For more information, try '--help'.
";

const INPUT_TWICE: &str = "\
error: standard input is read once

For more information, try '--help'.
";

/// The file that a session begins with.
#[derive(Clone, Copy, Debug, PartialEq, Eq)]
pub(crate) struct StartWord<'a> {
    pub(crate) path: &'a str,
    pub(crate) format: StartFormat,
}

/// A file that is loaded behind others.
#[derive(Clone, Copy, Debug, PartialEq, Eq)]
pub(crate) struct DocumentWord<'a> {
    pub(crate) path: &'a str,
    pub(crate) format: Format,
}

/// The files that a session begins with, one behind another.
#[derive(Debug, Drop)]
pub(crate) struct DataWords<'a> {
    pub(crate) first: Option<StartWord<'a>>,
    pub(crate) further: Vec<DocumentWord<'a>>,
}

/// A query of data, its base, the format of its results, and whether it is told how far the data are read.
#[derive(Debug, Drop)]
pub(crate) struct QueryWords<'a> {
    pub(crate) base: Option<&'a str>,
    pub(crate) data: DataWords<'a>,
    pub(crate) results: ResultsFormat,
    pub(crate) progress: bool,
    pub(crate) query: &'a str,
}

/// A request on data, its base, what is shown of the session behind it, and whether it is told how far the data are read.
#[derive(Debug, Drop)]
pub(crate) struct UpdateWords<'a> {
    pub(crate) base: Option<&'a str>,
    pub(crate) data: DataWords<'a>,
    pub(crate) shown: Topic,
    pub(crate) progress: bool,
    pub(crate) request: &'a str,
}

/// A check: the format of the documents, their base, whether it is told how far they are read, and their files.
#[derive(Debug, Drop)]
pub(crate) struct CheckWords<'a> {
    pub(crate) from: Format,
    pub(crate) base: Option<&'a str>,
    pub(crate) progress: bool,
    pub(crate) files: Vec<&'a str>,
}

static RESULTS: [&str; 3] = ["tsv", "csv", "json"];

static KEPT: [&str; 2] = ["nquads", "state"];

// The format of results that a word names: of two of them, or else values between tabs.
fn results_of(word: Option<&str>) -> ResultsFormat {
    match word {
        Some("csv") => ResultsFormat::Csv,
        Some("json") => ResultsFormat::Json,
        _ => ResultsFormat::Tsv,
    }
}

// What is shown behind a request.
fn shown_of(matches: &ArgMatches<'_>) -> Topic {
    if matches.get_flag("changes") {
        return Topic::Changes;
    }
    match matches.get_str("to") {
        Some("state") => Topic::State,
        _ => Topic::Quads,
    }
}

fn many_data_word<'a>(alloc: Global) -> Arg<'a> {
    Arg::new(alloc, "data")
        .long("data")
        .value_name("FILE")
        .action(ArgAction::Append)
        .help(
            "A file that is loaded, or restored, before; may stand several times; - is standard input",
        )
}

fn many_format_word<'a>(alloc: Global) -> Arg<'a> {
    Arg::new(alloc, "format")
        .long("format")
        .value_name("F")
        .action(ArgAction::Append)
        .value_parser(start_format_words())
        .help("The format of the FILE before it; nquads if not given")
}

fn results_word<'a>(alloc: Global) -> Arg<'a> {
    Arg::new(alloc, "results")
        .long("results")
        .value_name("R")
        .value_parser(RESULTS.as_slice())
        .default_value("tsv")
        .help("The format of the results")
}

fn to_word<'a>(alloc: Global) -> Arg<'a> {
    Arg::new(alloc, "to")
        .long("to")
        .value_name("T")
        .value_parser(KEPT.as_slice())
        .help("Write the dataset as sorted lines, or as a state text; nquads if not given")
}

fn changes_word<'a>(alloc: Global) -> Result<Arg<'a>, AllocError> {
    Arg::new(alloc, "changes")
        .long("changes")
        .action(ArgAction::SetTrue)
        .help("Write what the request changed in place of the dataset")
        .conflicts_with("to")
}

fn query_word<'a>(alloc: Global) -> Arg<'a> {
    Arg::new(alloc, "query")
        .value_name("QUERY")
        .help("The file of the query; standard input if not given")
}

fn request_word<'a>(alloc: Global) -> Arg<'a> {
    Arg::new(alloc, "request")
        .value_name("REQUEST")
        .help("The file of the request; standard input if not given")
}

fn files_word<'a>(alloc: Global) -> Arg<'a> {
    Arg::new(alloc, "files")
        .value_name("FILE")
        .num_args(0..)
        .help("The documents; standard input if none is given")
}

/// The word `query`.
pub(crate) fn query_command<'a>(alloc: Global) -> Result<Command<'a>, AllocError> {
    Command::new(alloc, "query")
        .about(QUERY_ABOUT)
        .after_help(QUERY_EXAMPLE)
        .arg(many_data_word(alloc))?
        .arg(many_format_word(alloc))?
        .arg(base_word(alloc))?
        .arg(results_word(alloc))?
        .arg(progress_word(alloc))?
        .arg(query_word(alloc))
}

/// The word `update`.
pub(crate) fn update_command<'a>(alloc: Global) -> Result<Command<'a>, AllocError> {
    Command::new(alloc, "update")
        .about(UPDATE_ABOUT)
        .after_help(UPDATE_EXAMPLE)
        .arg(many_data_word(alloc))?
        .arg(many_format_word(alloc))?
        .arg(base_word(alloc))?
        .arg(to_word(alloc))?
        .arg(changes_word(alloc)?)?
        .arg(progress_word(alloc))?
        .arg(request_word(alloc))
}

/// The word `check`.
pub(crate) fn check_command<'a>(alloc: Global) -> Result<Command<'a>, AllocError> {
    Command::new(alloc, "check")
        .about(CHECK_ABOUT)
        .after_help(CHECK_EXAMPLE)
        .arg(from_word(alloc))?
        .arg(base_word(alloc))?
        .arg(progress_word(alloc))?
        .arg(files_word(alloc))
}

// The format of the file whose word stands at this place, where the next one stands at that: the one that stands between.
fn format_between<'a>(
    matches: &ArgMatches<'a>,
    from: usize,
    upto: usize,
) -> Result<Option<&'a str>, WordsFault> {
    let (Some(names), Some(places)) = (matches.get_strs("format"), matches.indices_of("format"))
    else {
        return Ok(None);
    };
    let mut found = None;
    for number in 0..names.len() {
        let place = places.get(number).copied().unwrap_or(0);
        if from < place && place < upto {
            if found.is_some() {
                return Err(WordsFault::Misuse(STRAY_FORMAT));
            }
            found = names.get(number).copied();
        }
    }
    Ok(found)
}

// The format of start data, which is N-Quads where none is named.
fn start_format_or_lines(name: Option<&str>) -> Result<StartFormat, WordsFault> {
    match name {
        None => Ok(StartFormat::Document(Format::NQuads)),
        Some(name) => Ok(start_format_of(Some(name))?),
    }
}

// The files of data in their order, each with the format that follows it.
fn data_words<'a>(alloc: Global, matches: &ArgMatches<'a>) -> Result<DataWords<'a>, WordsFault> {
    let mut data = DataWords {
        first: None,
        further: Vec::new(alloc),
    };
    let paths = matches.get_strs("data").unwrap_or(&[]);
    let places = matches.indices_of("data").unwrap_or(&[]);
    let begin = places.first().copied().unwrap_or(usize::MAX);
    if format_between(matches, 0, begin)?.is_some() {
        return Err(WordsFault::Misuse(STRAY_FORMAT));
    }
    for number in 0..paths.len() {
        let path = paths[number];
        let from = places.get(number).copied().unwrap_or(0);
        let upto = places.get(number + 1).copied().unwrap_or(usize::MAX);
        let format = start_format_or_lines(format_between(matches, from, upto)?)?;
        if data.first.is_none() {
            data.first = Some(StartWord { path, format });
        } else {
            match format {
                StartFormat::Document(format) => data.further.push(DocumentWord { path, format })?,
                StartFormat::State => return Err(WordsFault::Misuse(LATE_STATE)),
            }
        }
    }
    Ok(data)
}

// How often files of data are standard input.
fn inputs_of(data: &DataWords<'_>) -> usize {
    let mut count = 0usize;
    if let Some(first) = &data.first {
        if first.path == INPUT {
            count = 1;
        }
    }
    for word in data.further.as_slice() {
        if word.path == INPUT {
            count = count.saturating_add(1);
        }
    }
    count
}

// The file of a text that is read behind the data: standard input where none is named.
fn text_word<'a>(word: Option<&'a str>, data: &DataWords<'_>) -> Result<&'a str, WordsFault> {
    let path = word.unwrap_or(INPUT);
    let inputs = inputs_of(data);
    if inputs > 1 || inputs == 1 && path == INPUT {
        return Err(WordsFault::Misuse(INPUT_TWICE));
    }
    Ok(path)
}

/// What `query` asks for.
pub(crate) fn query_words<'a>(
    alloc: Global,
    matches: &ArgMatches<'a>,
) -> Result<QueryWords<'a>, WordsFault> {
    let data = data_words(alloc, matches)?;
    let query = text_word(matches.get_str("query"), &data)?;
    Ok(QueryWords {
        base: matches.get_str("base"),
        data,
        results: results_of(matches.get_str("results")),
        progress: matches.get_flag("progress"),
        query,
    })
}

/// What `update` asks for.
pub(crate) fn update_words<'a>(
    alloc: Global,
    matches: &ArgMatches<'a>,
) -> Result<UpdateWords<'a>, WordsFault> {
    let data = data_words(alloc, matches)?;
    let request = text_word(matches.get_str("request"), &data)?;
    Ok(UpdateWords {
        base: matches.get_str("base"),
        data,
        shown: shown_of(matches),
        progress: matches.get_flag("progress"),
        request,
    })
}

/// What `check` asks for.
pub(crate) fn check_words<'a>(
    alloc: Global,
    matches: &ArgMatches<'a>,
) -> Result<CheckWords<'a>, WordsFault> {
    let mut files = Vec::new(alloc);
    let mut inputs = 0usize;
    for path in matches.get_strs("files").unwrap_or(&[]) {
        if *path == INPUT {
            inputs = inputs.saturating_add(1);
        }
        files.push(*path)?;
    }
    if inputs > 1 {
        return Err(WordsFault::Misuse(INPUT_TWICE));
    }
    if files.is_empty() {
        files.push(INPUT)?;
    }
    Ok(CheckWords {
        from: format_of(matches.get_str("from"))?,
        base: matches.get_str("base"),
        progress: matches.get_flag("progress"),
        files,
    })
}
