//! What the words of a command line ask for.
ghost use Rattle.std.specs.Prelude.{◌≡◌, All, Any, IfNone, IfSome, IsSome, map, ok_or};
ghost use Rattle.rdf_keeper.specs.Inside.Starts.{start_format_named};
ghost use Rattle.rdf_keeper.specs.Script.Commands.{format_named};
ghost use Rattle.rdf_keeper.specs.declared.program.words.StartFormat.{StartFormat};
ghost use Rattle.rdf_session.specs.declared.format.Format.{Format};

use crate::program::help::{
    CONVERT_ABOUT, CONVERT_EXAMPLE, HELP, NAME, RUN_ABOUT, RUN_EXAMPLE, VERSION,
};
use crate::program::once_words::{
    CheckWords, QueryWords, UpdateWords, check_command, check_words, query_command, query_words,
    update_command, update_words,
};
use crate::script::command::format_named;
use clap::builder::ValueParser;
use clap::error::ErrorKind;
use clap::{Arg, ArgAction, ArgMatches, Command, Error};
use rdf_session::Format;
use rdf_terms::NoMemory;
use std::alloc::{AllocError, AllocFailed, Global};

/// What the data are that a session begins with.
#[derive(Clone, Copy, Debug, PartialEq, Eq)]
pub(crate) enum StartFormat {
    /// A document, which is loaded.
    Document(Format),
    /// A state text, which is restored.
    State,
}

/// A session: its base, how many requests it can take back, the data that it begins with, whether it is told how far they are
/// read, and its script.
#[derive(Clone, Copy, Debug, PartialEq, Eq)]
pub(crate) struct RunWords<'a> {
    pub(crate) base: Option<&'a str>,
    pub(crate) depth: Option<usize>,
    pub(crate) data: Option<&'a str>,
    pub(crate) format: StartFormat,
    pub(crate) stop: bool,
    pub(crate) progress: bool,
    pub(crate) script: Option<&'a str>,
}

/// A conversion: the format that is read, its base, whether it is told how far it is read, and the file.
#[derive(Clone, Copy, Debug, PartialEq, Eq)]
pub(crate) struct ConvertWords<'a> {
    pub(crate) from: Format,
    pub(crate) base: Option<&'a str>,
    pub(crate) progress: bool,
    pub(crate) file: Option<&'a str>,
}

/// What a command line asks for.
#[derive(Debug, Drop)]
pub(crate) enum Asked<'a> {
    Run(RunWords<'a>),
    Convert(ConvertWords<'a>),
    Query(QueryWords<'a>),
    Update(UpdateWords<'a>),
    Check(CheckWords<'a>),
    /// A help text or the version, for standard output.
    Shown(String),
}

impl Asked<'_> {
    /// Whether it is to be told how far documents are read.
    pub(crate) fn has_progress(&self) -> bool {
        match self {
            Asked::Run(words) => words.progress,
            Asked::Convert(words) => words.progress,
            Asked::Query(words) => words.progress,
            Asked::Update(words) => words.progress,
            Asked::Check(words) => words.progress,
            Asked::Shown(_) => false,
        }
    }
}

/// Why words ask for nothing.
#[derive(Debug, Drop)]
pub(crate) enum WordsFault {
    /// They are no command line of the program. The text, for standard error, says why.
    Usage(String),
    /// The parser lets them through, and they are none either. The text, for standard error, says why.
    Misuse(&'static str),
    /// The parser has no format for an option that has a default or must be given.
    Format(FormatFault),
    NoMemory(NoMemory),
    /// Memory was wanting inside `clap`, which shows no refusal.
    ParserNoMemory,
}

impl From<AllocError> for WordsFault {
    fn from(e: AllocError) -> WordsFault {
        WordsFault::NoMemory(NoMemory::from(e))
    }
}

impl<T: Drop> From<AllocFailed<T>> for WordsFault {
    fn from(e: AllocFailed<T>) -> WordsFault {
        WordsFault::NoMemory(NoMemory::from(e))
    }
}

impl From<FormatFault> for WordsFault {
    fn from(e: FormatFault) -> WordsFault {
        WordsFault::Format(e)
    }
}

/// Why an option gives no format.
#[derive(Clone, Copy, Debug, PartialEq, Eq)]
pub(crate) enum FormatFault {
    /// It has no word.
    Missing,
    /// Its word names no format.
    Unknown,
}

/// The format of the data that a session begins with, by its name.
pub(crate) fn start_format_named(word: &[u8]) -> Option<StartFormat>
    ensures { result ≡ start_format_named word.now }
{
    if word == b"state".as_slice() {
        Some(StartFormat::State)
    } else {
        format_named(word).map(StartFormat::Document)
    }
}

static FORMATS: [&str; 3] = ["nquads", "ntriples", "turtle"];

static START_FORMATS: [&str; 4] = ["nquads", "ntriples", "turtle", "state"];

// The words that the parser lets through for a document: those that name its format.
fn format_words() -> &'static [&'static str]
    ensures known { All (λ word. IsSome (format_named word.now)) result.now }
    ensures each { (format : Format) →
        Any (λ word. format_named word ≡ Some format) (map (λ word. word.now) result.now) }
{
    FORMATS.as_slice()
}

/// The words that the parser lets through for start data: those that name their format.
pub(crate) fn start_format_words() -> &'static [&'static str]
    ensures known { All (λ word. IsSome (start_format_named word.now)) result.now }
    ensures each { (format : StartFormat) →
        Any (λ word. start_format_named word ≡ Some format) (map (λ word. word.now) result.now) }
{
    START_FORMATS.as_slice()
}

/// The option `--base`.
pub(crate) fn base_word<'a>(alloc: Global) -> Arg<'a> {
    Arg::new(alloc, "base").long("base").value_name("IRI").help(
        "What relative IRIs of Turtle are resolved against; the line formats have none",
    )
}

/// The option `--progress`.
pub(crate) fn progress_word<'a>(alloc: Global) -> Arg<'a> {
    Arg::new(alloc, "progress")
        .long("progress")
        .action(ArgAction::SetTrue)
        .help("Show on standard error how many bytes of a document are read")
}

fn data_word<'a>(alloc: Global) -> Arg<'a> {
    Arg::new(alloc, "data").long("data").value_name("FILE").help(
        "A file that is loaded, or restored, before the script and becomes its start",
    )
}

fn format_word<'a>(alloc: Global) -> Arg<'a> {
    Arg::new(alloc, "format")
        .long("format")
        .value_name("F")
        .value_parser(start_format_words())
        .default_value("nquads")
        .help("The format of FILE")
}

fn depth_word<'a>(alloc: Global) -> Arg<'a> {
    Arg::new(alloc, "depth")
        .long("depth")
        .value_name("N")
        .value_parser(ValueParser::unsigned(1, 1_000_000))
        .help("Keep the last N loads and updates to take back, 1 to 1000000; all if not given")
}

fn stop_word<'a>(alloc: Global) -> Arg<'a> {
    Arg::new(alloc, "stop")
        .long("stop")
        .action(ArgAction::SetTrue)
        .help("End after the first refusal")
}

fn script_word<'a>(alloc: Global) -> Arg<'a> {
    Arg::new(alloc, "script")
        .value_name("SCRIPT")
        .help("The script; standard input if not given")
}

fn run_command<'a>(alloc: Global) -> Result<Command<'a>, AllocError> {
    Command::new(alloc, "run")
        .about(RUN_ABOUT)
        .after_help(RUN_EXAMPLE)
        .arg(base_word(alloc))?
        .arg(data_word(alloc))?
        .arg(format_word(alloc))?
        .arg(depth_word(alloc))?
        .arg(stop_word(alloc))?
        .arg(progress_word(alloc))?
        .arg(script_word(alloc))
}

/// The option `--from`.
pub(crate) fn from_word<'a>(alloc: Global) -> Arg<'a> {
    Arg::new(alloc, "from")
        .long("from")
        .value_name("F")
        .value_parser(format_words())
        .required(true)
        .help("The format of the document")
}

fn file_word<'a>(alloc: Global) -> Arg<'a> {
    Arg::new(alloc, "file")
        .value_name("FILE")
        .help("The document; standard input if not given")
}

fn convert_command<'a>(alloc: Global) -> Result<Command<'a>, AllocError> {
    Command::new(alloc, "convert")
        .about(CONVERT_ABOUT)
        .after_help(CONVERT_EXAMPLE)
        .arg(from_word(alloc))?
        .arg(base_word(alloc))?
        .arg(progress_word(alloc))?
        .arg(file_word(alloc))
}

fn program<'a>(alloc: Global) -> Result<Command<'a>, AllocError> {
    Command::new(alloc, NAME)
        .bin_name(NAME)?
        .version(VERSION)
        .propagate_version(true)
        .override_help(HELP)
        .no_binary_name(true)
        .subcommand_required(true)
        .arg_required_else_help(true)
        .subcommand(run_command(alloc)?)?
        .subcommand(convert_command(alloc)?)?
        .subcommand(query_command(alloc)?)?
        .subcommand(update_command(alloc)?)?
        .subcommand(check_command(alloc)?)
}

/// The format that an option's word names.
pub(crate) fn format_of(word: Option<&str>) -> Result<Format, FormatFault>
    ensures missing { IfNone word.entry (result ≡ Err FormatFault.Missing) }
    ensures given { IfSome word.entry (λ name.
        result ≡ ok_or (format_named name.now) FormatFault.Unknown) }
{
    let name = word.ok_or(FormatFault::Missing)?;
    format_named(name.as_bytes()).ok_or(FormatFault::Unknown)
}

/// The format of start data that an option's word names.
pub(crate) fn start_format_of(word: Option<&str>) -> Result<StartFormat, FormatFault>
    ensures missing { IfNone word.entry (result ≡ Err FormatFault.Missing) }
    ensures given { IfSome word.entry (λ name.
        result ≡ ok_or (start_format_named name.now) FormatFault.Unknown) }
{
    let name = word.ok_or(FormatFault::Missing)?;
    start_format_named(name.as_bytes()).ok_or(FormatFault::Unknown)
}

fn run_words<'a>(matches: &ArgMatches<'a>) -> Result<RunWords<'a>, FormatFault> {
    Ok(RunWords {
        base: matches.get_str("base"),
        depth: matches.get_one("depth"),
        data: matches.get_str("data"),
        format: start_format_of(matches.get_str("format"))?,
        stop: matches.get_flag("stop"),
        progress: matches.get_flag("progress"),
        script: matches.get_str("script"),
    })
}

fn convert_words<'a>(matches: &ArgMatches<'a>) -> Result<ConvertWords<'a>, FormatFault> {
    Ok(ConvertWords {
        from: format_of(matches.get_str("from"))?,
        base: matches.get_str("base"),
        progress: matches.get_flag("progress"),
        file: matches.get_str("file"),
    })
}

fn asked_or_shown<'a>(alloc: Global, error: &Error) -> Result<Asked<'a>, WordsFault> {
    let text = error.to_string(alloc)?;
    match error.kind() {
        ErrorKind::DisplayHelp | ErrorKind::DisplayVersion => Ok(Asked::Shown(text)),
        ErrorKind::OutOfMemory => Err(WordsFault::ParserNoMemory),
        _ => Err(WordsFault::Usage(text)),
    }
}

fn asked_by<'a>(alloc: Global, matches: &ArgMatches<'a>) -> Result<Asked<'a>, WordsFault> {
    match matches.subcommand() {
        Some(("run", found)) => Ok(Asked::Run(run_words(found)?)),
        Some(("convert", found)) => Ok(Asked::Convert(convert_words(found)?)),
        Some(("query", found)) => Ok(Asked::Query(query_words(alloc, found)?)),
        Some(("update", found)) => Ok(Asked::Update(update_words(alloc, found)?)),
        Some(("check", found)) => Ok(Asked::Check(check_words(alloc, found)?)),
        _ => Err(WordsFault::Usage(String::new(alloc))),
    }
}

/// What the words, without the program's own name, ask for.
pub(crate) fn read_words<'a>(alloc: Global, words: &'a [String]) -> Result<Asked<'a>, WordsFault> {
    match program(alloc)?.try_get_matches_from(words) {
        Ok(matches) => {
            let asked = asked_by(alloc, &matches);
            drop(matches);
            asked
        }
        Err(error) => {
            let shown = asked_or_shown(alloc, &error);
            drop(error);
            shown
        }
    }
}
