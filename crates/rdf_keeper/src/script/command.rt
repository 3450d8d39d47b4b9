//! What the lines of a script ask for.
ghost use Rattle.std.specs.Prelude.{◌≡◌, ◌∷◌, nat_eq, ◌&&◌, length, nat_le};
ghost use Rattle.std.specs.List.{list_all};
ghost use Rattle.rdf_keeper.specs.Script.Commands.{alone, asked, is_comment, format_named, format_of, line_of_words, load_of, named, plain};
ghost use Rattle.rdf_keeper.specs.Inside.Asks.{asked_of, line_of};
ghost use Rattle.rdf_keeper.specs.Script.LineWords.{is_name, is_name_byte, words};

use crate::script::line::next_word;
use rdf_session::Format;

/// What a session can show.
#[derive(Clone, Copy, Debug, PartialEq, Eq)]
pub enum Topic {
    /// The net between the base and the state now.
    Changes,
    /// The names of the graphs.
    Graphs,
    /// The quads.
    Quads,
    /// The state text.
    State,
}

/// A command, with its name or the text of its body. That of a load, which may be large, is its own.
#[derive(Drop)]
pub(crate) enum Command<'a> {
    Load(Format, Vec<u8>),
    Update(&'a [u8]),
    Query(&'a [u8]),
    Undo,
    Redo,
    Mark(&'a [u8]),
    Rollback(&'a [u8]),
    Commit,
    Show(Topic),
    /// No command.
    Bad,
    /// A body without an end.
    Unended,
}

/// What a body is, by the line that begins it.
#[derive(Clone, Copy, Debug, PartialEq, Eq)]
pub enum Body {
    /// A document of the format, which is loaded.
    Load(Format),
    /// An update.
    Update,
    /// A query.
    Query,
    /// What no command takes: a document of no format that is known, or a body behind a word too many.
    Unknown,
}

/// What a line outside bodies is.
#[derive(Drop)]
pub(crate) enum Line<'a> {
    /// No words, or a comment.
    Skipped,
    /// A body begins.
    Opens(Body),
    Asks(Command<'a>),
}

fn is_comment(word: &[u8]) -> bool
    ensures { result ≡ is_comment word.now }
{
    match word {
        [] => false,
        [first, ..] => *first == b'#',
    }
}

/// The format of a name.
pub(crate) fn format_named(word: &[u8]) -> Option<Format>
    ensures { result ≡ format_named word.now }
{
    if word == b"nquads".as_slice() {
        Some(Format::NQuads)
    } else if word == b"ntriples".as_slice() {
        Some(Format::NTriples)
    } else if word == b"turtle".as_slice() {
        Some(Format::Turtle)
    } else {
        None
    }
}

// The format that the words of a text name.
fn format_of(text: &[u8]) -> Option<Format>
    ensures { result ≡ format_of (words text.now) }
{
    match next_word(text) {
        None => None,
        Some((word, rest)) => match next_word(rest) {
            None => format_named(word),
            Some(_) => None,
        },
    }
}

fn load_of(format: Option<Format>) -> Body
    ensures { result ≡ load_of format }
{
    match format {
        Some(format) => Body::Load(format),
        None => Body::Unknown,
    }
}

// The body behind a line of one word, by the text behind that word.
fn alone(body: Body, text: &[u8]) -> Body
    ensures { result ≡ alone body (words text.now) }
{
    match next_word(text) {
        None => body,
        Some(_) => Body::Unknown,
    }
}

fn is_name_byte(byte: u8) -> bool
    ensures { result ≡ is_name_byte byte }
{
    byte.is_ascii_alphanumeric() || matches!(byte, b'_' | b'-' | b'.')
}

fn are_name_bytes(word: &[u8]) -> bool
    ensures { result ≡ list_all is_name_byte word.now }
{
    word.iter().all(|b| is_name_byte(*b))
}

fn is_name(word: &[u8]) -> bool
    ensures { result ≡ is_name word.now }
{
    1 <= word.len() && word.len() <= 64 && are_name_bytes(word)
}

// A command of one word.
fn plain(word: &[u8]) -> Command<'_>
    ensures { asked_of result ≡ plain word.now }
{
    if word == b"%undo".as_slice() {
        Command::Undo
    } else if word == b"%redo".as_slice() {
        Command::Redo
    } else if word == b"%commit".as_slice() {
        Command::Commit
    } else if word == b"%changes".as_slice() {
        Command::Show(Topic::Changes)
    } else if word == b"%graphs".as_slice() {
        Command::Show(Topic::Graphs)
    } else if word == b"%print".as_slice() {
        Command::Show(Topic::Quads)
    } else if word == b"%state".as_slice() {
        Command::Show(Topic::State)
    } else {
        Command::Bad
    }
}

// A command with a name.
fn named<'a>(word: &'a [u8], name: &'a [u8]) -> Command<'a>
    ensures { asked_of result ≡ named word.now name.now }
{
    if !is_name(name) {
        Command::Bad
    } else if word == b"%mark".as_slice() {
        Command::Mark(name)
    } else if word == b"%rollback".as_slice() {
        Command::Rollback(name)
    } else {
        Command::Bad
    }
}

// A command without a body: its first word, and what comes after it.
fn asked<'a>(word: &'a [u8], text: &'a [u8]) -> Command<'a>
    ensures { asked_of result ≡ asked word.now (words text.now) }
{
    match next_word(text) {
        None => plain(word),
        Some((name, rest)) => match next_word(rest) {
            None => named(word, name),
            Some(_) => Command::Bad,
        },
    }
}

/// What a line outside bodies, without its end, is.
pub(crate) fn read_line(line: &[u8]) -> Line<'_>
    ensures { line_of result ≡ line_of_words (words line.now) }
{
    let Some((word, rest)) = next_word(line) else {
        return Line::Skipped;
    };
    if is_comment(word) {
        Line::Skipped
    } else if word == b"%load".as_slice() {
        Line::Opens(load_of(format_of(rest)))
    } else if word == b"%update".as_slice() {
        Line::Opens(alone(Body::Update, rest))
    } else if word == b"%query".as_slice() {
        Line::Opens(alone(Body::Query, rest))
    } else {
        Line::Asks(asked(word, rest))
    }
}
