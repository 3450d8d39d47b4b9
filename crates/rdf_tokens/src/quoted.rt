//! Strings, long and short.
ghost use Rattle.std.specs.Prelude.{◌≡◌, ◌≢◌};
ghost use Rattle.rdf_tokens.specs.Inside.TokenReading.{two_at, three_at, long_body_at, long_at, text_at};

use rdf_terms::Cursor;

/// The place behind two such quotes.
#[tactic(auto, unfolding(crate::specs::Inside::TokenReading::two_at))]
fn two<'a>(quote: char, cursor: &Cursor<'a>) -> Option<Cursor<'a>>
    ensures { result ≡ two_at quote cursor.now }
{
    cursor.expect(quote)?.expect(quote)
}

/// The place behind three such quotes.
#[tactic(auto, unfolding(crate::specs::Inside::TokenReading::three_at))]
fn three<'a>(quote: char, cursor: &Cursor<'a>) -> Option<Cursor<'a>>
    ensures { result ≡ three_at quote cursor.now }
{
    two(quote, &cursor.expect(quote)?)
}

/// The place behind the characters of a long string and its last three quotes.
fn long_body<'a>(quote: char, cursor: &Cursor<'a>) -> Option<Cursor<'a>>
    ensures { result ≡ long_body_at quote cursor.now }
{
    let mut rest = cursor.fork();
    loop {
        let stop = rest.past_string_run(quote);
        if let Some(behind) = three(quote, &stop) {
            return Some(behind);
        }
        let (_, behind) = stop.character()?;
        rest = behind;
    }
}

/// The place behind a long string.
#[tactic(auto, unfolding(crate::specs::Inside::TokenReading::long_at))]
fn long<'a>(quote: char, cursor: &Cursor<'a>) -> Option<Cursor<'a>>
    ensures { result ≡ long_at quote cursor.now }
{
    long_body(quote, &three(quote, cursor)?)
}

/// The place behind a string with such quotes (Turtle 1.1, section 6.5: STRING_LITERAL_QUOTE and the
/// three others), long where a long one fits.
#[tactic(auto, unfolding(crate::specs::Inside::TokenReading::text_at))]
pub fn text<'a>(quote: char, cursor: &Cursor<'a>) -> Option<Cursor<'a>>
    requires { quote ≢ 92 }
    ensures { result ≡ text_at quote cursor.now }
{
    match long(quote, cursor) {
        Some(behind) => Some(behind),
        None => cursor.quoted_end(quote),
    }
}
