//! Symbols.
ghost use Rattle.std.specs.Prelude.{◌≡◌};
ghost use Rattle.rdf_tokens.specs.Inside.Shortcuts.{stands_alone};
ghost use Rattle.rdf_tokens.specs.Inside.TokenReading.{symbol_at};

use rdf_terms::Cursor;

/// Whether a character is a symbol, whatever follows.
pub fn stands_alone(c: char) -> bool
    ensures { result ≡ stands_alone c }
{
    matches!(c, ';' | ',' | '[' | ']' | '(' | ')' | '{' | '}')
}

/// The place behind the longest symbol that begins here.
#[tactic(auto, unfolding(crate::specs::Inside::TokenReading::symbol_at))]
pub fn symbol<'a>(cursor: &Cursor<'a>) -> Option<Cursor<'a>>
    ensures { result ≡ symbol_at cursor.now }
{
    let mut rest = cursor.fork();
    let c = rest.bump()?;
    if matches!(c, '^' | '&' | '|') {
        return rest.expect(c);
    }
    if matches!(c, '!' | '<' | '>') {
        return match rest.expect('=') {
            Some(behind) => Some(behind),
            None => Some(rest),
        };
    }
    if matches!(
        c,
        '{' | '}' | '(' | ')' | '[' | ']' | '.' | ';' | ',' | '=' | '+' | '-' | '*' | '/'
    ) {
        return Some(rest);
    }
    None
}
