//! Where a token of a text starts.
ghost use Rattle.rdf_grammar.specs.Walks.{StartsAt};

use rdf_tokens::{Found, TokenWalk};

/// The byte where the token of that number starts, counted from 0, or the end of the text where there
/// is none. The text is walked over, and nothing of it is held.
pub fn start_of(text: &str, number: usize) -> usize
    ensures { StartsAt text.now number result }
{
    let mut walk = TokenWalk::over(text);
    let mut before = number;
    while let Some(found) = walk.next() {
        match found {
            Found::Token(start, _, _) => {
                if before == 0 {
                    return start;
                }
                before -= 1;
            }
            Found::NoToken(_) => return text.len(),
        }
    }
    text.len()
}
