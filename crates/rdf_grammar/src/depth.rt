//! How many brackets are open.
ghost use Rattle.std.specs.Prelude.{◌≡◌, ◌≤◌};
ghost use Rattle.rdf_grammar.specs.Nesting.{behind_bracket};
ghost use Rattle.rdf_grammar.specs.Walks as spec;
ghost use Rattle.rdf_grammar.specs.Walks.{IsLow};

use crate::bracket::Bracket;
use crate::terminal::Terminal;

/// How many brackets may be open at once.
pub const MAX_OPEN: usize = 100;

/// How many brackets are open behind some tokens of a text.
#[derive(Clone, Copy, Debug, PartialEq, Eq)]
pub enum Depth {
    /// So many, and behind none of them more than 100.
    Open(usize),
    /// More than 100 were, first behind the token that starts at this byte.
    TooDeep(usize),
}

fn open_behind(count: usize, bracket: Bracket) -> usize
    requires { count ≤ 100 }
    ensures { result ≡ behind_bracket count bracket }
{
    match bracket {
        Bracket::Opens => count + 1,
        Bracket::Closes => count.saturating_sub(1),
        Bracket::Neither => count,
    }
}

/// The depth behind one token more, which starts at that byte. A bracket that closes where none is
/// open changes nothing.
pub fn deeper<T: Terminal>(depth: Depth, start: usize, terminal: T) -> Depth
    requires { IsLow depth }
    ensures depth { result ≡ spec.deeper T.bracket depth start terminal }
    ensures low { IsLow result }
{
    match depth {
        Depth::Open(before) => {
            let count = open_behind(before, terminal.bracket());
            if count > MAX_OPEN {
                Depth::TooDeep(start)
            } else {
                Depth::Open(count)
            }
        }
        Depth::TooDeep(first) => Depth::TooDeep(first),
    }
}
