//! The lines of a text.
ghost use Rattle.std.specs.Prelude.{◌≡◌, take};
ghost use Rattle.rdf_tokens.specs.LineLaws.{TextsHaveLines, LineEndsAreCounted};
ghost use Rattle.rdf_tokens.specs.Lines as spec;

/// Whether such a byte, with these behind it, is the last of a line end.
fn ends_line(byte: u8, behind: &[u8]) -> bool
    ensures { result ≡ spec.ends_line byte behind.now }
{
    byte == b'\n' || (byte == b'\r' && behind.first() != Some(&b'\n'))
}

/// The bytes before a place.
#[tactic(auto, using(std::proofs::lemmas::List::take_all))]
fn front(text: &[u8], place: usize) -> &[u8]
    ensures { result.now ≡ take place text.now }
{
    if place < text.len() {
        &text[..place]
    } else {
        text
    }
}

/// The number of the line that has the byte at `place`: 1 and the number of line ends (LF, CR, CRLF
/// counting once) before it.
#[tactic(auto, unfolding(crate::specs::Lines::line_ends))]
pub fn line_at(text: &[u8], place: usize) -> u64
    ensures { result ≡ spec.line_of text.now place }
{
    let mut rest = front(text, place);
    let mut line = 1;
    while let [byte, behind @ ..] = rest {
        if ends_line(*byte, behind) {
            line += 1;
        }
        rest = behind;
    }
    line
}

/// Each text is lines with their ends: LF, CRLF, or a CR behind which no LF stands. Just these ends are
/// counted.
pub fn line_ends_are_counted()
    ensures there { TextsHaveLines }
    ensures counted { LineEndsAreCounted }
{}
