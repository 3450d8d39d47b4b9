//! Lines and their words.
ghost use Rattle.std.specs.Prelude.{◌≡◌, [], ◌∷◌, ◌++◌, ◌<◌, ◌≤◌, length, nat_eq, MatchOption, IfSome, not};
ghost use Rattle.std.specs.List.{filter, position_from};
ghost use Rattle.rdf_keeper.specs.Script.Commands.{is_end};
ghost use Rattle.rdf_keeper.specs.Script.LineWords.{is_gap, words};
ghost use Rattle.rdf_keeper.specs.Script.Lines.{bare, upto_last_end};
ghost use Rattle.rdf_keeper.specs.Inside.Says.{IsWholeLine};

use memchr::memchr;

/// The first line that has its end, and the rest.
pub(crate) fn whole_line(text: &[u8]) -> Option<(&[u8], &[u8])>
    ensures line { MatchOption result (upto_last_end text.now ≡ [])
        (λ r. IsWholeLine r.0.now × (text.now ≡ r.0.now ++ r.1.now)) }
    ensures falls { IfSome result (λ r. length r.1.now < length text.now) }
{
    match line_end(text) {
        Some(i) => Some(text.split_at(i + 1)),
        None => None,
    }
}

fn line_end(text: &[u8]) -> Option<usize>
    ensures place { result ≡ position_from (λ b. nat_eq b 10) 0 text.now }
    ensures within { IfSome result (λ i. i < length text.now) }
{
    memchr(b'\n', text)
}

/// How many lines end in a text.
pub(crate) fn line_ends(text: &[u8]) -> usize
    ensures { result ≡ length (filter (λ b. nat_eq b 10) text.now) }
{
    let mut rest = text;
    let mut ends = 0;
    while let Some((_, behind)) = whole_line(rest) {
        rest = behind;
        ends += 1;
    }
    ends
}

/// The line without its end.
pub(crate) fn without_end(line: &[u8]) -> &[u8]
    ensures { result.now ≡ bare line.now }
{
    let n = line.len();
    if n > 0 && line[n - 1] == b'\n' {
        if n > 1 && line[n - 2] == b'\r' {
            &line[..n - 2]
        } else {
            &line[..n - 1]
        }
    } else {
        line
    }
}

fn is_gap(byte: u8) -> bool
    ensures { result ≡ is_gap byte }
{
    byte == b' ' || byte == b'\t'
}

fn gap_len(text: &[u8]) -> Option<usize>
    ensures place { result ≡ position_from (λ b. not (is_gap b)) 0 text.now }
    ensures within { IfSome result (λ i. i < length text.now) }
{
    text.iter().position(|b| !is_gap(*b))
}

fn word_len(text: &[u8]) -> Option<usize>
    ensures place { result ≡ position_from is_gap 0 text.now }
    ensures within { IfSome result (λ i. i < length text.now) }
{
    text.iter().position(|b| is_gap(*b))
}

/// The first word of a text, and what comes after it.
pub(crate) fn next_word(text: &[u8]) -> Option<(&[u8], &[u8])>
    ensures { MatchOption result (words text.now ≡ [])
        (λ r. words text.now ≡ r.0.now ∷ words r.1.now) }
{
    let Some(gap) = gap_len(text) else {
        return None;
    };
    let from = text.split_at(gap).1;
    match word_len(from) {
        Some(end) => Some(from.split_at(end)),
        None => Some(from.split_at(from.len())),
    }
}

/// Whether a line ends a body.
pub(crate) fn is_end(line: &[u8]) -> bool
    ensures { result ≡ is_end line.now }
{
    without_end(line) == b"%end".as_slice()
}
