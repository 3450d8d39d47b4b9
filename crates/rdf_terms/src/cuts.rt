//! Where a text is cut.
ghost use Rattle.std.specs.Prelude.{◌≡◌, ◌==◌, ◌≤◌, ◌<◌, length, take, position, IfSome};
ghost use Rattle.std.specs.Option.{option_copied};
ghost use Rattle.rdf_terms.specs.Cuts.{before, after, up_to_slash};

/// The text before the first `mark`, and the text after it, if there is one.
pub fn cut(text: &[u8], mark: u8) -> (&[u8], Option<&[u8]>)
    ensures before { result.0.now ≡ before mark text.now }
    ensures after { option_copied result.1 ≡ after mark text.now }
{
    match first_place(text, mark) {
        Some(place) => (&text[..place], Some(&text[place + 1..])),
        None => (text, None),
    }
}

fn first_place(text: &[u8], mark: u8) -> Option<usize>
    ensures first { result ≡ position (λ c. c == mark) text.now }
    ensures within { IfSome result (λ n. n < length text.now) }
{
    text.iter().position(|b| *b == mark)
}

/// How far the text goes up to and with its last slash.
pub fn slash_end(text: &[u8]) -> usize
    ensures within { result ≤ length text.now }
    ensures front { take result text.now ≡ up_to_slash text.now }
{
    let mut end = text.len();
    while end > 0 && text[end - 1] != b'/' {
        end -= 1;
    }
    end
}
