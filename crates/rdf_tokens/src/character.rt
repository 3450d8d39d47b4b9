//! The classes of characters that Turtle and SPARQL have of their own.
ghost use Rattle.std.specs.Prelude.{◌≡◌};
ghost use Rattle.rdf_terms.specs.LineEnds.{is_line_end};
ghost use Rattle.rdf_tokens.specs.Characters as spec;

use rdf_terms::is_pn_chars_u;

/// WS: space, tab, CR, LF (Turtle 1.1, section 6.5).
pub fn is_white(c: char) -> bool
    ensures { result ≡ spec.is_white c }
{
    matches!(c, ' ' | '\t' | '\r' | '\n')
}

/// LF and CR, which end a comment (Turtle 1.1, section 6.2).
pub fn is_line_end(c: char) -> bool
    ensures { result ≡ is_line_end c }
{
    matches!(c, '\n' | '\r')
}

/// The sign of a number: `+` or `-`.
pub fn is_sign(c: char) -> bool
    ensures { result ≡ spec.is_sign c }
{
    matches!(c, '+' | '-')
}

/// `e` or `E`, with which EXPONENT begins (Turtle 1.1, section 6.5).
pub fn is_exponent_letter(c: char) -> bool
    ensures { result ≡ spec.is_exponent_letter c }
{
    matches!(c, 'e' | 'E')
}

// A `w` stands at the places of ASCII letters and digits and of `_`, and a `-` at every other.
static WORD_MAP: [u8; 128] = *b"\
    --------------------------------\
    ----------------wwwwwwwwww------\
    -wwwwwwwwwwwwwwwwwwwwwwwwww----w\
    -wwwwwwwwwwwwwwwwwwwwwwwwww-----";

/// What may follow in a bare word: an ASCII letter or digit, or `_`.
pub fn is_word_part(c: char) -> bool
    ensures { result ≡ spec.is_word_part c }
{
    if !c.is_ascii() {
        return false;
    }
    WORD_MAP[c as usize] == b'w'
}

/// PN_CHARS_U or a digit: what a label, a local part and a variable's name may begin with (Turtle 1.1, section 6.5).
#[tactic(auto, unfolding(crate::specs::Characters::is_name_start))]
pub fn is_name_start(c: char) -> bool
    ensures { result ≡ spec.is_name_start c }
{
    is_pn_chars_u(c) || matches!(c, '0'..='9')
}

/// What may follow in a variable's name (SPARQL 1.1 Query, section 19.8: VARNAME).
#[tactic(auto, unfolding(crate::specs::Characters::is_variable_part))]
pub fn is_variable_part(c: char) -> bool
    ensures { result ≡ spec.is_variable_part c }
{
    is_name_start(c) || matches!(c, '\u{B7}' | '\u{300}'..='\u{36F}' | '\u{203F}'..='\u{2040}')
}

/// What a backslash may stand before in a local part (Turtle 1.1, section 6.5: PN_LOCAL_ESC).
#[tactic(auto, unfolding(crate::specs::Characters::is_local_escape))]
pub fn is_local_escape(c: char) -> bool
    ensures { result ≡ spec.is_local_escape c }
{
    matches!(
        c,
        '_' | '~'
            | '.'
            | '-'
            | '!'
            | '$'
            | '&'
            | '\''
            | '('
            | ')'
            | '*'
            | '+'
            | ','
            | ';'
            | '='
            | '/'
            | '?'
            | '#'
            | '@'
            | '%'
    )
}
