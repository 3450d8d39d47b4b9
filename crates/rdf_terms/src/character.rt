//! The classes of characters that the formats share.
ghost use Rattle.std.specs.Prelude.{◌≡◌};
ghost use Rattle.rdf_terms.specs.Characters as spec;
ghost use Rattle.rdf_terms.specs.Iri.{is_forbidden};

/// PN_CHARS_BASE: the letters that names may begin with (Turtle 1.1, section 6.5).
#[tactic(auto, unfolding(crate::specs::Characters::is_pn_chars_base))]
pub fn is_pn_chars_base(c: char) -> bool
    ensures { result ≡ spec.is_pn_chars_base c }
{
    matches!(
        c,
        'A'..='Z'
            | 'a'..='z'
            | '\u{C0}'..='\u{D6}'
            | '\u{D8}'..='\u{F6}'
            | '\u{F8}'..='\u{2FF}'
            | '\u{370}'..='\u{37D}'
            | '\u{37F}'..='\u{1FFF}'
            | '\u{200C}'..='\u{200D}'
            | '\u{2070}'..='\u{218F}'
            | '\u{2C00}'..='\u{2FEF}'
            | '\u{3001}'..='\u{D7FF}'
            | '\u{F900}'..='\u{FDCF}'
            | '\u{FDF0}'..='\u{FFFD}'
            | '\u{10000}'..='\u{EFFFF}'
    )
}

/// PN_CHARS_U: PN_CHARS_BASE and `_` (Turtle 1.1, section 6.5).
#[tactic(auto, unfolding(crate::specs::Characters::is_pn_chars_u))]
pub fn is_pn_chars_u(c: char) -> bool
    ensures { result ≡ spec.is_pn_chars_u c }
{
    is_pn_chars_base(c) || c == '_'
}

/// PN_CHARS: what names may go on with, but for the dot (Turtle 1.1, section 6.5).
#[tactic(auto, unfolding(crate::specs::Characters::is_pn_chars))]
pub fn is_pn_chars(c: char) -> bool
    ensures { result ≡ spec.is_pn_chars c }
{
    is_pn_chars_u(c)
        || matches!(
            c,
            '-' | '0'..='9' | '\u{B7}' | '\u{300}'..='\u{36F}' | '\u{203F}'..='\u{2040}'
        )
}

/// Whether a character may not stand in an IRI: U+0000 to U+0020 and ``< > " { } | ^ ` \``
/// (N-Triples, section 7: IRIREF).
pub fn is_forbidden_in_iri(c: char) -> bool
    ensures { result ≡ is_forbidden c }
{
    matches!(
        c,
        '\0'..=' ' | '<' | '>' | '"' | '{' | '}' | '|' | '^' | '`' | '\\'
    )
}
