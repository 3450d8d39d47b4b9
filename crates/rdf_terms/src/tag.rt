//! Language tags.
ghost use Rattle.std.specs.Prelude.{◌≡◌, ℕ, true, false, List};
ghost use Rattle.std.specs.Str.{encode_utf8_all};
ghost use Rattle.rdf_terms.specs.Literal.{is_tag};
ghost use Rattle.rdf_terms.specs.ReadingLaws.{IsGreedy};
ghost use Rattle.rdf_terms.specs.Tags.{IsTagName, begins_group, skip_groups, tag_end_at};

use crate::cursor::Cursor;

impl<'a> Cursor<'a> {
    /// The place behind LANGTAG (Turtle 1.1, section 6.5), from behind its `@`.
    #[tactic(auto, unfolding(crate::specs::Tags::tag_end_at))]
    pub fn tag_end(&self) -> Option<Cursor<'a>>
        ensures { result ≡ tag_end_at self.now }
    {
        let letters = self.skip_some(|c| c.is_ascii_alphabetic(), |c| c.is_ascii_alphabetic())?;
        Some(skip_groups(&letters))
    }
}

// Whether an ASCII letter or digit follows.
#[tactic(auto, unfolding(crate::specs::Tags::begins_group))]
fn begins_group(at: &Cursor<'_>) -> bool
    ensures { result ≡ begins_group at.now }
{
    match at.peek() {
        Some(c) => c.is_ascii_alphanumeric(),
        None => false,
    }
}

// The place behind groups of `-` and letters or digits.
#[tactic(auto, unfolding(crate::specs::Tags::skip_groups))]
fn skip_groups<'a>(at: &Cursor<'a>) -> Cursor<'a>
    ensures { result ≡ skip_groups false at.now }
{
    let mut rest = at.fork();
    let mut within = false;
    while let Some(c) = rest.peek() {
        let mut behind = rest.fork();
        behind.bump();
        let goes_on = within && c.is_ascii_alphanumeric();
        if !goes_on {
            if c != '-' {
                return rest;
            }
            if !begins_group(&behind) {
                return rest;
            }
        }
        within = true;
        rest = behind;
    }
    rest
}

/// What is read as a language tag is one, and no longer front of the text is; a text is a tag just
/// where [`Literal::tagged`](crate::Literal::tagged) takes it.
pub fn tags_are_read()
    ensures longest { IsGreedy IsTagName tag_end_at }
    ensures taken { (name : List ℕ) → IsTagName name → is_tag (encode_utf8_all name) ≡ true }
    ensures named { (tag : List ℕ) → is_tag tag ≡ true → IsTagName tag }
{}
