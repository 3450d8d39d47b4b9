//! Literals with a language tag, which share the tags that stood in the text before.
ghost use Rattle.std.specs.Prelude.{◌≡◌, [], true, Some, IfOk, IfSome};
ghost use Rattle.std.specs.Str.{str_to_ascii_lowercase};
ghost use Rattle.rdf_terms.specs.Literal.{lang_string, is_tag, tagged};
ghost use Rattle.rdf_tokens.specs.Values as values;

use crate::places::{Places, mark_of};
use rdf_terms::{Literal, NoMemory, Text};
use rdf_tokens::{Slice, tag_value, text_value};
use std::alloc::Global;

/// How many tags are kept at once at most.
const PLACES: usize = 32;

// A tag as it stands in the text, and a literal that has it.
#[derive(Drop)]
struct KeptTag<'a> {
    tag: Slice<'a>,
    literal: Literal,
    ghost datatype_is: { literal.datatype ≡ lang_string },
    ghost tag_is: { literal.tag ≡ Some (str_to_ascii_lowercase (values.tag_value tag)) },
}

// The mark of a tag, halved, since those of tags are even.
fn mark_of_tag(tag: &Slice<'_>) -> usize {
    mark_of(tag.as_str()) / 2
}

/// Tags that were looked at, each with a literal that has it. A literal whose tag is kept shares the
/// texts of its tag and its datatype. Of the tags with one place the last is kept.
#[derive(Drop)]
pub(crate) struct Tags<'a> {
    places: Places<KeptTag<'a>>,
}

impl<'a> Tags<'a> {
    /// No tags. It takes no memory.
    pub(crate) fn new(alloc: Global) -> Tags<'a>
        ensures { result.places ≡ [] }
    {
        Tags {
            places: Places::new(alloc, PLACES),
        }
    }

    // The literal that is kept with a tag.
    fn kept(&self, tag: &Slice<'a>) -> Option<&Literal>
        ensures datatype { IfSome result (λ l. l.now.datatype ≡ lang_string) }
        ensures tag { let lowered = str_to_ascii_lowercase (values.tag_value tag.now) in
            IfSome result (λ l. l.now.tag ≡ Some lowered) }
    {
        let kept = self.places.get(mark_of_tag(tag))?;
        if kept.tag.as_str() == tag.as_str() {
            Some(&kept.literal)
        } else {
            None
        }
    }

    // Keeps a tag with a literal that has it.
    fn keep(&mut self, tag: &Slice<'a>, literal: &Literal) -> Result<(), NoMemory>
        requires datatype { literal.now.datatype ≡ lang_string }
        requires tag { let lowered = str_to_ascii_lowercase (values.tag_value tag.now) in
            literal.now.tag ≡ Some lowered }
    {
        let literal = literal.copy()?;
        let kept = KeptTag {
            tag: tag.fork(),
            literal,
        };
        self.places.put(mark_of_tag(tag), kept)
    }

    /// The literal of what a string stands for, with the tag behind it (Turtle 1.1, section 2.5.1).
    ///
    /// # Errors
    /// [`NoMemory`] where memory is wanting.
    pub(crate) fn literal(
        &mut self,
        alloc: Global,
        string: &Slice<'_>,
        tag: &Slice<'a>,
    ) -> Result<Literal, NoMemory>
        requires { is_tag (values.tag_value tag.now) ≡ true }
        ensures { let text = values.text_value string.now in
            IfOk result (λ literal. literal ≡ tagged text (values.tag_value tag.now)) }
    {
        let lexical = text_value(alloc, string)?;
        if let Some(kept) = self.kept(tag) {
            return kept.with_lexical(alloc, lexical);
        }
        let literal = Literal::tagged_from_text(alloc, lexical, tag_value(tag))?;
        self.keep(tag, &literal)?;
        Ok(literal)
    }
}
