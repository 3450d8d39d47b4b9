//! Quads as a catalogue of things for sale has them, drawn from a seed.
ghost use Rattle.std.specs.Prelude.{◌<◌, IfSome};
ghost use Rattle.rdf_dataset.specs.State.{IsTermBelow, IsGraphBelow, IsQuadBelow};
ghost use Rattle.rdf_terms.specs.Below.{AreBelow};

use crate::vocabulary::{Vocabulary, item};
use rand::SeedableRng;
use rand::rngs::StdRng;
use rand_core::Rng;
use rdf_terms::{GraphName, Iri, Quad, Term};
use std::alloc::Global;

const WORDS: [&str; 16] = [
    "blue", "green", "small", "large", "oak", "steel", "lamp", "table", "chair", "clock", "cotton",
    "café", "straße", "new", "old", "round",
];

/// Items with seven quads each, of which about half lie in named graphs. No quad comes twice, and none has a blank node.
#[derive(Drop)]
pub struct Catalogue {
    alloc: Global,
    rng: StdRng,
    vocabulary: Vocabulary,
    item: Iri,
    number: u64,
}

impl Catalogue {
    /// `None` where memory is wanting, as below.
    pub fn new(alloc: Global) -> Option<Catalogue> {
        Some(Catalogue {
            alloc,
            rng: StdRng::seed_from_u64(7),
            vocabulary: Vocabulary::new(alloc)?,
            item: item(alloc, 0)?,
            number: 0,
        })
    }

    /// The next quads, in the order of their items.
    pub fn quads(&mut self, count: usize) -> Option<Vec<Quad>>
        ensures { IfSome result (λ quads. AreBelow 0 quads.items) }
    {
        let mut quads = Vec::with_capacity(self.alloc, count).ok()?;
        for _ in 0..count {
            let quad = self.quad()?;
            quads.push(quad).ok()?;
        }
        Some(quads)
    }

    fn quad(&mut self) -> Option<Quad>
        ensures { IfSome result (λ q. IsQuadBelow 0 q) }
    {
        let kind = self.next_kind()?;
        let graph = self.graph()?;
        let (item, predicate) = self.item_and_predicate(kind)?;
        let object = self.object(kind)?;
        Quad::new(graph, Term::Iri(item), Term::Iri(predicate), object)
    }

    // Which of an item's quads is the next. Each item has seven.
    fn next_kind(&mut self) -> Option<usize> {
        let kind = (self.number % 7) as usize;
        if kind == 0 {
            self.item = item(self.alloc, self.number / 7)?;
        }
        self.number = self.number.wrapping_add(1);
        Some(kind)
    }

    // The item, and the predicate with this number.
    fn item_and_predicate(&self, kind: usize) -> Option<(Iri, Iri)> {
        let item = self.item.copy().ok()?;
        let predicate = self.vocabulary.predicate(kind)?;
        Some((item, predicate))
    }

    // The default graph, or a named one.
    fn graph(&mut self) -> Option<GraphName>
        ensures { IfSome result (λ g. IsGraphBelow 0 g) }
    {
        if self.below(2) == 0 {
            return Some(GraphName::Default);
        }
        let number = self.below(50) as usize;
        Some(GraphName::Named(Term::Iri(self.vocabulary.graph(number)?)))
    }

    // What the predicate with this number says of an item.
    fn object(&mut self, kind: usize) -> Option<Term>
        ensures { IfSome result (λ t. IsTermBelow 0 t) }
    {
        match kind {
            0 => {
                let tag = 4 + self.below(5) as usize;
                let text = self.text()?;
                self.vocabulary.literal(tag, text)
            }
            1 => {
                let text = self.text()?;
                self.vocabulary.literal(0, text)
            }
            2 => self.decimal(),
            3 => self.integer(),
            4 => self.date(),
            5 => {
                let other = self.below(200_000) as u64;
                Some(Term::Iri(item(self.alloc, other)?))
            }
            _ => Some(Term::Iri(self.vocabulary.model()?)),
        }
    }

    fn decimal(&mut self) -> Option<Term>
        ensures { IfSome result (λ t. IsTermBelow 0 t) }
    {
        let whole = self.below(999);
        let hundredths = self.below(100);
        let text = format!(in self.alloc; "{whole}.{hundredths:02}").ok()?;
        self.vocabulary.literal(1, text)
    }

    fn integer(&mut self) -> Option<Term>
        ensures { IfSome result (λ t. IsTermBelow 0 t) }
    {
        let number = self.below(5000);
        let text = format!(in self.alloc; "{number}").ok()?;
        self.vocabulary.literal(2, text)
    }

    fn date(&mut self) -> Option<Term>
        ensures { IfSome result (λ t. IsTermBelow 0 t) }
    {
        let year = self.below(26);
        let month = 1 + self.below(12);
        let day = 1 + self.below(28);
        let text = format!(in self.alloc; "20{year:02}-{month:02}-{day:02}").ok()?;
        self.vocabulary.literal(3, text)
    }

    // One to four words.
    fn text(&mut self) -> Option<String> {
        let mut text = String::new(self.alloc);
        text.push_str(self.word()).ok()?;
        for _ in 0..self.below(4) {
            text.push(' ').ok()?;
            text.push_str(self.word()).ok()?;
        }
        Some(text)
    }

    fn word(&mut self) -> &'static str {
        WORDS[self.below(16) as usize]
    }

    // A number below the limit.
    fn below(&mut self, limit: u32) -> u32
        requires { 0 < limit }
        ensures { result < limit }
    {
        self.rng.next_u32() % limit
    }
}
