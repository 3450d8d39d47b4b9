//! What many quads of the catalogue share, each text once, as a reader keeps names.
ghost use Rattle.std.specs.Prelude.{IfSome};
ghost use Rattle.rdf_dataset.specs.State.{IsTermBelow};

use rdf_terms::{Iri, Literal, Term, Text};
use std::alloc::Global;

const PREDICATES: [&str; 7] = [
    "http://purl.org/goodrelations/v1#name",
    "http://purl.org/goodrelations/v1#description",
    "http://purl.org/goodrelations/v1#hasCurrencyValue",
    "http://purl.org/goodrelations/v1#amountOfThisGood",
    "http://purl.org/goodrelations/v1#validFrom",
    "http://purl.org/goodrelations/v1#isSimilarTo",
    "http://www.w3.org/1999/02/22-rdf-syntax-ns#type",
];

const DATATYPES: [&str; 4] = [
    "http://www.w3.org/2001/XMLSchema#string",
    "http://www.w3.org/2001/XMLSchema#decimal",
    "http://www.w3.org/2001/XMLSchema#integer",
    "http://www.w3.org/2001/XMLSchema#date",
];

const TAGS: [&str; 5] = ["en", "de", "fr", "en-GB", "pt-BR"];

/// Predicates, names of graphs, and a literal of each datatype and tag.
#[derive(Drop)]
pub struct Vocabulary {
    alloc: Global,
    predicates: Vec<Iri>,
    graphs: Vec<Iri>,
    literals: Vec<Literal>,
    model: Iri,
}

impl Vocabulary {
    /// `None` where memory is wanting, as below.
    pub fn new(alloc: Global) -> Option<Vocabulary> {
        Some(Vocabulary {
            alloc,
            predicates: predicates(alloc)?,
            graphs: graphs(alloc)?,
            literals: literals(alloc)?,
            model: Iri::new(
                alloc,
                "http://purl.org/goodrelations/v1#ProductOrServiceModel",
            )
            .ok()?,
        })
    }

    /// One of seven predicates.
    pub fn predicate(&self, number: usize) -> Option<Iri> {
        self.predicates.get(number)?.copy().ok()
    }

    /// The name of one of 50 graphs.
    pub fn graph(&self, number: usize) -> Option<Iri> {
        self.graphs.get(number)?.copy().ok()
    }

    /// The class of all items.
    pub fn model(&self) -> Option<Iri> {
        self.model.copy().ok()
    }

    /// A literal of one of four datatypes (a string, a decimal, an integer, a date) or, behind them, of five tags.
    pub fn literal(&self, number: usize, text: String) -> Option<Term>
        ensures { IfSome result (λ t. IsTermBelow 0 t) }
    {
        let text = Text::from_string(text).ok()?;
        let literal = self
            .literals
            .get(number)?
            .with_lexical(self.alloc, text)
            .ok()?;
        Some(Term::Literal(literal))
    }
}

/// The IRI of an item.
pub fn item(alloc: Global, number: u64) -> Option<Iri> {
    let text = format!(in alloc; "http://example.org/item/{number}").ok()?;
    Iri::new(alloc, &text).ok()
}

fn predicates(alloc: Global) -> Option<Vec<Iri>> {
    let mut all = Vec::new(alloc);
    for text in PREDICATES {
        all.push(Iri::new(alloc, text).ok()?).ok()?;
    }
    Some(all)
}

fn graphs(alloc: Global) -> Option<Vec<Iri>> {
    let mut all = Vec::new(alloc);
    for number in 0..50u32 {
        let text = format!(in alloc; "http://shop.example.org/{number}").ok()?;
        all.push(Iri::new(alloc, &text).ok()?).ok()?;
    }
    Some(all)
}

fn literals(alloc: Global) -> Option<Vec<Literal>> {
    let mut all = Vec::new(alloc);
    for datatype in DATATYPES {
        let datatype = Iri::new(alloc, datatype).ok()?;
        all.push(Literal::new(alloc, "", datatype).ok()?).ok()?;
    }
    for tag in TAGS {
        all.push(Literal::tagged(alloc, "", tag).ok()??).ok()?;
    }
    Some(all)
}
