//! The formats that a keeper loads.

/// A format of documents: N-Quads, N-Triples or Turtle.
#[derive(Clone, Copy, Debug, PartialEq, Eq)]
pub enum Format {
    /// RDF 1.1 N-Quads.
    NQuads,
    /// RDF 1.1 N-Triples.
    NTriples,
    /// RDF 1.1 Turtle.
    Turtle,
}
