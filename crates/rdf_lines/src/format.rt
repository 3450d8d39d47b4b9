//! The formats of lines.

/// A line-based format: RDF 1.1 N-Triples or RDF 1.1 N-Quads.
#[derive(Clone, Copy, Debug, PartialEq, Eq)]
pub enum LineFormat {
    /// RDF 1.1 N-Triples: subject, predicate, object.
    NTriples,
    /// RDF 1.1 N-Quads: perhaps a graph label behind the object.
    NQuads,
}
