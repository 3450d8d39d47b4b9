//! What is written is read back.
ghost use Rattle.rdf_lines.specs.RoundTrip.{EachLineIsReadBack, LinesDiffer, DocumentsAreReadBack, SortedTextsAreReadBack, NumberedDocumentsAreReadBack, NumberedSortedTextsAreReadBack, ReadDocumentsAreReadAgain};

/// The line of a quad, without its LF, says the quad's statement in N-Quads (N-Quads, section 2),
/// and so nothing else ([`one_answer`](crate::one_answer)). A blank node's label is `b` and its
/// number in decimal.
pub fn each_line_is_read_back()
    ensures { EachLineIsReadBack }
{}

/// Two different quads never have the same line.
pub fn lines_differ()
    ensures { LinesDiffer }
{}

/// The lines of quads are a document with no fault: the same quads in the same order, but for the
/// numbers of their blank nodes, of which no two become one (RDF 1.1 Concepts, section 4.1).
pub fn documents_are_read_back()
    ensures { DocumentsAreReadBack }
{}

/// What [`write_sorted`](crate::write_sorted) writes of quads is a document with no fault: the quads
/// sorted, but for the numbers of their blank nodes, of which no two become one.
pub fn sorted_texts_are_read_back()
    ensures { SortedTextsAreReadBack }
{}

/// Where the blank numbers come in order of first appearance, the quads are the very same.
pub fn numbered_documents_are_read_back()
    ensures { NumberedDocumentsAreReadBack }
{}

/// What [`write_sorted`](crate::write_sorted) writes of sorted quads whose blank numbers come in order
/// of first appearance is a document with no fault, and its quads are the very same.
pub fn numbered_sorted_texts_are_read_back()
    ensures { NumberedSortedTextsAreReadBack }
{}

/// The quads of any document of lines, written by [`write_quad`](crate::write_quad) and read again, are the very same.
pub fn read_documents_are_read_again()
    ensures { ReadDocumentsAreReadAgain }
{}
