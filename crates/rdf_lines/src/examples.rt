//! Lines as the standards' own texts have them.
ghost use Rattle.rdf_lines.specs.Examples.{ClassTable, LineTable, WrittenTable};

/// White space and labels have just these characters of ASCII, and lines of the standards' kinds hold
/// these statements, or none, or have no reading (RDF 1.1 N-Triples, sections 2 and 7; RDF 1.1 N-Quads,
/// sections 2 and 4). What is written of quads is the canonical line, and of a state its text (RDF 1.1
/// N-Triples, section 4).
pub fn the_standards_lines_are_read()
    ensures classes { ClassTable }
    ensures lines { LineTable }
    ensures written { WrittenTable }
{}
