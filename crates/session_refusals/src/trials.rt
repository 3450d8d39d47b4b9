//! The calls of a session that are tried.
use crate::command::Command;
use crate::scene::Scene;
use crate::trial::{Call, Trial};
use rdf_session::Format;

const UNION: &[u8] =
    b"INSERT { _:x <http://e/of> ?s } WHERE { { ?s <http://e/p> \"1\" } UNION { ?s <http://e/q> \"2\" } }";

const TWO: &[u8] =
    b"DELETE DATA { <http://e/s> <http://e/p> \"x\" } ; INSERT DATA { GRAPH <http://e/g> { <http://e/s> <http://e/p> \"y\" } }";

// It deletes the one quad with q whose subject has a 1, and gives its object by r.
const OPTIONAL: &[u8] =
    b"DELETE { ?s <http://e/q> ?o } INSERT { ?s <http://e/r> ?o } WHERE { ?s <http://e/p> \"1\" OPTIONAL { ?s <http://e/q> ?o } }";

const GRAPHS: &[u8] =
    b"INSERT { GRAPH <http://e/n> { ?s <http://e/in> ?g } } WHERE { GRAPH ?g { ?s <http://e/p> ?o } }";

// The one subject with a 1 that has no q.
const LACKING: &[u8] =
    b"DELETE { ?s <http://e/p> \"1\" } INSERT { ?s <http://e/p> _:n } WHERE { ?s <http://e/p> \"1\" MINUS { ?s <http://e/q> ?x } }";

// Each kind of term, a reference, a prefix, a list and a node without a label.
const TERMS: &[u8] =
    b"PREFIX p: <a:> BASE <http://e/> INSERT DATA { GRAPH p:h { _:x p:p [ p:q \"2\\u0033\"@EN , 4 ] . <r> a ( ) } }";

const LINES: &[u8] =
    b"_:x <http://e/p> \"z\\u0061\"@EN <http://e/h> .\n<http://e/s> <http://e/p> \"x\" .\n";

const TRIPLES: &[u8] = b"_:x <http://e/p> _:x .\n<http://e/s> <http://e/p> <http://e/s> . # c\n";

const TURTLE: &[u8] = b"PREFIX : <http://e/> :s :p [ :q ( 1 ) ] .";

const FORGETS: &[u8] =
    b"DELETE DATA { <http://e/s> <http://e/p> \"1\" } ; INSERT DATA { GRAPH <http://e/k> { <http://e/s> <http://e/p> \"y\" } }";

const FILTERED: &[u8] =
    b"SELECT ?s ?o WHERE { ?s <http://e/p> \"a\" OPTIONAL { ?s <http://e/q> ?o FILTER(?o < 5) } }";

const FILTERED_ROWS: &[u8] =
    b"?s\t?o\n<http://e/u>\t\"4\"^^<http://www.w3.org/2001/XMLSchema#integer>\n";

const DISTINCT: &[u8] = b"SELECT DISTINCT ?p WHERE { ?s ?p ?o }";

const DISTINCT_ROWS: &[u8] = b"?p\n<http://e/of>\n<http://e/p>\n<http://e/q>\n";

const EITHER: &[u8] =
    b"SELECT ?s WHERE { { ?s <http://e/p> \"1\" } UNION { ?s <http://e/q> \"2\" } }";

const EITHER_ROWS: &[u8] = b"?s\n<http://e/s>\n<http://e/s>\n<http://e/t>\n";

const WITHOUT: &[u8] = b"SELECT ?s ?x WHERE { ?s <http://e/p> \"1\" MINUS { ?s <http://e/q> ?x } }";

const WITHOUT_ROWS: &[u8] = b"?s\t?x\n<http://e/t>\t\n";

// The inner group has a solution without a value.
const NESTED: &[u8] =
    b"SELECT ?s ?o WHERE { ?s <http://e/p> \"1\" { { ?s <http://e/q> ?o } UNION { } } }";

const NESTED_ROWS: &[u8] = b"?s\t?o\n<http://e/s>\t\n<http://e/s>\t\"2\"\n<http://e/t>\t\n";

const NAMED: &[u8] = b"SELECT * WHERE { GRAPH ?g { ?s <http://e/p> ?o } }";

const NAMED_ROWS: &[u8] =
    b"?g\t?o\t?s\n<http://e/g>\t\"b\"\t<http://e/a>\n<http://e/g>\t\"c\"\t<http://e/a>\n";

const ASK: &[u8] = b"ASK { <http://e/s> <http://e/p> \"1\" }";

/// The trials, in the order of their lines.
pub const TRIALS: [Trial; 35] = [
    Trial(
        "update of UNION",
        Scene::Between,
        Call::Command(Command::Update(UNION), 3, 0),
    ),
    Trial(
        "update of two operations",
        Scene::Between,
        Call::Command(Command::Update(TWO), 1, 1),
    ),
    Trial(
        "update of OPTIONAL",
        Scene::Between,
        Call::Command(Command::Update(OPTIONAL), 1, 1),
    ),
    Trial(
        "update of GRAPH ?g",
        Scene::Between,
        Call::Command(Command::Update(GRAPHS), 1, 0),
    ),
    Trial(
        "update of MINUS",
        Scene::Between,
        Call::Command(Command::Update(LACKING), 1, 1),
    ),
    Trial(
        "update of each kind of term",
        Scene::Between,
        Call::Command(Command::Update(TERMS), 4, 0),
    ),
    Trial(
        "COPY",
        Scene::Between,
        Call::Command(Command::Update(b"COPY DEFAULT TO <http://e/g>"), 7, 1),
    ),
    Trial(
        "MOVE",
        Scene::Between,
        Call::Command(Command::Update(b"MOVE <http://e/g> TO DEFAULT"), 1, 9),
    ),
    Trial(
        "ADD",
        Scene::Between,
        Call::Command(Command::Update(b"ADD <http://e/g> TO <http://e/h>"), 2, 0),
    ),
    Trial(
        "first update",
        Scene::Begun,
        Call::Command(Command::Update(UNION), 3, 0),
    ),
    Trial(
        "load of N-Quads",
        Scene::Between,
        Call::Command(Command::Load(Format::NQuads, LINES), 1, 0),
    ),
    Trial(
        "load of N-Triples",
        Scene::Between,
        Call::Command(Command::Load(Format::NTriples, TRIPLES), 2, 0),
    ),
    Trial(
        "load of Turtle",
        Scene::Between,
        Call::Command(Command::Load(Format::Turtle, TURTLE), 4, 0),
    ),
    Trial(
        "undo of a DELETE",
        Scene::Between,
        Call::Command(Command::Undo, 1, 0),
    ),
    Trial("redo", Scene::Between, Call::Command(Command::Redo, 1, 0)),
    Trial(
        "rollback over five entries",
        Scene::Between,
        Call::Command(Command::Rollback(b"base"), 1, 4),
    ),
    Trial(
        "rollback over two entries",
        Scene::Between,
        Call::Command(Command::Rollback(b"middle"), 1, 1),
    ),
    Trial(
        "mark",
        Scene::Between,
        Call::Command(Command::Mark(b"new"), 0, 0),
    ),
    Trial(
        "mark that moves",
        Scene::Between,
        Call::Command(Command::Mark(b"ahead"), 0, 0),
    ),
    Trial(
        "update that forgets",
        Scene::Bounded,
        Call::Command(Command::Update(FORGETS), 1, 1),
    ),
    Trial(
        "load that forgets",
        Scene::Bounded,
        Call::Command(Command::Load(Format::NQuads, TRIPLES), 2, 0),
    ),
    Trial(
        "rollback over one entry",
        Scene::Bounded,
        Call::Command(Command::Rollback(b"base"), 1, 1),
    ),
    Trial(
        "undo under a depth",
        Scene::Bounded,
        Call::Command(Command::Undo, 1, 1),
    ),
    Trial(
        "redo under a depth",
        Scene::BoundedBefore,
        Call::Command(Command::Redo, 1, 1),
    ),
    Trial(
        "query of OPTIONAL and FILTER",
        Scene::Between,
        Call::Query(FILTERED, FILTERED_ROWS, 1),
    ),
    Trial(
        "query of DISTINCT",
        Scene::Between,
        Call::Query(DISTINCT, DISTINCT_ROWS, 3),
    ),
    Trial(
        "query of UNION",
        Scene::Between,
        Call::Query(EITHER, EITHER_ROWS, 3),
    ),
    Trial(
        "query of MINUS",
        Scene::Between,
        Call::Query(WITHOUT, WITHOUT_ROWS, 1),
    ),
    Trial(
        "query of a nested group",
        Scene::Between,
        Call::Query(NESTED, NESTED_ROWS, 3),
    ),
    Trial(
        "query of GRAPH ?g",
        Scene::Between,
        Call::Query(NAMED, NAMED_ROWS, 2),
    ),
    Trial("first query", Scene::Begun, Call::Query(ASK, b"true\n", 1)),
    Trial("changes", Scene::Between, Call::Changes(4, 1)),
    Trial("names", Scene::Between, Call::Names(3)),
    Trial("quads as text", Scene::Between, Call::Quads),
    Trial("state text", Scene::Between, Call::State),
];
