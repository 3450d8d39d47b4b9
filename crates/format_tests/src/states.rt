//! State texts that are read and written again, and texts that are none.

use rdf_lines::{StateFault, read_state, write_state};
use std::alloc::Global;
use std::test::Fail;

// A state with an empty graph, a blank node that names a graph, and each kind of term.
const TEXT: &[u8] = b"#% rdfkeep state 2\n\
#% next 12\n\
#% graph _:b2\n\
#% graph _:b11\n\
#% graph <http://e/empty>\n\
#% graph <http://e/g>\n\
_:b0 <http://e/p> \"x\" .\n\
_:b10 <http://e/p> _:b2 .\n\
<http://e/s> <http://e/p> \"a\\nb\"@en-gb .\n\
_:b2 <http://e/p> \"1\"^^<http://e/d> _:b2 .\n\
<http://e/s> <http://e/p> <http://e/o> <http://e/g> .\n";

// The text of the state that the bytes are.
fn again(alloc: Global, bytes: &[u8]) -> Result<Vec<u8>, StateFault> {
    let state = read_state(alloc, bytes)?;
    let mut text = Vec::new(alloc);
    write_state(alloc, state.next, &state.names, &state.quads, &mut text)?;
    Ok(text)
}

#[test]
fn a_state_comes_back(rt: HostRuntime) {
    for text in [
        TEXT,
        b"#% rdfkeep state 2\n#% next 0\n".as_slice(),
        b"#% rdfkeep state 2\n#% next 1000000000000000000\n".as_slice(),
    ] {
        match again(rt.alloc(), text) {
            Ok(written) => assert!(rt; written.as_slice() == text),
            Err(_) => assert!(rt; false),
        }
    }
}

fn is_refused(alloc: Global, text: &[u8]) -> bool {
    match read_state(alloc, text) {
        Ok(_) => false,
        Err(fault) => fault == StateFault::NotState && fault.name() == "NotState",
    }
}

#[test]
fn texts_near_to_a_state(rt: HostRuntime) {
    for text in [
        b"".as_slice(),
        b"#% rdfkeep state 2\n".as_slice(),
        b"#% rdfkeep state 1\n#% next 0\n".as_slice(),
        b"#% rdfkeep state 3\n#% next 0\n".as_slice(),
        b"#% rdfkeep state 2\n#% next 0".as_slice(),
        b"#% rdfkeep state 2\n#% next 00\n".as_slice(),
        b"#% rdfkeep state 2\n#% next +1\n".as_slice(),
        b"#% rdfkeep state 2\n#% next -1\n".as_slice(),
        b"#% rdfkeep state 2\n#% next \n".as_slice(),
        b"#% rdfkeep state 2\n#% next  1\n".as_slice(),
        b"#% rdfkeep state 2\n#% next 1 \n".as_slice(),
        b"#% rdfkeep state 2\n#% next 1000000000000000001\n".as_slice(),
        b"#% rdfkeep state 2\n#% next 18446744073709551616\n".as_slice(),
        b"#% rdfkeep state 2\r\n#% next 1\r\n".as_slice(),
        b"#% rdfkeep state 2\n#% next 1\n\n".as_slice(),
        b"#% rdfkeep state 2\n#% next 1\n# a comment\n".as_slice(),
    ] {
        assert!(rt; is_refused(rt.alloc(), text));
    }
}

// What stands behind a counter of 3.
fn is_refused_behind(alloc: Global, lines: &[u8]) -> bool {
    let mut text = Vec::new(alloc);
    let Ok(()) = text.extend_from_slice(b"#% rdfkeep state 2\n#% next 3\n") else {
        return false;
    };
    let Ok(()) = text.extend_from_slice(lines) else {
        return false;
    };
    is_refused(alloc, &text)
}

#[test]
fn names_near_to_a_state(rt: HostRuntime) {
    for lines in [
        b"#% graph <a:b>".as_slice(),
        b"#% graph <a:b> \n".as_slice(),
        b"#% graph  <a:b>\n".as_slice(),
        b"#% graph <ab>\n".as_slice(),
        b"#% graph <a:\\u0062>\n".as_slice(),
        b"#% graph \"a\"\n".as_slice(),
        b"#% graph _:b3\n".as_slice(),
        b"#% graph _:b01\n".as_slice(),
        b"#% graph _:c1\n".as_slice(),
        b"#% graph <a:b>\n#% graph <a:b>\n".as_slice(),
        b"#% graph <a:c>\n#% graph <a:b>\n".as_slice(),
        b"#% graph <a:c>\n#% graph _:b1\n".as_slice(),
        b"<a:s> <a:p> <a:o> .\n#% graph <a:c>\n".as_slice(),
    ] {
        assert!(rt; is_refused_behind(rt.alloc(), lines));
    }
}

#[test]
fn quads_near_to_a_state(rt: HostRuntime) {
    for lines in [
        b"<a:s> <a:p> <a:o> .".as_slice(),
        b"<a:s> <a:p> <a:o> .\r\n".as_slice(),
        b"<a:s> <a:p> <a:o> . # o\n".as_slice(),
        b"<a:s> <a:p>  <a:o> .\n".as_slice(),
        b"<a:s> <a:p> <a:o> .\n<a:s> <a:p> <a:o> .\n".as_slice(),
        b"<a:s> <a:p> <a:o> .\n<a:s> <a:p> <a:n> .\n".as_slice(),
        b"<a:s> <a:p> <a:o> <a:g> .\n".as_slice(),
        b"#% graph <a:f>\n<a:s> <a:p> <a:o> <a:g> .\n".as_slice(),
        b"#% graph <a:h>\n<a:s> <a:p> <a:o> <a:g> .\n".as_slice(),
        b"#% graph <a:g>\n<a:s> <a:p> <a:o> <a:g> .\n<a:s> <a:p> <a:o> .\n".as_slice(),
        b"_:b3 <a:p> <a:o> .\n".as_slice(),
        b"<a:s> <a:p> _:b3 .\n".as_slice(),
        b"<a:s> <a:p> _:b02 .\n".as_slice(),
        b"<a:s> <a:p> _:o2 .\n".as_slice(),
        b"<a:s> <a:p> \"\\u0061\" .\n".as_slice(),
        b"<a:s> <a:p> \"a\"@EN .\n".as_slice(),
        b"<a:s> <a:p> \"a\"^^<http://www.w3.org/2001/XMLSchema#string> .\n".as_slice(),
        b"<a:s> <b> <a:o> .\n".as_slice(),
        b"\xFF".as_slice(),
        b"\xFF\n".as_slice(),
    ] {
        assert!(rt; is_refused_behind(rt.alloc(), lines));
    }
}
