//! The sessions over which calls are tried. Each begins at a base of seven quads, whose graph `empty` has
//! none.
use crate::command::{Command, answer};
use rdf_session::{Format, Keeper};
use std::alloc::Global;

/// A session over which a call is tried.
#[derive(Clone, Copy)]
pub enum Scene {
    /// At the base, before any request.
    Begun,
    /// Five entries behind the base, two before the end, with marks on both sides.
    Between,
    /// Under a depth of one, behind its entry.
    Bounded,
    /// The same, before its entry.
    BoundedBefore,
}

/// The names of marks, some of which no session has.
pub const MARKS: [&[u8]; 5] = [b"base", b"middle", b"here", b"ahead", b"new"];

const BASE: &[u8] =
    b"<http://e/s> <http://e/p> \"x\" .\n<http://e/s> <http://e/p> \"1\" .\n<http://e/t> <http://e/p> \"1\" .\n<http://e/s> <http://e/q> \"2\" .\n<http://e/u> <http://e/p> \"a\" .\n<http://e/u> <http://e/q> \"4\"^^<http://www.w3.org/2001/XMLSchema#integer> .\n_:b <http://e/p> \"3\" <http://e/h> .\n";

const CREATE: &[u8] = b"CREATE GRAPH <http://e/empty>";

// The third and the fourth cancel each other.
const BETWEEN: [Command; 13] = [
    Command::Mark(b"base"),
    Command::Update(
        b"INSERT DATA { <http://e/a> <http://e/p> \"b\" GRAPH <http://e/g> { <http://e/a> <http://e/p> \"b\" , \"c\" } }",
    ),
    Command::Update(b"INSERT { _:x <http://e/of> ?s } WHERE { ?s <http://e/q> \"2\" }"),
    Command::Update(b"DELETE DATA { GRAPH <http://e/g> { <http://e/a> <http://e/p> \"c\" } }"),
    Command::Mark(b"middle"),
    Command::Update(b"INSERT DATA { GRAPH <http://e/g> { <http://e/a> <http://e/p> \"c\" } }"),
    Command::Update(b"DELETE WHERE { GRAPH <http://e/h> { ?s ?p ?o } }"),
    Command::Mark(b"here"),
    Command::Update(b"INSERT DATA { GRAPH <http://e/k> { <http://e/z> <http://e/p> _:n } }"),
    Command::Update(b"DELETE DATA { <http://e/t> <http://e/p> \"1\" }"),
    Command::Mark(b"ahead"),
    Command::Undo,
    Command::Undo,
];

const BOUNDED: [Command; 3] = [
    Command::Mark(b"base"),
    Command::Update(
        b"DELETE DATA { <http://e/s> <http://e/p> \"x\" } ; INSERT DATA { GRAPH <http://e/g> { <http://e/s> <http://e/p> \"w\" } }",
    ),
    Command::Mark(b"here"),
];

impl Scene {
    /// The session before its first command.
    pub fn begun(self, alloc: Global) -> Keeper {
        match self {
            Scene::Begun | Scene::Between => Keeper::new(alloc, None),
            Scene::Bounded | Scene::BoundedBefore => Keeper::new(alloc, None).with_depth(1),
        }
    }

    /// Brings such a session to where the call is tried, unless memory is wanting.
    pub fn is_set(self, keeper: &mut Keeper) -> bool {
        if answer(keeper, Command::Load(Format::NQuads, BASE)).is_err() {
            return false;
        }
        match self {
            Scene::Begun => {
                keeper.commit();
                true
            }
            Scene::Between => goes_on(keeper, &BETWEEN),
            Scene::Bounded => goes_on(keeper, &BOUNDED),
            Scene::BoundedBefore => {
                goes_on(keeper, &BOUNDED) && answer(keeper, Command::Undo).is_ok()
            }
        }
    }
}

// Makes the base, and has the commands carried out.
fn goes_on(keeper: &mut Keeper, commands: &[Command]) -> bool {
    if answer(keeper, Command::Update(CREATE)).is_err() {
        return false;
    }
    keeper.commit();
    are_accepted(keeper, commands)
}

/// Has the commands carried out, one behind the other.
pub fn are_accepted(keeper: &mut Keeper, commands: &[Command]) -> bool {
    for command in commands {
        if answer(keeper, *command).is_err() {
            return false;
        }
    }
    true
}
