//! The library as a host calls it. The program writes what `kept` answers for two teas.
#![tactic(auto)]

ghost use Rattle.std.specs.Prelude.{IfOk};
ghost use Rattle.library_example.specs.Kept.{AreItsLines};

use rdf_keeper::{Format, Keeper, KeeperFault, undo_gives_back};
use std::alloc::Global;
use std::io::{self, Write};

const TEAS: &[u8] = b"
@prefix tea: <http://tea.example/> .
tea:green tea:name \"green tea\"@en .
tea:sencha tea:name \"sencha\"@en ; tea:kind tea:green .
";

// What a document says, after an update was tried on it and taken back.
// (README shows these twelve lines.)
fn kept(alloc: Global, document: &[u8], update: &[u8]) -> Result<Vec<u8>, KeeperFault>
    ensures { IfOk result (λ text. AreItsLines document.now text.items) }
{
    let mut keeper = Keeper::new(alloc, None);
    keeper.load(Format::Turtle, document)?;
    keeper.update(update)?;
    keeper.undo()?;
    undo_gives_back();
    let mut text = Vec::new(alloc);
    keeper.write_quads(&mut text)?;
    Ok(text)
}

fn main(rt: HostRuntime) -> io::Result<()> {
    match kept(rt.alloc(), TEAS, b"DELETE WHERE { ?tea ?property ?value }") {
        Ok(text) => rt.stdout().write_all(text.as_slice()),
        Err(fault) => println!(rt; "{}", fault.name()),
    }
}
