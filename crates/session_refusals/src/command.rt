//! Commands of a session.
use rdf_session::{Counts, Format, Keeper, KeeperFault};

/// A command of a session.
#[derive(Clone, Copy)]
pub enum Command {
    Load(Format, &'static [u8]),
    Update(&'static [u8]),
    Mark(&'static [u8]),
    Undo,
    Redo,
    Rollback(&'static [u8]),
}

/// What the session answers the command.
pub fn answer(keeper: &mut Keeper, command: Command) -> Result<Counts, KeeperFault> {
    match command {
        Command::Load(format, text) => keeper.load(format, text),
        Command::Update(text) => keeper.update(text),
        Command::Mark(name) => {
            keeper.mark(name)?;
            Ok(counts(0, 0))
        }
        Command::Undo => keeper.undo(),
        Command::Redo => keeper.redo(),
        Command::Rollback(name) => keeper.rollback(name),
    }
}

/// These counts.
pub fn counts(added: u64, removed: u64) -> Counts {
    Counts { added, removed }
}
