//! What opens files.
ghost use Rattle.rdf_keeper.specs.Program.Openings.{Opening, anything, opening_of};

use std::fs::OpenFile;
use std::io::Read;
use std::rt::Files;
use std::{fs, io};

/// What opens files by their paths. Each call is an opening, so that contracts tell which files are opened, in which order, and what
/// they hold.
pub trait Folder {
    /// A file that is open for reading.
    type File: Read + Drop;

    /// This opening may lead from the one state to the other.
    ghost step: { Self → Opening → Self → Type 0 };

    /// Opens a file for reading.
    ///
    /// # Errors
    /// The folder's own, where nothing opens at that path.
    fn open(&mut self, path: &str) -> io::Result<Self::File>
        ensures { step self.old (opening_of Self.File.remaining path.now result) self.new };

    /// How many bytes a file has, where it is one that has a size.
    fn size_of(file: &Self::File) -> Option<u64>;
}

/// The files of a host, of which nothing is known.
#[derive(Drop)]
pub(crate) struct HostFolder<'a, T> {
    pub(crate) rt: &'a T,
}

impl<T: Files> Folder for HostFolder<'_, T> {
    type File = T::File;

    ghost step = { anything };

    fn open(&mut self, path: &str) -> io::Result<T::File> {
        fs::open(self.rt, path)
    }

    fn size_of(file: &T::File) -> Option<u64> {
        match file.metadata() {
            Ok(known) if known.is_file() => Some(known.len()),
            _ => None,
        }
    }
}
