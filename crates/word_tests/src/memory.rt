//! Files in memory.
ghost use Rattle.rdf_keeper.specs.Program.Openings.{anything};

use case_tables::Part;
use rdf_keeper::Folder;
use std::io;
use std::io::ErrorKind;

/// The parts of a case as files, one of which may be one that the program may not read. Contracts know nothing of them.
#[derive(Drop)]
pub(crate) struct Memory<'a> {
    pub(crate) files: &'a [Part],
    pub(crate) unreadable: Option<&'a str>,
}

impl<'a> Folder for Memory<'a> {
    type File = &'a [u8];

    ghost step = { anything };

    fn open(&mut self, path: &str) -> io::Result<&'a [u8]> {
        if self.unreadable == Some(path) {
            return Err(io::Error::from(ErrorKind::PermissionDenied));
        }
        for file in self.files {
            if file.name() == path {
                return Ok(file.bytes());
            }
        }
        Err(io::Error::from(ErrorKind::NotFound))
    }

    fn size_of(_file: &&'a [u8]) -> Option<u64> {
        None
    }
}
