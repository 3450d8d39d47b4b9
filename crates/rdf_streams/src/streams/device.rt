//! What is read and written, in one order.
ghost use Rattle.std.specs.Prelude.{◌≡◌, ◌<◌, length};
ghost use Rattle.std.specs.Io.{ReadsAtMost, WritesAtMost};
ghost use Rattle.rdf_streams.specs.Devices.{Event, read_event, write_event};
ghost use Rattle.rdf_streams.specs.Streams.{PairStep, no_bytes};

use std::io;
use std::io::{Read, Write};

/// What is read from and written to. Each call is an event, so that contracts tell in which order reads and writes come.
pub trait Device {
    /// A call with this event may lead from the one state to the other.
    ghost step: { Self → Event → Self → Type 0 };

    /// Reads some bytes, and none at the end.
    ///
    /// # Errors
    /// The device's own, where the call failed.
    fn read(&mut self, buffer: &mut [u8]) -> io::Result<usize>
        requires { 0 < length buffer.old }
        ensures bound { ReadsAtMost result buffer.new }
        ensures event { step self.old (read_event result buffer.new) self.new };

    /// Writes some of the bytes.
    ///
    /// # Errors
    /// The device's own, where the call failed.
    fn write(&mut self, bytes: &[u8]) -> io::Result<usize>
        ensures bound { WritesAtMost result bytes.now }
        ensures event { step self.old (write_event result bytes.now) self.new };
}

/// A reader and a writer that are lent, as one device.
#[derive(Drop)]
pub struct Lent<'a, R, W> {
    /// What is read from.
    pub reader: &'a mut R,
    /// What is written to.
    pub writer: &'a mut W,
}

impl<R: Read, W: Write> Device for Lent<'_, R, W> {
    ghost step = { λ old e new. (new.reader.ghost_name ≡ old.reader.ghost_name)
        × (new.writer.ghost_name ≡ old.writer.ghost_name)
        × PairStep R.remaining W.contents old.reader.now old.writer.now e
        new.reader.now new.writer.now };

    fn read(&mut self, buffer: &mut [u8]) -> io::Result<usize> {
        self.reader.read(buffer)
    }

    fn write(&mut self, bytes: &[u8]) -> io::Result<usize> {
        self.writer.write(bytes)
    }
}

/// A writer that is lent, as a device from which nothing is read.
#[derive(Drop)]
pub struct LentWriter<'a, W> {
    /// What is written to.
    pub writer: &'a mut W,
}

impl<W: Write> Device for LentWriter<'_, W> {
    ghost step = { λ old e new. (new.writer.ghost_name ≡ old.writer.ghost_name)
        × PairStep no_bytes W.contents tt old.writer.now e tt new.writer.now };

    fn read(&mut self, _buffer: &mut [u8]) -> io::Result<usize> {
        Ok(0)
    }

    fn write(&mut self, bytes: &[u8]) -> io::Result<usize> {
        self.writer.write(bytes)
    }
}
