//! Devices, reading to the end of a stream, and writing the whole of a text.

mod device;
mod reading;
mod writing;

pub use device::{Device, Lent, LentWriter};
pub use reading::{Ending, READ_CALLS, read_all};
pub use writing::{WriteFault, write_on, write_whole};
