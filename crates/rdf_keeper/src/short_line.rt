//! A line of at most 64 bytes, which takes no memory.
ghost use Rattle.std.specs.Prelude.{◌≡◌, ◌++◌, ◌+◌, ◌≤◌, length};
ghost use Rattle.arrayvec.specs.ArrayVec.{array_vec_len};
ghost use Rattle.rdf_keeper.specs.Script.Answers.{place_text};

use arrayvec::ArrayVec;
use itoa::Buffer;

/// Appends a text.
pub(crate) fn append(line: &mut ArrayVec<u8, 64>, text: &[u8])
    requires { array_vec_len line.old + length text.now ≤ 64 }
    ensures items { line.new.items ≡ line.old.items ++ text.now }
    ensures len { array_vec_len line.new ≡ array_vec_len line.old + length text.now }
{
    line.try_extend_from_slice(text).unwrap();
}

/// Appends the place of a fault, where it has one.
pub(crate) fn append_place(line: &mut ArrayVec<u8, 64>, place: Option<u64>)
    requires { array_vec_len line.old ≤ 36 }
    ensures items { line.new.items ≡ line.old.items ++ place_text place }
    ensures len { array_vec_len line.new ≤ 63 }
{
    if let Some(number) = place {
        let mut buffer = Buffer::new();
        append(line, b" line ");
        append(line, buffer.format(number).as_bytes());
    }
}
