//! The strings of JSON.
ghost use Rattle.std.specs.Prelude.{◌≡◌, ◌++◌, ◌<◌, take, length, OnOk, OnErr};
ghost use Rattle.std.specs.Char.{digit_char};
ghost use Rattle.std.specs.List.{flat_map};
ghost use Rattle.sparql_results.specs.JsonText.{json_byte, json_string};

use rdf_terms::NoMemory;

/// Appends a string between quotes. A refusal may leave a part of it.
pub(crate) fn append_json_string(text: &[u8], out: &mut Vec<u8>) -> Result<(), NoMemory>
    ensures ok { OnOk result (out.new.items ≡ out.old.items ++ json_string text.now) }
    ensures kept { take (length out.old.items) out.new.items ≡ out.old.items }
{
    out.push(b'"')?;
    for byte in text {
        append_json_byte(*byte, out)?;
    }
    out.push(b'"')?;
    Ok(())
}

fn append_json_byte(byte: u8, out: &mut Vec<u8>) -> Result<(), NoMemory>
    ensures ok { OnOk result (out.new.items ≡ out.old.items ++ json_byte byte) }
    ensures err { OnErr result (out.new.items ≡ out.old.items) }
{
    match byte {
        b'"' => out.extend_from_slice(b"\\\"")?,
        b'\\' => out.extend_from_slice(b"\\\\")?,
        8 => out.extend_from_slice(b"\\b")?,
        b'\t' => out.extend_from_slice(b"\\t")?,
        b'\n' => out.extend_from_slice(b"\\n")?,
        12 => out.extend_from_slice(b"\\f")?,
        b'\r' => out.extend_from_slice(b"\\r")?,
        ..32 => {
            let digits = [hex_digit(byte / 16), hex_digit(byte % 16)];
            out.extend_from_slice(&[b'\\', b'u', b'0', b'0', digits[0], digits[1]])?;
        }
        _ => out.push(byte)?,
    }
    Ok(())
}

fn hex_digit(number: u8) -> u8
    requires { number < 16 }
    ensures { result ≡ digit_char number }
{
    if number < 10 {
        b'0' + number
    } else {
        b'a' + (number - 10)
    }
}
