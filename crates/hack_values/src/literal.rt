ghost use Rattle.std.specs.Prelude.{◌≡◌, ◌++◌, ◌<◌, OnOk};
ghost use Rattle.hack_values.specs.Literal.{hex_digit, literal, literal_byte};

use crate::{NoMemory, Text};

/// Puts a string at the end as its literal: between quotes, and each byte that isn't printable, each quote and each
/// backslash behind a backslash. After `NoMemory` a front of the literal may stand there.
pub fn push_literal(out: &mut Text, bytes: &[u8]) -> Result<(), NoMemory>
    ensures { OnOk result (out.new ≡ out.old ++ literal bytes.now) }
{
    out.append(b"\"")?;
    for byte in bytes {
        push_byte(out, *byte)?;
    }
    out.append(b"\"")
}

fn push_byte(out: &mut Text, byte: u8) -> Result<(), NoMemory>
    ensures { OnOk result (out.new ≡ out.old ++ literal_byte byte) }
{
    match byte {
        b'\n' => out.append(b"\\n"),
        b'"' | b'\\' => out.append(&[b'\\', byte]),
        32..=126 => out.append(&[byte]),
        _ => out.append(&[b'\\', b'x', digit_of(byte / 16), digit_of(byte % 16)]),
    }
}

fn digit_of(number: u8) -> u8
    requires { number < 16 }
    ensures { result ≡ hex_digit number }
{
    if number < 10 {
        b'0' + number
    } else {
        b'a' - 10 + number
    }
}
