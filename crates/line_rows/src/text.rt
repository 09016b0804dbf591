ghost use Rattle.std.specs.Prelude.{◌≡◌, ◌<◌, ◌++◌, false, true, string_bytes, MatchOption, OnOk};
ghost use Rattle.std.specs.Str.{is_utf8};
ghost use Rattle.line_rows.specs.Hex as spec;

use std::alloc::AllocError;
use std::str;

/// The text that bytes are in UTF-8 (RFC 3629 section 4). `None` where they are none.
pub fn text_in(bytes: &[u8]) -> Option<&str>
    ensures { MatchOption result (is_utf8 bytes.now ≡ false) (λ text. (is_utf8 bytes.now ≡ true) × (text.now ≡ bytes.now)) }
{
    match str::from_utf8(bytes) {
        Ok(text) => Some(text),
        Err(_) => None,
    }
}

/// A lower-case hexadecimal digit.
fn hex_digit(number: u8) -> &'static str
    requires { number < 16 }
    ensures { result.now ≡ spec.digit number }
{
    match number {
        0 => "0",
        1 => "1",
        2 => "2",
        3 => "3",
        4 => "4",
        5 => "5",
        6 => "6",
        7 => "7",
        8 => "8",
        9 => "9",
        10 => "a",
        11 => "b",
        12 => "c",
        13 => "d",
        14 => "e",
        _ => "f",
    }
}

/// Puts two lower-case hexadecimal digits for a byte, the high four bits first.
fn push_byte(text: &mut String, byte: u8) -> Result<(), AllocError>
    ensures { OnOk result (string_bytes text.new ≡ string_bytes text.old ++ spec.digits byte) }
{
    text.push_str(hex_digit(byte / 16))?;
    text.push_str(hex_digit(byte % 16))?;
    Ok(())
}

/// Puts two lower-case hexadecimal digits for each byte.
pub fn push_hex(text: &mut String, bytes: &[u8]) -> Result<(), AllocError>
    ensures { OnOk result (string_bytes text.new ≡ string_bytes text.old ++ spec.hex_text bytes.now) }
{
    for byte in bytes {
        push_byte(text, *byte)?;
    }
    Ok(())
}
