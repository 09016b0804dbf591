// Names, strings and numbers in a line.
ghost use Rattle.std.specs.Prelude.{◌≡◌, ◌++◌, OnOk};
ghost use Rattle.std.specs.Fmt.{decimal};
ghost use Rattle.report_text.specs.Words.{print_byte, print_word};

use std::alloc::{AllocError, Global};

fn put_byte(out: &mut Vec<u8>, byte: u8) -> Result<(), AllocError>
    ensures { OnOk result (out.new.items ≡ out.old.items ++ print_byte byte) }
{
    match byte {
        b'\\' => out.extend_from_slice(b"\\\\")?,
        b'|' => out.extend_from_slice(b"\\|")?,
        b'\n' => out.extend_from_slice(b"\\n")?,
        b'\r' => out.extend_from_slice(b"\\r")?,
        b'\t' => out.extend_from_slice(b"\\t")?,
        other => out.push(other)?,
    }
    Ok(())
}

/// Puts a name or string behind what `out` has, with `\` before what would end or part a line. `Err` for want of memory
/// alone; then `out` may have some of it.
pub fn put_word(out: &mut Vec<u8>, word: &str) -> Result<(), AllocError>
    ensures { OnOk result (out.new.items ≡ out.old.items ++ print_word word.now) }
{
    for byte in word.as_bytes() {
        put_byte(out, *byte)?;
    }
    Ok(())
}

/// Puts a text as it is behind what `out` has. `Err` for want of memory alone.
pub fn put(out: &mut Vec<u8>, text: &str) -> Result<(), AllocError>
    ensures { OnOk result (out.new.items ≡ out.old.items ++ text.now) }
{
    out.extend_from_slice(text.as_bytes())
}

/// Puts a text as it is, and then a name or string, behind what `out` has. `Err` for want of memory alone; then `out`
/// may have some of it.
pub fn put_named(out: &mut Vec<u8>, before: &str, word: &str) -> Result<(), AllocError>
    ensures { OnOk result (out.new.items ≡ out.old.items ++ (before.now ++ print_word word.now)) }
{
    put(out, before)?;
    put_word(out, word)
}

/// Puts a text as it is, and then a number in decimal digits, behind what `out` has. `Err` for want of memory alone;
/// then `out` may have some of it.
pub fn put_counted(
    alloc: Global,
    out: &mut Vec<u8>,
    before: &str,
    number: u64,
) -> Result<(), AllocError>
    ensures { OnOk result (out.new.items ≡ out.old.items ++ (before.now ++ decimal number)) }
{
    put(out, before)?;
    let digits = format!(in alloc; "{number}")?;
    put(out, digits.as_str())
}
