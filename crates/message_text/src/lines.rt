// Whole lines.
ghost use Rattle.std.specs.Prelude.{◌≡◌, ◌++◌, IfOk};
ghost use Rattle.std.specs.Fmt.{decimal};
ghost use Rattle.report_text.specs.Words.{print_line, print_word};

use report_text::{put, put_counted, put_named};
use std::alloc::{AllocError, Global};

/// A line with no value in it.
pub(crate) fn plain_line(alloc: Global, text: &str) -> Result<Vec<u8>, AllocError>
    ensures { IfOk result (λ line. line.items ≡ print_line text.now) }
{
    let mut line = Vec::new(alloc);
    put(&mut line, text)?;
    line.push(b'\n')?;
    Ok(line)
}

/// A line of two texts and a number.
pub(crate) fn counted_line(
    alloc: Global,
    before: &str,
    words: &str,
    number: u64,
) -> Result<Vec<u8>, AllocError>
    ensures { IfOk result (λ line. line.items ≡ print_line (before.now ++ (words.now ++ decimal number))) }
{
    let mut line = Vec::new(alloc);
    put(&mut line, before)?;
    put_counted(alloc, &mut line, words, number)?;
    line.push(b'\n')?;
    Ok(line)
}

/// A line of two texts and a name.
pub(crate) fn named_line(
    alloc: Global,
    before: &str,
    words: &str,
    name: &str,
) -> Result<Vec<u8>, AllocError>
    ensures { IfOk result (λ line. line.items ≡ print_line (before.now ++ (words.now ++ print_word name.now))) }
{
    let mut line = Vec::new(alloc);
    put(&mut line, before)?;
    put_named(&mut line, words, name)?;
    line.push(b'\n')?;
    Ok(line)
}
