// Cutting the bytes of a file into lines, piece by piece.
ghost use Rattle.std.specs.Prelude.{◌≡◌, ◌+◌, ◌<◌, ◌≤◌, ◌^◌, ◌++◌, ◌∷◌, [], ℕ, List, length, OnOk};
ghost use Rattle.landing_core.specs.Lines.{CompleteLine, has_mark, without_cr, text_of, first_byte, is_blank, is_head, row_line};
ghost use Rattle.landing_core.specs.Pieces.{ReadsOn, EndsOn};

use std::alloc::{AllocError, Global};
use value_core::{Format, Line, ListOf};

/// A line that is a row, with the number of its file in the listing, from 0.
#[derive(Drop)]
pub struct FreshLine {
    pub file: u64,
    pub line: Line,
}

/// Lines that are rows, in order.
pub type FreshLines = ListOf<FreshLine>;

/// How the lines of a file are read: its format, where its head begins if it has one, and its
/// number in the listing.
#[derive(Clone, Copy)]
pub(crate) struct Reading {
    pub format: Format,
    pub head: Option<u64>,
    pub number: u64,
}

/// A line that has begun: where it begins in its file, and its bytes so far.
#[derive(Drop)]
pub(crate) struct Begun {
    pub start: u64,
    pub bytes: Vec<u8>,
}

/// A line without one CR at its end.
fn trim_cr(line: &[u8]) -> &[u8]
    ensures { result.now ≡ without_cr line.now }
{
    if !line.is_empty() && line[line.len() - 1] == b'\r' {
        &line[..line.len() - 1]
    } else {
        line
    }
}

/// Whether a line begins with a byte order mark, as the first line of a file may.
fn is_marked(start: u64, bytes: &[u8]) -> bool
    ensures { result ≡ has_mark start bytes.now }
{
    start == 0 && bytes.len() >= 3 && bytes[0] == 0xef && bytes[1] == 0xbb && bytes[2] == 0xbf
}

/// Whether a text is of spaces and tabs alone.
fn is_spaces(text: &[u8]) -> bool
    ensures { result ≡ is_blank Format.Json text.now }
{
    text.iter().all(|b| *b == b' ' || *b == b'\t')
}

/// Whether a line is blank: in CSV an empty one, in JSON one of spaces and tabs.
pub(crate) fn is_blank_line(format: Format, text: &[u8]) -> bool
    ensures { result ≡ is_blank format text.now }
{
    match format {
        Format::Json => is_spaces(text),
        Format::Csv => text.is_empty(),
    }
}

/// The text of a line: without a byte order mark and without one CR at its end.
pub(crate) fn line_text(start: u64, bytes: &[u8]) -> &[u8]
    ensures { let line : CompleteLine = record { start = start; bytes = bytes.now } in result.now ≡ text_of line }
{
    if is_marked(start, bytes) {
        trim_cr(&bytes[3..])
    } else {
        trim_cr(bytes)
    }
}

/// The place of a line's first byte.
pub(crate) fn line_place(start: u64, bytes: &[u8]) -> u64
    ensures { let line : CompleteLine = record { start = start; bytes = bytes.now } in result ≡ first_byte line }
{
    if is_marked(start, bytes) { 3 } else { start }
}

/// Whether a line is the head that begins at this place.
fn is_head_line(head: Option<u64>, start: u64, bytes: &[u8]) -> bool
    ensures { let line : CompleteLine = record { start = start; bytes = bytes.now } in result ≡ is_head head line }
{
    match head {
        Some(place) => line_place(start, bytes) == place,
        None => false,
    }
}

/// Adds a complete line, if it is a row.
fn push_line(
    alloc: Global,
    lines: &mut FreshLines,
    reading: Reading,
    start: u64,
    bytes: &[u8],
) -> Result<(), AllocError>
    ensures { let line : CompleteLine = record { start = start; bytes = bytes.now } in OnOk result (lines.new ≡ lines.old ++ row_line reading.format reading.head reading.number line) }
{
    let text = line_text(start, bytes);
    if is_blank_line(reading.format, text) || is_head_line(reading.head, start, bytes) {
        return Ok(());
    }
    let line = ListOf::from_vec(Vec::from_slice(alloc, text)?);
    lines.push(FreshLine {
        file: reading.number,
        line,
    })
}

/// Goes on with the line that has begun at the next byte of the file.
fn push_byte(
    alloc: Global,
    lines: &mut FreshLines,
    reading: Reading,
    begun: &mut Begun,
    byte: u8,
) -> Result<(), AllocError>
    requires { begun.old.start + length begun.old.bytes.items + 1 < 2 ^ 64 }
    ensures lines { OnOk result (ReadsOn reading.format reading.head reading.number (byte ∷ []) begun.old lines.old begun.new lines.new) }
    ensures end { OnOk result (EndsOn (byte ∷ []) begun.old begun.new) }
    ensures place { OnOk result (begun.new.start + length begun.new.bytes.items ≡ begun.old.start + length begun.old.bytes.items + 1) }
    ensures later { begun.old.start ≤ begun.new.start }
{
    if byte == b'\n' {
        push_line(alloc, lines, reading, begun.start, begun.bytes.as_slice())?;
        begun.start += begun.bytes.len() as u64 + 1;
        begun.bytes.clear();
    } else {
        begun.bytes.push(byte)?;
    }
    Ok(())
}

/// Goes on with the line that has begun at the next piece of the file.
pub(crate) fn push_piece(
    alloc: Global,
    lines: &mut FreshLines,
    reading: Reading,
    begun: &mut Begun,
    piece: &[u8],
) -> Result<(), AllocError>
    requires { begun.old.start + length begun.old.bytes.items + length piece.now < 2 ^ 64 }
    ensures lines { OnOk result (ReadsOn reading.format reading.head reading.number piece.now begun.old lines.old begun.new lines.new) }
    ensures end { OnOk result (EndsOn piece.now begun.old begun.new) }
    ensures place { OnOk result (begun.new.start + length begun.new.bytes.items ≡ begun.old.start + length begun.old.bytes.items + length piece.now) }
    ensures later { begun.old.start ≤ begun.new.start }
{
    for byte in piece {
        push_byte(alloc, lines, reading, begun, *byte)?;
    }
    Ok(())
}
