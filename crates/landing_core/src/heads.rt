// The heads of CSV files.
ghost use Rattle.std.specs.Prelude.{◌≡◌, ◌+◌, ◌<◌, ◌≤◌, ◌^◌, ◌∷◌, [], ℕ, List, true, length, IfOk, IfErr, IfNone, OnOk};
ghost use Rattle.disk_model.specs.Faults.{HasCauseOf};
ghost use Rattle.landing_core.specs.Ends.{IsNoShrinkage};
ghost use Rattle.landing_core.specs.Folders.{bytes_of};
ghost use Rattle.landing_core.specs.Fresh.{head_in};
ghost use Rattle.landing_core.specs.Pieces.{FindsOn, IsHead};

use crate::ends::LineEnd;
use crate::landing::{Landing, Listed};
use crate::lines::{Begun, is_blank_line, line_place, line_text};
use std::alloc::{AllocError, Global};
use value_core::{Format, Line, ListOf};

/// How many bytes of a file are read at once where its head is sought.
const PIECE: u64 = 1 << 12;

/// How the lines of files are read: in which format, and whether CSV files have a header.
#[derive(Clone, Copy)]
pub(crate) struct Form {
    pub format: Format,
    pub header: bool,
}

/// The head of a file: where it begins, if the file has one, and its text, which is empty if not.
#[derive(Drop)]
pub(crate) struct Head {
    pub place: Option<u64>,
    pub text: Line,
}

/// Goes on with the line that has begun at the next byte: the head, if that ends it.
fn seek_byte(alloc: Global, begun: &mut Begun, byte: u8) -> Result<Option<Head>, AllocError>
    requires { begun.old.start + length begun.old.bytes.items + 1 < 2 ^ 64 }
    ensures head { IfOk result (FindsOn (byte ∷ []) begun.old begun.new) }
    ensures place { IfOk result (λ head. IfNone head (begun.new.start + length begun.new.bytes.items ≡ begun.old.start + length begun.old.bytes.items + 1)) }
{
    if byte != b'\n' {
        begun.bytes.push(byte)?;
        return Ok(None);
    }
    let bytes = begun.bytes.as_slice();
    let text = line_text(begun.start, bytes);
    if !is_blank_line(Format::Csv, text) {
        return Ok(Some(Head {
            place: Some(line_place(begun.start, bytes)),
            text: ListOf::from_vec(Vec::from_slice(alloc, text)?),
        }));
    }
    begun.start += begun.bytes.len() as u64 + 1;
    begun.bytes.clear();
    Ok(None)
}

/// Goes on with the line that has begun at the next piece: the head, if it ends in there.
fn seek_piece(alloc: Global, begun: &mut Begun, piece: &[u8]) -> Result<Option<Head>, AllocError>
    requires { begun.old.start + length begun.old.bytes.items + length piece.now < 2 ^ 64 }
    ensures head { IfOk result (FindsOn piece.now begun.old begun.new) }
    ensures place { IfOk result (λ head. IfNone head (begun.new.start + length begun.new.bytes.items ≡ begun.old.start + length begun.old.bytes.items + length piece.now)) }
{
    for byte in piece {
        if let Some(head) = seek_byte(alloc, begun, *byte)? {
            return Ok(Some(head));
        }
    }
    Ok(None)
}

/// The head of a CSV file with a header: its first line that isn't blank. The file is read up to
/// the end of the piece in which that line ends.
fn read_head<L: Landing>(
    alloc: Global,
    landing: &mut L,
    dir: &str,
    listed: &Listed,
) -> Result<Head, LineEnd>
    requires { L.tells → listed.now.size ≤ length (bytes_of dir.now listed.now.file (L.present landing.old)) }
    ensures head { L.tells → IfOk result (λ head. IsHead head (head_in Format.Csv true dir.now (L.present landing.old) listed.now)) }
    ensures present { L.tells → L.present landing.new ≡ L.present landing.old }
    ensures ever { L.tells → L.ever landing.new ≡ L.ever landing.old }
    ensures err { IfErr result IsNoShrinkage }
    ensures cause { HasCauseOf LineEnd.Failed (L.faults landing.old) (L.faults landing.new) result }
{
    let mut begun = Begun {
        start: 0,
        bytes: Vec::new(alloc),
    };
    let mut room = vec![in alloc; 0u8; PIECE.min(listed.size) as usize]?;
    let buffer = room.as_mut_slice();
    let mut at = 0;
    while at < listed.size {
        let len = PIECE.min(listed.size - at) as usize;
        let piece = &mut buffer[..len];
        landing.read_at(dir, listed.file.as_str(), at, piece)?;
        if let Some(head) = seek_piece(alloc, &mut begun, piece)? {
            return Ok(head);
        }
        at += len as u64;
    }
    Ok(Head {
        place: None,
        text: ListOf::new(alloc),
    })
}

/// The head of a listed file.
pub(crate) fn find_head<L: Landing>(
    alloc: Global,
    landing: &mut L,
    dir: &str,
    form: Form,
    listed: &Listed,
) -> Result<Head, LineEnd>
    requires { L.tells → listed.now.size ≤ length (bytes_of dir.now listed.now.file (L.present landing.old)) }
    ensures head { L.tells → IfOk result (λ head. IsHead head (head_in form.format form.header dir.now (L.present landing.old) listed.now)) }
    ensures present { L.tells → L.present landing.new ≡ L.present landing.old }
    ensures ever { L.tells → L.ever landing.new ≡ L.ever landing.old }
    ensures err { IfErr result IsNoShrinkage }
    ensures cause { HasCauseOf LineEnd.Failed (L.faults landing.old) (L.faults landing.new) result }
{
    match form.format {
        Format::Csv if form.header => read_head(alloc, landing, dir, listed),
        _ => Ok(Head {
            place: None,
            text: ListOf::new(alloc),
        }),
    }
}
