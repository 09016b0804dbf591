// Reading the lines of one listed file in pieces.
ghost use Rattle.std.specs.Prelude.{◌≡◌, ◌+◌, ◌≤◌, ◌++◌, [], length, slice_range, OnOk, IfOk, IfErr};
ghost use Rattle.disk_model.specs.Faults.{HasCauseOf};
ghost use Rattle.landing_core.specs.Folders.{bytes_of};
ghost use Rattle.landing_core.specs.Lines.{complete_len, rows_from};
ghost use Rattle.landing_core.specs.Ends.{IsNoShrinkage};

use crate::ends::LineEnd;
use crate::landing::{Landing, Listed};
use crate::lines::{Begun, FreshLines, Reading, push_piece};
use std::alloc::Global;

/// How many bytes of a file are read at once.
const PIECE: u64 = 1 << 16;

/// Adds the lines of a listed file that end behind its place, and says where the last of them ends.
pub(crate) fn read_lines<L: Landing>(
    alloc: Global,
    landing: &mut L,
    dir: &str,
    listed: &Listed,
    place: u64,
    reading: Reading,
    lines: &mut FreshLines,
) -> Result<u64, LineEnd>
    requires within { place ≤ listed.now.size }
    requires there { L.tells → listed.now.size ≤ length (bytes_of dir.now listed.now.file (L.present landing.old)) }
    ensures lines { L.tells → OnOk result (lines.new ≡ lines.old ++ rows_from reading.format reading.head reading.number place [] (slice_range (bytes_of dir.now listed.now.file (L.present landing.old)) place listed.now.size)) }
    ensures end { L.tells → IfOk result (λ end. end ≡ place + complete_len (slice_range (bytes_of dir.now listed.now.file (L.present landing.old)) place listed.now.size)) }
    ensures later { IfOk result (λ end. place ≤ end) }
    ensures present { L.tells → L.present landing.new ≡ L.present landing.old }
    ensures ever { L.tells → L.ever landing.new ≡ L.ever landing.old }
    ensures err { IfErr result IsNoShrinkage }
    ensures cause { HasCauseOf LineEnd.Failed (L.faults landing.old) (L.faults landing.new) result }
{
    let mut begun = Begun {
        start: place,
        bytes: Vec::new(alloc),
    };
    let mut room = vec![in alloc; 0u8; PIECE.min(listed.size - place) as usize]?;
    let buffer = room.as_mut_slice();
    let mut at = place;
    while at < listed.size {
        let len = PIECE.min(listed.size - at) as usize;
        let piece = &mut buffer[..len];
        landing.read_at(dir, listed.file.as_str(), at, piece)?;
        push_piece(alloc, lines, reading, &mut begun, piece)?;
        at += len as u64;
    }
    Ok(begun.start)
}
