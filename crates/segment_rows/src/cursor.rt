// Places in files, and cursors.
ghost use Rattle.std.specs.Prelude.{◌≤◌, IfOk, length};
ghost use Rattle.value_core.specs.declared.cursor.Cursor.TheVariants.{Files, At};
ghost use Rattle.segment_rows.specs.PartLaws.{place_exact, cursor_exact};
ghost use Rattle.segment_rows.specs.Ranges.{IsPlace, IsCursor};
ghost use Rattle.segment_rows.specs.Reading.{Reads, cursor_at, list_at, made_at, number_at, place_at};
ghost use Rattle.segment_rows.specs.Spelling.{spelled_place, spelled_cursor};

use crate::field::Field;
use crate::number::{take_byte, take_number};
use std::alloc::{AllocError, Global};
use value_core::{Cursor, FilePlace, FilePlaces, Text};

impl Field for FilePlace {
    ghost spelled = { spelled_place };

    ghost in_range = { IsPlace };

    ghost reading = { place_at };

    ghost exact = { place_exact };

    fn put(&self, out: &mut Vec<u8>) -> Result<(), AllocError> {
        self.file.put(out)?;
        self.place.put(out)
    }

    fn take(
        alloc: Global,
        bytes: &[u8],
        at: usize,
    ) -> Result<Option<(FilePlace, usize)>, AllocError> {
        let Some((file, at)) = Text::take(alloc, bytes, at)? else {
            return Ok(None);
        };
        let Some((place, at)) = u64::take(alloc, bytes, at)? else {
            return Ok(None);
        };
        Ok(Some((FilePlace { file, place }, at)))
    }
}

fn take_files(alloc: Global, bytes: &[u8], at: usize) -> Result<Option<(Cursor, usize)>, AllocError>
    requires { at ≤ length bytes.now }
    ensures { IfOk result (λ found. Reads (made_at Files (list_at place_at)) bytes.now at found) }
{
    let Some((places, end)) = FilePlaces::take(alloc, bytes, at)? else {
        return Ok(None);
    };
    Ok(Some((Cursor::Files(places), end)))
}

fn take_version(bytes: &[u8], at: usize) -> Option<(Cursor, usize)>
    requires { at ≤ length bytes.now }
    ensures { Reads (made_at At number_at) bytes.now at result }
{
    let (version, end) = take_number(bytes, at)?;
    Some((Cursor::At(version), end))
}

impl Field for Cursor {
    ghost spelled = { spelled_cursor };

    ghost in_range = { IsCursor };

    ghost reading = { cursor_at };

    ghost exact = { cursor_exact };

    fn put(&self, out: &mut Vec<u8>) -> Result<(), AllocError> {
        match self {
            Cursor::Files(places) => {
                out.push(0)?;
                places.put(out)
            }
            Cursor::At(version) => {
                out.push(1)?;
                version.put(out)
            }
            Cursor::Never => Ok(out.push(2)?),
        }
    }

    #[tactic(auto, unfolding(crate::specs::Reading::tagged_at))]
    fn take(alloc: Global, bytes: &[u8], at: usize) -> Result<Option<(Cursor, usize)>, AllocError> {
        let Some((tag, at)) = take_byte(bytes, at) else {
            return Ok(None);
        };
        if tag == 0 {
            take_files(alloc, bytes, at)
        } else if tag == 1 {
            Ok(take_version(bytes, at))
        } else if tag == 2 {
            Ok(Some((Cursor::Never, at)))
        } else {
            Ok(None)
        }
    }
}
