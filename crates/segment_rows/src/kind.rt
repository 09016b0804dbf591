// Kinds and columns.
ghost use Rattle.std.specs.Prelude.{◌≡◌, ⊤};
ghost use Rattle.segment_rows.specs.PartLaws.{kind_exact, column_exact};
ghost use Rattle.segment_rows.specs.Ranges.{IsColumn};
ghost use Rattle.segment_rows.specs.Reading.{coded_at, column_at};
ghost use Rattle.segment_rows.specs.Reading as reading;
ghost use Rattle.segment_rows.specs.Spelling as spelling;
ghost use Rattle.segment_rows.specs.Spelling.{spelled_kind, spelled_column};

use crate::field::Field;
use crate::number::take_byte;
use std::alloc::{AllocError, Global};
use value_core::{Column, Kind, Name};

fn kind_byte(kind: Kind) -> u8
    ensures { result ≡ spelling.kind_byte kind }
{
    match kind {
        Kind::Bool => 1,
        Kind::Int => 2,
        Kind::Big => 3,
        Kind::Str => 4,
    }
}

fn kind_of(byte: u8) -> Option<Kind>
    ensures { result ≡ reading.kind_of byte }
{
    match byte {
        1 => Some(Kind::Bool),
        2 => Some(Kind::Int),
        3 => Some(Kind::Big),
        4 => Some(Kind::Str),
        _ => None,
    }
}

impl Field for Kind {
    ghost spelled = { spelled_kind };

    ghost in_range = { λ kind. ⊤ };

    ghost reading = { coded_at reading.kind_of };

    ghost exact = { kind_exact };

    fn put(&self, out: &mut Vec<u8>) -> Result<(), AllocError> {
        out.push(kind_byte(*self))?;
        Ok(())
    }

    #[tactic(auto, unfolding(crate::specs::Reading::coded_at))]
    fn take(_alloc: Global, bytes: &[u8], at: usize) -> Result<Option<(Kind, usize)>, AllocError> {
        let Some((byte, end)) = take_byte(bytes, at) else {
            return Ok(None);
        };
        match kind_of(byte) {
            Some(kind) => Ok(Some((kind, end))),
            None => Ok(None),
        }
    }
}

impl Field for Column {
    ghost spelled = { spelled_column };

    ghost in_range = { IsColumn };

    ghost reading = { column_at };

    ghost exact = { column_exact };

    fn put(&self, out: &mut Vec<u8>) -> Result<(), AllocError> {
        self.name.put(out)?;
        self.kind.put(out)
    }

    fn take(alloc: Global, bytes: &[u8], at: usize) -> Result<Option<(Column, usize)>, AllocError> {
        let Some((name, at)) = Name::take(alloc, bytes, at)? else {
            return Ok(None);
        };
        let Some((kind, at)) = Kind::take(alloc, bytes, at)? else {
            return Ok(None);
        };
        Ok(Some((Column { name, kind }, at)))
    }
}
