// Changes and counts.
ghost use Rattle.segment_rows.specs.PartLaws.{change_exact, tally_exact};
ghost use Rattle.segment_rows.specs.Ranges.{IsChange, IsTally};
ghost use Rattle.segment_rows.specs.Reading.{change_at, tally_at};
ghost use Rattle.segment_rows.specs.Spelling.{spelled_change, spelled_tally};

use crate::field::Field;
use std::alloc::{AllocError, Global};
use value_core::{Change, Rows, Tally};

impl Field for Change {
    ghost spelled = { spelled_change };

    ghost in_range = { IsChange };

    ghost reading = { change_at };

    ghost exact = { change_exact };

    fn put(&self, out: &mut Vec<u8>) -> Result<(), AllocError> {
        self.removed.put(out)?;
        self.added.put(out)
    }

    fn take(alloc: Global, bytes: &[u8], at: usize) -> Result<Option<(Change, usize)>, AllocError> {
        let Some((removed, at)) = Rows::take(alloc, bytes, at)? else {
            return Ok(None);
        };
        let Some((added, at)) = Rows::take(alloc, bytes, at)? else {
            return Ok(None);
        };
        Ok(Some((Change { removed, added }, at)))
    }
}

impl Field for Tally {
    ghost spelled = { spelled_tally };

    ghost in_range = { IsTally };

    ghost reading = { tally_at };

    ghost exact = { tally_exact };

    fn put(&self, out: &mut Vec<u8>) -> Result<(), AllocError> {
        self.passed.put(out)?;
        self.failed.put(out)
    }

    fn take(alloc: Global, bytes: &[u8], at: usize) -> Result<Option<(Tally, usize)>, AllocError> {
        let Some((passed, at)) = u64::take(alloc, bytes, at)? else {
            return Ok(None);
        };
        let Some((failed, at)) = u64::take(alloc, bytes, at)? else {
            return Ok(None);
        };
        Ok(Some((Tally { passed, failed }, at)))
    }
}
