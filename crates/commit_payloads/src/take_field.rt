// Batches and refreshes as fields of bytes.
ghost use Rattle.commit_payloads.specs.PartLaws.{refresh_exact, take_exact};
ghost use Rattle.commit_payloads.specs.Ranges.{IsRefresh, IsTake};
ghost use Rattle.commit_payloads.specs.Reading.{refresh_at, take_at};
ghost use Rattle.commit_payloads.specs.Spelling.{spelled_refresh, spelled_take};

use crate::take::{Refresh, Take};
use segment_rows::Field;
use std::alloc::{AllocError, Global};
use value_core::{Change, Cursor, Events, Name, Tallies};

impl Field for Take {
    ghost spelled = { spelled_take };

    ghost in_range = { IsTake };

    ghost reading = { take_at };

    ghost exact = { take_exact };

    fn put(&self, out: &mut Vec<u8>) -> Result<(), AllocError> {
        self.table.put(out)?;
        self.flow.put(out)?;
        self.cursor.put(out)?;
        self.change.put(out)?;
        self.counts.put(out)?;
        self.events.put(out)
    }

    fn take(alloc: Global, bytes: &[u8], at: usize) -> Result<Option<(Take, usize)>, AllocError> {
        let Some((table, at)) = Name::take(alloc, bytes, at)? else {
            return Ok(None);
        };
        let Some((flow, at)) = Name::take(alloc, bytes, at)? else {
            return Ok(None);
        };
        let Some((cursor, at)) = Cursor::take(alloc, bytes, at)? else {
            return Ok(None);
        };
        let Some((change, at)) = Change::take(alloc, bytes, at)? else {
            return Ok(None);
        };
        let Some((counts, at)) = Tallies::take(alloc, bytes, at)? else {
            return Ok(None);
        };
        let Some((events, at)) = Events::take(alloc, bytes, at)? else {
            return Ok(None);
        };
        let take = Take {
            table,
            flow,
            cursor,
            change,
            counts,
            events,
        };
        Ok(Some((take, at)))
    }
}

impl Field for Refresh {
    ghost spelled = { spelled_refresh };

    ghost in_range = { IsRefresh };

    ghost reading = { refresh_at };

    ghost exact = { refresh_exact };

    fn put(&self, out: &mut Vec<u8>) -> Result<(), AllocError> {
        self.view.put(out)?;
        self.cursor.put(out)?;
        self.change.put(out)?;
        self.counts.put(out)
    }

    fn take(
        alloc: Global,
        bytes: &[u8],
        at: usize,
    ) -> Result<Option<(Refresh, usize)>, AllocError> {
        let Some((view, at)) = Name::take(alloc, bytes, at)? else {
            return Ok(None);
        };
        let Some((cursor, at)) = Cursor::take(alloc, bytes, at)? else {
            return Ok(None);
        };
        let Some((change, at)) = Change::take(alloc, bytes, at)? else {
            return Ok(None);
        };
        let Some((counts, at)) = Tallies::take(alloc, bytes, at)? else {
            return Ok(None);
        };
        let refresh = Refresh {
            view,
            cursor,
            change,
            counts,
        };
        Ok(Some((refresh, at)))
    }
}
