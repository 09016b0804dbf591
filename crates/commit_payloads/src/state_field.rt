// What is kept of datasets, as fields of bytes.
ghost use Rattle.std.specs.Prelude.{◌≡◌, ◌≤◌, ◌++◌, length, IfOk, OnOk};
ghost use Rattle.std.specs.List.{flat_map, AllByRecursion};
ghost use Rattle.segment_rows.specs.Reading.{Reads, items_at};
ghost use Rattle.commit_payloads.specs.PartLaws.{dataset_state_exact};
ghost use Rattle.commit_payloads.specs.Ranges.{IsDatasetState};
ghost use Rattle.commit_payloads.specs.Reading.{dataset_state_at};
ghost use Rattle.commit_payloads.specs.Spelling.{spelled_dataset_state};

use crate::state::{DatasetState, DatasetStates};
use segment_rows::Field;
use std::alloc::{AllocError, Global};
use value_core::{Changes, Cursors, Events, ListOf, Rows, Tallies};

impl Field for DatasetState {
    ghost spelled = { spelled_dataset_state };

    ghost in_range = { IsDatasetState };

    ghost reading = { dataset_state_at };

    ghost exact = { dataset_state_exact };

    fn put(&self, out: &mut Vec<u8>) -> Result<(), AllocError> {
        self.base.put(out)?;
        self.rows.put(out)?;
        self.changes.put(out)?;
        self.cursors.put(out)?;
        self.counts.put(out)?;
        self.events.put(out)
    }

    fn take(
        alloc: Global,
        bytes: &[u8],
        at: usize,
    ) -> Result<Option<(DatasetState, usize)>, AllocError> {
        let Some((base, at)) = u64::take(alloc, bytes, at)? else {
            return Ok(None);
        };
        let Some((rows, at)) = Rows::take(alloc, bytes, at)? else {
            return Ok(None);
        };
        let Some((changes, at)) = Changes::take(alloc, bytes, at)? else {
            return Ok(None);
        };
        let Some((cursors, at)) = Cursors::take(alloc, bytes, at)? else {
            return Ok(None);
        };
        let Some((counts, at)) = Tallies::take(alloc, bytes, at)? else {
            return Ok(None);
        };
        let Some((events, at)) = Events::take(alloc, bytes, at)? else {
            return Ok(None);
        };
        let state = DatasetState {
            base,
            rows,
            changes,
            cursors,
            counts,
            events,
        };
        Ok(Some((state, at)))
    }
}

/// Appends the spellings of states, one behind the other, without their number.
pub(crate) fn put_states(states: &[DatasetState], out: &mut Vec<u8>) -> Result<(), AllocError>
    ensures bytes { OnOk result (out.new.items ≡ out.old.items ++ flat_map spelled_dataset_state states.now) }
    ensures range { OnOk result (AllByRecursion IsDatasetState states.now) }
{
    for state in states {
        state.put(out)?;
    }
    Ok(())
}

/// Reads so many states, one behind the other.
pub(crate) fn take_states(
    alloc: Global,
    count: usize,
    bytes: &[u8],
    at: usize,
) -> Result<Option<(DatasetStates, usize)>, AllocError>
    requires { at ≤ length bytes.now }
    ensures { IfOk result (λ found. Reads (items_at dataset_state_at count) bytes.now at found) }
{
    let mut states = ListOf::new(alloc);
    let mut place = at;
    for _ in 0..count {
        let Some((state, end)) = DatasetState::take(alloc, bytes, place)? else {
            return Ok(None);
        };
        states.push(state)?;
        place = end;
    }
    Ok(Some((states, place)))
}
