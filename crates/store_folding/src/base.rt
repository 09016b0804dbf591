// A store's datasets as one record.
ghost use Rattle.std.specs.Prelude.{◌≡◌, IfOk};
ghost use Rattle.commit_payloads.specs.declared.payload.Payload.TheVariants.{Base};
ghost use Rattle.state_model.specs.Saved.{compacted, folded_for, kept_of, saved};
ghost use Rattle.store_folding.specs.Folding.{folded_states, table_for};
ghost use Rattle.store_tables.specs.Kept.{dataset_of_kept};

use crate::copies::{copy_cursors, copy_definitions, copy_events, copy_tallies};
use crate::readers::base_of;
use commit_payloads::{DatasetState, DatasetStates, Payload, State};
use std::alloc::{AllocError, Global};
use std::sync::ledger::Ledger;
use store_tables::{Contents, Kept};
use table_versions::{Table, VersionEnd};
use value_core::{ListOf, Name, Steps};

/// A table with the versions folded away that nobody has still to read.
fn folded_table<L: Ledger>(
    alloc: Global,
    contents: &Contents,
    name: &Name,
    table: &Table,
    steps: &mut Steps<L>,
) -> Result<Table, AllocError>
    ensures { IfOk result (λ new. new ≡ table_for contents.now name.now table.now) }
{
    let base = base_of(contents, name, table);
    match table.fold_base(alloc, base, steps) {
        Ok(table) => Ok(table),
        Err(VersionEnd::Memory) => Err(AllocError),
        // A base that is due lies between the base that is there and the version now.
        Err(VersionEnd::NoVersion { .. }) => unreachable!(),
    }
}

/// What is kept of a dataset, folded.
fn folded_state<L: Ledger>(
    alloc: Global,
    contents: &Contents,
    kept: &Kept<'_>,
    steps: &mut Steps<L>,
) -> Result<DatasetState, AllocError>
    ensures { IfOk result (λ state. state ≡ kept_of (folded_for contents.now (dataset_of_kept kept.now))) }
{
    let table = folded_table(alloc, contents, &kept.definition.name, kept.table, steps)?;
    let (base, rows, changes) = table.into_parts();
    Ok(DatasetState {
        base,
        rows,
        changes,
        cursors: copy_cursors(alloc, kept.cursors)?,
        counts: copy_tallies(alloc, kept.counts.as_slice())?,
        events: copy_events(alloc, kept.events)?,
    })
}

/// What is kept of each dataset, folded.
fn states_of<L: Ledger>(
    alloc: Global,
    contents: &Contents,
    steps: &mut Steps<L>,
) -> Result<DatasetStates, AllocError>
    ensures { IfOk result (λ states. states ≡ folded_states contents.now) }
{
    let mut states = ListOf::new(alloc);
    for place in 0..contents.definitions().len() {
        let Some(kept) = contents.kept_at(place, steps) else {
            return Ok(states);
        };
        states.push(folded_state(alloc, contents, &kept, steps)?)?;
    }
    Ok(states)
}

/// The datasets of a store as the one record that begins its next log: each dataset's base is the least version at which a
/// flow or view stands that reads it, or its version now where none does, and a base never falls. The contents stay as they
/// are. Fails for want of memory alone. It counts the looks of each fold, and one for each event.
pub fn fold<L: Ledger>(
    alloc: Global,
    contents: &Contents,
    steps: &mut Steps<L>,
) -> Result<Payload, AllocError>
    ensures { IfOk result (λ payload. payload ≡ Base (saved (compacted contents.now))) }
{
    let list = copy_definitions(alloc, contents.definitions().as_slice())?;
    let states = states_of(alloc, contents, steps)?;
    Ok(Payload::Base(State { list, states }))
}
