// Which batches and refreshes may follow.
ghost use Rattle.std.specs.Prelude.{◌≡◌, ◌↔◌, IfOk, IsTrue, IsSomeAnd, true};
ghost use Rattle.std.specs.List.{list_all};
ghost use Rattle.value_core.specs.Changes.{Holds};
ghost use Rattle.state_model.specs.Dataset.{content, dataset_of};
ghost use Rattle.state_model.specs.Follows as rules;
ghost use Rattle.state_model.specs.Follows.{FitsRefresh, FitsTake};
ghost use Rattle.payload_rules.specs.Batches.{FitsDefinition, FitsView};

use crate::cursors::{flow_moves, own_flow_moves};
use crate::rows::{are_there, is_defined};
use commit_payloads::{Definition, Refresh, Take};
use payload_parts::{all_fit, are_counts, are_new, counts_fit, events_fit, is_append, is_view};
use std::alloc::{AllocError, Global};
use std::sync::ledger::Ledger;
use store_tables::Contents;
use value_core::{Name, Rows, Steps};

/// Whether a batch is one for the table of a definition.
fn fits_definition(definition: &Definition, batch: &Take) -> bool
    ensures { IsTrue result ↔ FitsDefinition batch.now definition.now }
{
    if is_view(definition) {
        return false;
    }
    if is_append(definition) && !batch.change.removed.is_empty() {
        return false;
    }
    if is_append(definition) && !batch.events.is_empty() {
        return false;
    }
    if !all_fit(definition.columns.as_slice(), batch.change.added.as_slice()) {
        return false;
    }
    batch.counts.len() == definition.expectations.len()
}

/// Whether a refresh is one for the view of a definition.
fn fits_view(definition: &Definition, refresh: &Refresh) -> bool
    ensures { IsTrue result ↔ FitsView refresh.now definition.now }
{
    if !is_view(definition) {
        return false;
    }
    if !all_fit(
        definition.columns.as_slice(),
        refresh.change.added.as_slice(),
    ) {
        return false;
    }
    if refresh.counts.len() != definition.expectations.len() {
        return false;
    }
    are_counts(
        definition.expectations.as_slice(),
        refresh.counts.as_slice(),
    )
}

/// Whether the table of a batch is there, and the batch is one for it.
fn is_for_table(contents: &Contents, batch: &Take) -> bool
    ensures { IsTrue result ↔ IsSomeAnd (dataset_of contents.now batch.now.table) (λ dataset. FitsDefinition batch.now dataset.definition) }
{
    match contents.definition(&batch.table) {
        Some(definition) => fits_definition(definition, batch),
        None => false,
    }
}

/// Whether the view of a refresh is there, and the refresh is one for it.
fn is_for_view(contents: &Contents, refresh: &Refresh) -> bool
    ensures { IsTrue result ↔ IsSomeAnd (dataset_of contents.now refresh.now.view) (λ dataset. FitsView refresh.now dataset.definition) }
{
    match contents.definition(&refresh.view) {
        Some(definition) => fits_view(definition, refresh),
        None => false,
    }
}

/// Whether the counts that a batch adds leave each count within its limit.
fn counts_are_within(contents: &Contents, batch: &Take) -> bool
    ensures { IsTrue result ↔ IsSomeAnd (dataset_of contents.now batch.now.table) (λ dataset. rules.counts_fit dataset.counts batch.now.counts ≡ true) }
{
    match contents.tallies(&batch.table) {
        Some(counts) => counts_fit(counts.as_slice(), batch.counts.as_slice()),
        None => false,
    }
}

/// Whether the events of a batch have the parts that its table gives them.
fn events_have_parts(alloc: Global, contents: &Contents, batch: &Take) -> Result<bool, AllocError>
    ensures { IfOk result (λ fit. IsTrue fit ↔ IsSomeAnd (dataset_of contents.now batch.now.table) (λ dataset. list_all (rules.event_fits dataset.definition) batch.now.events ≡ true)) }
{
    let Some(definition) = contents.definition(&batch.table) else {
        return Ok(false);
    };
    let fit = events_fit(alloc, definition, batch.events.as_slice())?;
    Ok(fit)
}

/// Whether no event of a batch is of the moment of a kept one or of an earlier one. It hands itself the kept events only
/// where there are events to be new.
fn events_are_new<L: Ledger>(
    alloc: Global,
    contents: &Contents,
    batch: &Take,
    steps: &mut Steps<L>,
) -> Result<bool, AllocError>
    ensures { IfOk result (λ new. IsTrue new ↔ IsSomeAnd (dataset_of contents.now batch.now.table) (λ dataset. rules.are_new dataset.events batch.now.events ≡ true)) }
{
    if batch.events.is_empty() {
        return Ok(is_defined(contents, &batch.table));
    }
    let Some(kept) = contents.events(&batch.table, steps) else {
        return Ok(false);
    };
    let new = are_new(alloc, kept.as_slice(), batch.events.as_slice())?;
    Ok(new)
}

/// Whether a dataset is there and has these rows, each as often as it is there.
fn has_rows<L: Ledger>(
    alloc: Global,
    contents: &Contents,
    name: &Name,
    rows: &Rows,
    steps: &mut Steps<L>,
) -> Result<bool, AllocError>
    ensures { IfOk result (λ has. IsTrue has ↔ IsSomeAnd (dataset_of contents.now name.now) (λ dataset. Holds (content dataset) rows.now)) }
{
    let Some(table) = contents.table(name) else {
        return Ok(false);
    };
    let are = are_there(alloc, table, rows, steps)?;
    Ok(are)
}

/// Whether a batch fits its table, the limit of versions left aside.
pub(crate) fn fits_take<L: Ledger>(
    alloc: Global,
    contents: &Contents,
    batch: &Take,
    steps: &mut Steps<L>,
) -> Result<bool, AllocError>
    ensures { IfOk result (λ fits. IsTrue fits ↔ IsSomeAnd (dataset_of contents.now batch.now.table) (FitsTake contents.now batch.now)) }
{
    if !is_for_table(contents, batch) {
        return Ok(false);
    }
    if !counts_are_within(contents, batch) {
        return Ok(false);
    }
    if !flow_moves(contents, &batch.table, &batch.flow, &batch.cursor) {
        return Ok(false);
    }
    let parts = events_have_parts(alloc, contents, batch)?;
    if !parts {
        return Ok(false);
    }
    let new = events_are_new(alloc, contents, batch, steps)?;
    if !new {
        return Ok(false);
    }
    let has = has_rows(alloc, contents, &batch.table, &batch.change.removed, steps)?;
    Ok(has)
}

/// Whether a refresh fits its view, the limit of versions left aside.
pub(crate) fn fits_refresh<L: Ledger>(
    alloc: Global,
    contents: &Contents,
    refresh: &Refresh,
    steps: &mut Steps<L>,
) -> Result<bool, AllocError>
    ensures { IfOk result (λ fits. IsTrue fits ↔ IsSomeAnd (dataset_of contents.now refresh.now.view) (FitsRefresh contents.now refresh.now)) }
{
    if !is_for_view(contents, refresh) {
        return Ok(false);
    }
    if !own_flow_moves(contents, &refresh.view, &refresh.cursor) {
        return Ok(false);
    }
    let has = has_rows(
        alloc,
        contents,
        &refresh.view,
        &refresh.change.removed,
        steps,
    )?;
    Ok(has)
}
