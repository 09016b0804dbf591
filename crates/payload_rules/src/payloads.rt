// Whether a payload follows.
ghost use Rattle.std.specs.Prelude.{◌≡◌, ◌↔◌, [], IfOk, IfSome, IsNone, IsTrue, length};
ghost use Rattle.commit_payloads.specs.Payloads.{IsWritable};
ghost use Rattle.state_model.specs.Follows as rules;
ghost use Rattle.state_model.specs.Follows.{AllHaveVersions, Fits, FitsBase, FitsDefine, FitsReset, HasVersions, IsAtLimit, IsFullOf, IsFullTable, MayFollow, WithinVersions};
ghost use Rattle.state_model.specs.Saved.{read_back};

use crate::batch::{fits_refresh, fits_take};
use crate::rows::is_defined;
use commit_payloads::{Definition, Payload, State, write};
use payload_parts::{are_distinct, begins_with, is_store, is_writable, names_differ};
use std::alloc::{AllocError, Global};
use std::sync::ledger::Ledger;
use store_tables::Contents;
use value_core::{Name, Steps};

/// The version at which a dataset takes no further one.
const VERSION_LIMIT: u64 = 1 << 62;

/// Whether a payload may be the next one: it has a spelling, fits what is there, and each dataset to which it adds a
/// version has one left. `Err` for want of memory alone: it takes a copy of the rows and events that it looks at, and the
/// bytes of a payload that follows. It looks at rows and events only where a batch or a refresh removes rows, or brings
/// events.
pub fn follows<L: Ledger>(
    alloc: Global,
    contents: &Contents,
    payload: &Payload,
    steps: &mut Steps<L>,
) -> Result<bool, AllocError>
    ensures follow { IfOk result (λ follow. IsTrue follow ↔ MayFollow contents.now payload.now) }
    ensures form { IfOk result (λ follow. IsTrue follow → IsWritable payload.now) }
{
    if !is_writable(payload) {
        return Ok(false);
    }
    if full_version(contents, payload).is_some() {
        return Ok(false);
    }
    let fit = fits(alloc, contents, payload, steps)?;
    if !fit {
        return Ok(false);
    }
    let _bytes = write(alloc, payload)?;
    Ok(true)
}

/// The dataset to which the payload adds a version, where it stands at the last one, 2^62; of several the first.
pub fn full_version<'a>(contents: &'a Contents, payload: &Payload) -> Option<&'a Name>
    ensures none { IsNone result ↔ WithinVersions contents.now payload.now }
    ensures name { IfSome result (λ name. IsAtLimit contents.now payload.now name.now) }
{
    match payload {
        Payload::Define { .. } => None,
        Payload::Take(batch) => full_table(contents, &batch.table),
        Payload::Refresh(refresh) => full_table(contents, &refresh.view),
        Payload::Reset { names } => first_full(contents, names.as_slice()),
        Payload::Base(_) => None,
    }
}

/// The name of the dataset of a name, where it stands at the last version.
fn full_table<'a>(contents: &'a Contents, name: &Name) -> Option<&'a Name>
    ensures none { IsNone result ↔ HasVersions contents.now name.now }
    ensures name { IfSome result (λ full. IsFullTable contents.now name.now full.now) }
{
    let Some(definition) = contents.definition(name) else {
        return None;
    };
    let Some(table) = contents.table(name) else {
        return None;
    };
    if table.now() < VERSION_LIMIT {
        return None;
    }
    Some(&definition.name)
}

/// The first of these names whose dataset stands at the last version.
fn first_full<'a>(contents: &'a Contents, names: &[Name]) -> Option<&'a Name>
    ensures none { IsNone result ↔ AllHaveVersions contents.now names.now }
    ensures name { IfSome result (λ full. IsFullOf contents.now names.now full.now) }
{
    for name in names {
        if let Some(full) = full_table(contents, name) {
            return Some(full);
        }
    }
    None
}

/// Whether a payload that may be written fits what is there, the limit of versions left aside. `Err` for want of memory
/// alone: it takes a copy of the rows and events that it looks at.
pub fn fits<L: Ledger>(
    alloc: Global,
    contents: &Contents,
    payload: &Payload,
    steps: &mut Steps<L>,
) -> Result<bool, AllocError>
    requires { IsWritable payload.now }
    ensures { IfOk result (λ fits. IsTrue fits ↔ Fits contents.now payload.now) }
{
    match payload {
        Payload::Define { fresh, list } => Ok(fits_define(contents, *fresh, list.as_slice())),
        Payload::Take(batch) => {
            let fits = fits_take(alloc, contents, batch, steps)?;
            Ok(fits)
        }
        Payload::Refresh(refresh) => {
            let fits = fits_refresh(alloc, contents, refresh, steps)?;
            Ok(fits)
        }
        Payload::Reset { names } => Ok(fits_reset(contents, names.as_slice())),
        Payload::Base(state) => {
            let fits = fits_base(alloc, contents, state)?;
            Ok(fits)
        }
    }
}

/// Whether a store has no dataset.
fn has_none(contents: &Contents) -> bool
    ensures { IsTrue result ↔ (contents.now ≡ []) }
{
    contents.definitions().is_empty()
}

/// Whether a base may follow: it begins a log, and is what a store may be.
fn fits_base(alloc: Global, contents: &Contents, state: &State) -> Result<bool, AllocError>
    requires { length state.now.states ≡ length state.now.list }
    ensures { IfOk result (λ fits. IsTrue fits ↔ FitsBase contents.now (read_back state.now)) }
{
    if !has_none(contents) {
        return Ok(false);
    }
    let is = is_store(alloc, state)?;
    Ok(is)
}

/// Whether definitions may follow: no two of one name, and the old ones first, unless all begin anew.
fn fits_define(contents: &Contents, fresh: bool, list: &[Definition]) -> bool
    ensures { IsTrue result ↔ FitsDefine contents.now fresh list.now }
{
    if !are_distinct(list) {
        return false;
    }
    if fresh {
        return true;
    }
    begins_with(list, contents.definitions().as_slice())
}

/// Whether each name is that of a dataset.
fn are_defined(contents: &Contents, names: &[Name]) -> bool
    ensures { result ≡ rules.are_defined contents.now names.now }
{
    for name in names {
        if !is_defined(contents, name) {
            return false;
        }
    }
    true
}

/// Whether a reset of these names may follow.
fn fits_reset(contents: &Contents, names: &[Name]) -> bool
    ensures { IsTrue result ↔ FitsReset contents.now names.now }
{
    if !are_defined(contents, names) {
        return false;
    }
    names_differ(names)
}
