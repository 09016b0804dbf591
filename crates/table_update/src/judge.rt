// Whether the stored definitions are the table's.
ghost use Rattle.std.specs.Prelude.{◌≡◌, ◌↔◌, IsTrue, IfOk, IfErr, MatchOption, None, Some};
ghost use Rattle.store_core.specs.Store.{store_state};
ghost use Rattle.store_state.specs.State.{definitions_of};
ghost use Rattle.table_update.specs.Table.{define};
ghost use Rattle.table_update.specs.Update as spec;

use crate::end::UpdateEnd;
use crate::table::AppendTable;
use commit_records::{Definition, Payload};
use std::alloc::{AllocError, Global};
use store_core::Store;

/// Whether a stored definition is the table's by its name and its text.
fn is_kept(table: &AppendTable, stored: &Definition) -> bool
    ensures { result ≡ spec.is_kept table.now stored.now }
{
    stored.name.is_same(&table.name) && stored.text.as_str() == table.text.as_str()
}

/// The first stored definition that isn't.
fn first_other<'a>(table: &AppendTable, definitions: &'a [Definition]) -> Option<&'a Definition>
    ensures { MatchOption result (spec.first_other_in table.now definitions.now ≡ None) (λ other. spec.first_other_in table.now definitions.now ≡ Some other.now) }
{
    for stored in definitions {
        if !is_kept(table, stored) {
            return Some(stored);
        }
    }
    None
}

/// Why a stored definition is refused that isn't the table's.
fn refusal(alloc: Global, table: &AppendTable, other: &Definition) -> Result<UpdateEnd, AllocError>
    ensures { IfOk result (spec.IsRefusalOf table.now other.now) }
{
    let name = other.name.copy(alloc)?;
    if !other.name.is_same(&table.name) {
        return Ok(UpdateEnd::Removed { name });
    }
    Ok(UpdateEnd::Changed {
        name,
        stored: other.text.copy(alloc)?,
        given: table.text.copy(alloc)?,
    })
}

/// The payload that defines the table, where the store has no dataset yet or the table as it is given.
pub(crate) fn judge(alloc: Global, table: &AppendTable, store: &Store) -> Result<Payload, UpdateEnd>
    ensures ok { IfOk result (λ payload. (payload ≡ define table.now) × spec.MayRun table.now (store_state store.now)) }
    ensures err { IfErr result (spec.JudgeEnds table.now (store_state store.now)) }
{
    if let Some(other) = first_other(table, store.definitions().as_slice()) {
        return Err(refusal(alloc, table, other)?);
    }
    let define = table.define(alloc)?;
    if !store.follows(&define) {
        return Err(UpdateEnd::Unfit {
            name: table.name.copy(alloc)?,
        });
    }
    Ok(define)
}
