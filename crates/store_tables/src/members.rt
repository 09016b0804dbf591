// The datasets of some names are emptied, and filled again.
ghost use Rattle.std.specs.Prelude.{◌≡◌, ◌<◌, ◌^◌, true, [], length, IfOk, OnOk, OnErr};
ghost use Rattle.std.specs.List.{list_any};
ghost use Rattle.table_versions.specs.Versions.{now_of};
ghost use Rattle.state_model.specs.After.{emptied_if, reset};
ghost use Rattle.state_model.specs.Dataset.{is_defined};
ghost use Rattle.store_tables.specs.Members.{AreNone, FillsAgain, IsNamedIn, MembersHaveVersions};
ghost use Rattle.store_tables.specs.Parts.{joined, side_by_side};
ghost use Rattle.store_tables.specs.Undo.{all_restored, restored_if};

use crate::part::{Part, Rest};
use commit_payloads::Definition;
use std::alloc::{AllocError, Global};
use value_core::Name;

/// Whether one of these names is the dataset's.
fn is_member(names: &[Name], definition: &Definition) -> bool
    ensures { result ≡ list_any (λ name. is_defined name definition.now) names.now }
{
    for name in names {
        if definition.name.is_same(name) {
            return true;
        }
    }
    false
}

/// Empties a dataset where one of these names is its, and gives what was kept of it beside its table.
fn empty_member(
    alloc: Global,
    definition: &Definition,
    part: &mut Part,
    names: &[Name],
) -> Result<Option<Rest>, AllocError>
    requires { IsNamedIn names.now definition.now → now_of part.old.table < 2 ^ 62 }
    ensures emptied { OnOk result (joined definition.now part.new ≡ emptied_if names.now (joined definition.now part.old)) }
    ensures back { IfOk result (λ rest. restored_if rest (joined definition.now part.new) ≡ joined definition.now part.old) }
    ensures err { OnErr result (part.new ≡ part.old) }
{
    if !is_member(names, definition) {
        return Ok(None);
    }
    let rest = part.empty(alloc, definition)?;
    Ok(Some(rest))
}

/// As many places for what is kept of a dataset.
pub(crate) fn no_rests(alloc: Global, parts: &[Part]) -> Result<Vec<Option<Rest>>, AllocError>
    ensures { IfOk result (λ rests. AreNone rests.items parts.now) }
{
    let mut rests = Vec::new(alloc);
    for _part in parts {
        rests.push(None)?;
    }
    Ok(rests)
}

/// Empties the datasets of these names, and puts at the place of each what was kept of it beside its table. `Err` for
/// want of memory alone; then what was emptied is filled again by what is at its place.
pub(crate) fn empty_members(
    alloc: Global,
    list: &[Definition],
    parts: &mut Vec<Part>,
    names: &[Name],
    rests: &mut Vec<Option<Rest>>,
) -> Result<(), AllocError>
    requires long { length list.now ≡ length parts.old.items }
    requires none { AreNone rests.old.items parts.old.items }
    requires limit { MembersHaveVersions names.now (side_by_side list.now parts.old.items) }
    ensures emptied { OnOk result (side_by_side list.now parts.new.items ≡ reset names.now (side_by_side list.now parts.old.items)) }
    ensures back { all_restored rests.new.items (side_by_side list.now parts.new.items) ≡ side_by_side list.now parts.old.items }
    ensures long { length parts.new.items ≡ length parts.old.items }
{
    for (i, definition) in list.iter().enumerate() {
        let rest = empty_member(alloc, definition, &mut parts[i], names)?;
        rests[i] = rest;
    }
    Ok(())
}

/// Fills datasets again by what was kept of each beside its table. Takes no memory.
pub(crate) fn fill_again(parts: &mut Vec<Part>, rests: Vec<Option<Rest>>)
    ensures again { FillsAgain rests.items parts.old.items parts.new.items }
    ensures long { length parts.new.items ≡ length parts.old.items }
{
    let mut left = rests;
    while let Some(rest) = left.pop() {
        let place = left.len();
        if place < parts.len() {
            parts[place].restore_if(rest);
        }
    }
}
