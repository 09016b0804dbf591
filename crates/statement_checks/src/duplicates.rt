//! Names that occur twice.

ghost use Rattle.std.specs.Prelude.{◌≡◌, IfOk, map, option_map};
ghost use Rattle.std.specs.List.{list_any};
ghost use Rattle.std.specs.Option.{option_copied};
ghost use Rattle.statement_checks.specs.Declares as declared;
ghost use Rattle.statement_checks.specs.Duplicates as spec;
ghost use Rattle.statement_checks.specs.Repeats as repeats;
ghost use Rattle.statement_checks.specs.declared.fault.CheckFault.TheVariants.{Duplicate};

use crate::declared::{
    dataset_name, except_names, flow_name, item_name, items_of, some_names, struct_names,
};
use crate::fault::CheckFault;
use crate::repeats::first_repeat;
use sql_tree::{CdcTree, Out, SqlItem, Statement};
use std::alloc::{AllocError, Global};
use value_core::Name;

/// The fault of a name, if there is one.
fn duplicate(alloc: Global, name: Option<&Name>) -> Result<Option<CheckFault>, AllocError>
    ensures { IfOk result (λ fault. fault ≡ option_map Duplicate (option_copied name.entry)) }
{
    let Some(name) = name else {
        return Ok(None);
    };
    let name = name.copy(alloc)?;
    Ok(Some(CheckFault::Duplicate { name }))
}

fn is_named(name: &Name, other: Option<&Name>) -> bool
    ensures { result ≡ spec.is_named name.now (option_copied other.entry) }
{
    match other {
        Some(other) => other.is_same(name),
        None => false,
    }
}

fn has_dataset(statements: &[Statement], name: &Name) -> bool
    ensures { result ≡ list_any (λ other. spec.is_named name.now (declared.dataset_name other)) statements.now }
{
    statements
        .iter()
        .any(|other| is_named(name, dataset_name(other)))
}

fn has_flow(statements: &[Statement], name: &Name) -> bool
    ensures { result ≡ list_any (λ other. spec.is_named name.now (declared.flow_name other)) statements.now }
{
    statements
        .iter()
        .any(|other| is_named(name, flow_name(other)))
}

fn datasets_differ(
    alloc: Global,
    before: &[Statement],
    statement: &Statement,
) -> Result<Option<CheckFault>, AllocError>
    ensures { IfOk result (λ fault. fault ≡ spec.datasets_differ before.now statement.now) }
{
    let Some(name) = dataset_name(statement) else {
        return Ok(None);
    };
    if !has_dataset(before, name) {
        return Ok(None);
    }
    let name = name.copy(alloc)?;
    Ok(Some(CheckFault::Duplicate { name }))
}

fn flows_differ(
    alloc: Global,
    before: &[Statement],
    statement: &Statement,
) -> Result<Option<CheckFault>, AllocError>
    ensures { IfOk result (λ fault. fault ≡ spec.flows_differ before.now statement.now) }
{
    let Some(name) = flow_name(statement) else {
        return Ok(None);
    };
    if !has_flow(before, name) {
        return Ok(None);
    }
    let name = name.copy(alloc)?;
    Ok(Some(CheckFault::Duplicate { name }))
}

fn is_same_item(one: &SqlItem, other: &SqlItem) -> bool
    ensures { result ≡ spec.same_item one.now other.now }
{
    match (one, other) {
        (SqlItem::Column { name: a, kind: _ }, SqlItem::Column { name: b, kind: _ }) => {
            a.is_same(b)
        }
        (
            SqlItem::Expect {
                name: a,
                test: _,
                action: _,
            },
            SqlItem::Expect {
                name: b,
                test: _,
                action: _,
            },
        ) => a.is_same(b),
        _ => false,
    }
}

fn has_item(items: &[SqlItem], item: &SqlItem) -> bool
    ensures { result ≡ list_any (spec.same_item item.now) items.now }
{
    items.iter().any(|other| is_same_item(item, other))
}

/// The name of the first column or expectation that has the name of an earlier one.
fn item_repeat(items: &[SqlItem]) -> Option<&Name>
    ensures { option_copied result ≡ spec.item_repeat items.now }
{
    for at in 0..items.len() {
        if has_item(&items[..at], &items[at]) {
            return Some(item_name(&items[at]));
        }
    }
    None
}

fn items_differ(alloc: Global, statement: &Statement) -> Result<Option<CheckFault>, AllocError>
    ensures { IfOk result (λ fault. fault ≡ spec.items_differ statement.now) }
{
    duplicate(alloc, item_repeat(items_of(statement)))
}

/// The first name behind an EXCEPT that occurs in it before.
fn except_repeat(alloc: Global, outs: &[Out]) -> Result<Option<&Name>, AllocError>
    ensures { IfOk result (λ found. option_copied found ≡ repeats.first_of (map repeats.first_repeat (map declared.except_names outs.now))) }
{
    for output in outs {
        let found = first_repeat(alloc, except_names(output))?;
        if found.is_some() {
            return Ok(found);
        }
    }
    Ok(None)
}

/// The first name of a clause of a change feed that occurs in it before.
fn feed_repeat(alloc: Global, rest: &CdcTree) -> Result<Option<&Name>, AllocError>
    ensures { IfOk result (λ found. option_copied found ≡ repeats.first_of (map repeats.first_repeat (declared.lists_of_cdc rest.now))) }
{
    let found = first_repeat(alloc, rest.keys.as_slice())?;
    if found.is_some() {
        return Ok(found);
    }
    let found = first_repeat(alloc, struct_names(&rest.sequence))?;
    if found.is_some() {
        return Ok(found);
    }
    let found = first_repeat(alloc, some_names(&rest.columns))?;
    if found.is_some() {
        return Ok(found);
    }
    first_repeat(alloc, some_names(&rest.track))
}

fn clause_repeat(alloc: Global, statement: &Statement) -> Result<Option<&Name>, AllocError>
    ensures { IfOk result (λ found. option_copied found ≡ spec.clause_repeat statement.now) }
{
    match statement {
        Statement::Table {
            name: _,
            items: _,
            select,
        } => match select {
            Some(select) => except_repeat(alloc, select.outs.as_slice()),
            None => Ok(None),
        },
        Statement::View {
            name: _,
            items: _,
            select,
        } => except_repeat(alloc, select.outs.as_slice()),
        Statement::Insert {
            flow: _,
            target: _,
            select,
        } => except_repeat(alloc, select.outs.as_slice()),
        Statement::Cdc { flow: _, rest } => feed_repeat(alloc, rest),
    }
}

fn clauses_differ(alloc: Global, statement: &Statement) -> Result<Option<CheckFault>, AllocError>
    ensures { IfOk result (λ fault. fault ≡ spec.clauses_differ statement.now) }
{
    let found = clause_repeat(alloc, statement)?;
    duplicate(alloc, found)
}

/// The first name of a statement that occurs before.
pub(crate) fn name_fault(
    alloc: Global,
    before: &[Statement],
    statement: &Statement,
) -> Result<Option<CheckFault>, AllocError>
    ensures { IfOk result (λ fault. fault ≡ repeats.first_of (spec.name_checks before.now statement.now)) }
{
    let fault = datasets_differ(alloc, before, statement)?;
    if fault.is_some() {
        return Ok(fault);
    }
    let fault = flows_differ(alloc, before, statement)?;
    if fault.is_some() {
        return Ok(fault);
    }
    let fault = items_differ(alloc, statement)?;
    if fault.is_some() {
        return Ok(fault);
    }
    clauses_differ(alloc, statement)
}
