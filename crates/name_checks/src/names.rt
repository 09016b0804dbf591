//! Names that no dataset has, and flows into views.

ghost use Rattle.std.specs.Prelude.{◌≡◌, ◌≤◌, length, IfOk};
ghost use Rattle.std.specs.Option.{option_copied};
ghost use Rattle.statement_checks.specs.Duplicates.{is_named as named};
ghost use Rattle.name_checks.specs.Names as spec;

use crate::sources::{source_name, target_name, view_name};
use sql_tree::{Statement, Statements};
use statement_checks::{Break, CheckFault, dataset_name};
use std::alloc::{AllocError, Global};
use value_core::Name;

fn is_named(name: &Name, other: Option<&Name>) -> bool
    ensures { result ≡ named name.now (option_copied other.entry) }
{
    match other {
        Some(other) => other.is_same(name),
        None => false,
    }
}

fn is_dataset(statements: &[Statement], name: &Name) -> bool
    ensures { result ≡ spec.has_dataset statements.now name.now }
{
    statements
        .iter()
        .any(|other| is_named(name, dataset_name(other)))
}

fn is_view(statements: &[Statement], name: &Name) -> bool
    ensures { result ≡ spec.has_view statements.now name.now }
{
    statements
        .iter()
        .any(|other| is_named(name, view_name(other)))
}

fn is_known(
    alloc: Global,
    statements: &[Statement],
    name: Option<&Name>,
) -> Result<Option<CheckFault>, AllocError>
    ensures { IfOk result (λ fault. fault ≡ spec.dataset_known statements.now (option_copied name.entry)) }
{
    let Some(name) = name else {
        return Ok(None);
    };
    if is_dataset(statements, name) {
        return Ok(None);
    }
    let name = name.copy(alloc)?;
    Ok(Some(CheckFault::UnknownName { name }))
}

fn is_streaming(
    alloc: Global,
    statements: &[Statement],
    name: Option<&Name>,
) -> Result<Option<CheckFault>, AllocError>
    ensures { IfOk result (λ fault. fault ≡ spec.target_streams statements.now (option_copied name.entry)) }
{
    let Some(name) = name else {
        return Ok(None);
    };
    if !is_view(statements, name) {
        return Ok(None);
    }
    let name = name.copy(alloc)?;
    Ok(Some(CheckFault::NotStreaming { name }))
}

/// The first name of a statement that is wrong: the target's, and then the source's.
fn name_fault(
    alloc: Global,
    statements: &[Statement],
    statement: &Statement,
) -> Result<Option<CheckFault>, AllocError>
    ensures { IfOk result (λ fault. fault ≡ spec.name_fault statements.now statement.now) }
{
    let fault = is_known(alloc, statements, target_name(statement))?;
    if fault.is_some() {
        return Ok(fault);
    }
    let fault = is_streaming(alloc, statements, target_name(statement))?;
    if fault.is_some() {
        return Ok(fault);
    }
    is_known(alloc, statements, source_name(statement))
}

/// The first statement that names a target or a source that is no dataset, or whose flow fills a
/// view, with the name as it spells it; of one statement the target comes first. Names are
/// the same but for the case of ASCII letters. The statements have passed the checks of what they
/// declare, so that they are at most 1,280. Fails for want of memory alone. Compares each name with
/// each dataset's.
pub fn first_break(alloc: Global, statements: &Statements) -> Result<Option<Break>, AllocError>
    requires { length statements.now ≤ 1280 }
    ensures { IfOk result (λ found. found ≡ spec.first_name_break statements.now) }
{
    let list = statements.as_slice();
    let mut number = 1;
    for statement in list {
        if let Some(fault) = name_fault(alloc, list, statement)? {
            return Ok(Some(Break {
                statement: number,
                fault,
            }));
        }
        number += 1;
    }
    Ok(None)
}
