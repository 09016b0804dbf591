//! The expectations of a dataset over its columns.

ghost use Rattle.std.specs.Prelude.{◌≡◌, ◌++◌, IfOk, OnOk, map, option_map, option_to_list};
ghost use Rattle.std.specs.Option.{option_or};
ghost use Rattle.expr_typing.specs.Typing as typing;
ghost use Rattle.statement_checks.specs.declared.fault.CheckFault.TheVariants.{UnknownName};
ghost use Rattle.statement_checks.specs.Repeats.{first_of};
ghost use Rattle.select_checks.specs.Ends.{Judges};
ghost use Rattle.select_checks.specs.Expecting as spec;
ghost use Rattle.select_checks.specs.Kinded as kinded;

use crate::end::SelectEnd;
use crate::kinded::boolean_tree;
use expr_typing::first_unknown;
use plan_core::{Action, Expectation, Expectations};
use row_expr::Expr;
use sql_tree::{SqlAction, SqlExpr, SqlItem, SqlItems};
use sqlite_items::Boxed;
use statement_checks::CheckFault;
use std::alloc::{AllocError, Global};
use value_core::{ListOf, Name, Schema};

fn action_of(written: SqlAction) -> Action
    ensures { result ≡ spec.action_of written }
{
    match written {
        SqlAction::Warn => Action::Warn,
        SqlAction::DropRow => Action::DropRow,
        SqlAction::FailUpdate => Action::FailUpdate,
    }
}

fn unknown_fault(
    alloc: Global,
    columns: &Schema,
    test: &SqlExpr,
) -> Result<Option<CheckFault>, AllocError>
    ensures { IfOk result (λ fault. fault ≡ option_map UnknownName (typing.first_unknown columns.now test.now)) }
{
    let Some(name) = first_unknown(test, columns.as_slice()) else {
        return Ok(None);
    };
    let name = name.copy(alloc)?;
    Ok(Some(CheckFault::UnknownName { name }))
}

fn expectation_with(
    alloc: Global,
    name: &Name,
    action: SqlAction,
    test: Boxed<Expr>,
) -> Result<Expectation, AllocError>
    ensures { IfOk result (λ made. made ≡ spec.expectation_with name.now action test) }
{
    let name = name.copy(alloc)?;
    Ok(Expectation {
        name,
        test: test.into_inner(),
        action: action_of(action),
    })
}

fn mismatch_fault(
    alloc: Global,
    columns: &Schema,
    test: &SqlExpr,
) -> Result<Option<CheckFault>, AllocError>
    ensures { IfOk result (λ fault. fault ≡ spec.test_is_boolean columns.now test.now) }
{
    let found = boolean_tree(alloc, columns, test)?;
    if found.is_some() {
        Ok(None)
    } else {
        Ok(Some(CheckFault::TypeMismatch))
    }
}

fn test_fault(
    alloc: Global,
    columns: &Schema,
    test: &SqlExpr,
) -> Result<Option<CheckFault>, AllocError>
    ensures { IfOk result (λ fault. fault ≡ option_or (option_map UnknownName (typing.first_unknown columns.now test.now)) (spec.test_is_boolean columns.now test.now)) }
{
    let fault = unknown_fault(alloc, columns, test)?;
    if fault.is_some() {
        return Ok(fault);
    }
    mismatch_fault(alloc, columns, test)
}

fn expectation_fault(
    alloc: Global,
    columns: &Schema,
    item: &SqlItem,
) -> Result<Option<CheckFault>, AllocError>
    ensures { IfOk result (λ fault. fault ≡ spec.expectation_fault columns.now item.now) }
{
    match item {
        SqlItem::Column { name: _, kind: _ } => Ok(None),
        SqlItem::Expect {
            name: _,
            test,
            action: _,
        } => test_fault(alloc, columns, test),
    }
}

/// The fault of the first expectation that breaks a check.
fn expectations_fault(
    alloc: Global,
    columns: &Schema,
    items: &[SqlItem],
) -> Result<Option<CheckFault>, AllocError>
    ensures { IfOk result (λ fault. fault ≡ first_of (map (spec.expectation_fault columns.now) items.now)) }
{
    for item in items {
        let fault = expectation_fault(alloc, columns, item)?;
        if fault.is_some() {
            return Ok(fault);
        }
    }
    Ok(None)
}

fn tested(
    alloc: Global,
    columns: &Schema,
    name: &Name,
    test: &SqlExpr,
    action: SqlAction,
) -> Result<Option<Expectation>, AllocError>
    ensures { IfOk result (λ made. made ≡ option_map (spec.expectation_with name.now action) (kinded.boolean_tree columns.now test.now)) }
{
    let Some(made) = boolean_tree(alloc, columns, test)? else {
        return Ok(None);
    };
    let expectation = expectation_with(alloc, name, action, made)?;
    Ok(Some(expectation))
}

/// The expectation that an item declares, where its test is BOOLEAN.
fn expectation_of(
    alloc: Global,
    columns: &Schema,
    item: &SqlItem,
) -> Result<Option<Expectation>, AllocError>
    ensures { IfOk result (λ made. made ≡ spec.expectation_of columns.now item.now) }
{
    match item {
        SqlItem::Column { name: _, kind: _ } => Ok(None),
        SqlItem::Expect { name, test, action } => tested(alloc, columns, name, test, *action),
    }
}

fn add_expectation(
    alloc: Global,
    expectations: &mut Expectations,
    columns: &Schema,
    item: &SqlItem,
) -> Result<(), AllocError>
    ensures { OnOk result (expectations.new ≡ expectations.old ++ option_to_list (spec.expectation_of columns.now item.now)) }
{
    let Some(made) = expectation_of(alloc, columns, item)? else {
        return Ok(());
    };
    expectations.push(made)?;
    Ok(())
}

fn expectations_given(
    alloc: Global,
    columns: &Schema,
    items: &[SqlItem],
) -> Result<Expectations, AllocError>
    ensures { IfOk result (λ given. given ≡ spec.expectations_given columns.now items.now) }
{
    let mut expectations = ListOf::new(alloc);
    for item in items {
        add_expectation(alloc, &mut expectations, columns, item)?;
    }
    Ok(expectations)
}

/// The expectations that items declare over columns, in declared order (Databricks SQL reference,
/// CREATE STREAMING TABLE, `CONSTRAINT .. EXPECT`). The fault of the first of them that breaks a
/// check is answered: UnknownName of the first name in its test that no column has, else
/// TypeMismatch where the test is not BOOLEAN.
pub fn check_expectations(
    alloc: Global,
    items: &SqlItems,
    columns: &Schema,
) -> Result<Expectations, SelectEnd>
    ensures { Judges (spec.expectations_over items.now columns.now) result }
{
    if let Some(fault) = expectations_fault(alloc, columns, items.as_slice())? {
        return Err(SelectEnd::Fault(fault));
    }
    Ok(expectations_given(alloc, columns, items.as_slice())?)
}
