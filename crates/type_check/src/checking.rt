ghost use Rattle.std.specs.Prelude.{◌≡◌, [], ◌∷◌, Ok, Err, IfOk, IfErr};
ghost use Rattle.plan_core.specs.Sound.{IsSoundPlan};
ghost use Rattle.type_check.specs.Form as form;
ghost use Rattle.type_check.specs.Rules as spec;

use crate::fault::{CheckFault, CheckRefusal, TableEnd};
use crate::form::is_built;
use crate::table::table_of;
use plan_core::{Dataset, Plan};
use sql_tree::{Statement, Statements};
use std::alloc::{AllocError, Global};

/// The plan of one dataset.
fn plan_of(alloc: Global, dataset: Dataset) -> Result<Plan, AllocError>
    ensures { IfOk result (λ plan. plan ≡ dataset ∷ []) }
{
    let mut plan = Plan::new(alloc);
    plan.add(alloc, dataset)?;
    Ok(plan)
}

/// The plan of one statement.
fn plan_by(
    alloc: Global,
    statements: &Statements,
    statement: &Statement,
) -> Result<Plan, CheckRefusal>
    ensures plan { IfOk result (λ plan. spec.IsOne (spec.text_of statements.now) (form.form_of statement.now) (Ok plan)) }
    ensures refused { IfErr result (λ end. spec.OnRefused end (λ at fault. spec.IsOne (spec.text_of statements.now) (form.form_of statement.now) (spec.broken_at at fault))) }
{
    match table_of(alloc, statements, statement) {
        Ok(dataset) => {
            let plan = plan_of(alloc, dataset)?;
            Ok(plan)
        }
        Err(TableEnd::Fault(fault)) => Err(CheckRefusal::Refused {
            statement: 1,
            fault,
        }),
        Err(TableEnd::Memory) => Err(CheckRefusal::Memory),
    }
}

/// The plan of a pipeline's statements (Databricks SQL reference, CREATE STREAMING TABLE), or the
/// first check that they break. First a statement that is not of the built form is refused: that is
/// one streaming table without expectations, whose AS selects `*` or plain columns, without WHERE,
/// from `read_files`. Then come, in this order: declared columns of one name or too many; the
/// options; `read_files` without STREAM; GROUP BY; an output that no column is; outputs of one name
/// or too many; declared columns that are not the table's. Of columns or outputs that are more than
/// 256 the first 257 alone are built and compared: a name that repeats among them is told, and else
/// that they are too many.
pub fn check(alloc: Global, statements: &Statements) -> Result<Plan, CheckRefusal>
    ensures plan { IfOk result (λ plan. spec.Checked statements.now (Ok plan)) }
    ensures refused { IfErr result (λ end. spec.OnRefused end (λ at fault. spec.Checked statements.now (spec.broken_at at fault))) }
    ensures sound { IfOk result (λ plan. IsSoundPlan plan) }
{
    match statements.as_slice() {
        [] => Ok(Plan::new(alloc)),
        [statement] => match plan_by(alloc, statements, statement) {
            Ok(plan) => Ok(plan),
            Err(end) => Err(end),
        },
        [first, ..] => Err(CheckRefusal::Refused {
            statement: if is_built(first) { 2 } else { 1 },
            fault: CheckFault::NotYet,
        }),
    }
}
