// What a row of a flow that appends comes to.
ghost use Rattle.std.specs.Prelude.{◌≡◌, IfOk, length};
ghost use Rattle.flow_model.specs.Append as spec;
ghost use Rattle.row_admission.specs.Answers.{Gives};
ghost use Rattle.row_flow.specs.Judges.{Judges, by_outputs_of};
ghost use Rattle.row_flow.specs.Results.{IsResult, append_result};

use crate::result::{Judged, RowResult, RowStop, stop_of};
use plan_core::{AppendFlow, Expectations, Verdict};
use row_admission::{Marks, admit};
use row_expr::{Expr, RowFault, eval};
use std::alloc::{AllocError, Global};
use value_core::{ListOf, Row};

/// Whether WHERE takes a row: it is absent, or TRUE.
fn takes(alloc: Global, filter: &Option<Expr>, row: &Row) -> Result<bool, RowFault>
    ensures { Gives (spec.takes filter.now row.now) result }
{
    match filter {
        None => Ok(true),
        Some(condition) => match eval(alloc, condition, row) {
            Ok(value) => Ok(value.is_true()),
            Err(fault) => Err(fault),
        },
    }
}

/// The outputs of a row, left to right.
fn project(alloc: Global, outputs: &[Expr], row: &Row) -> Result<Row, RowFault>
    ensures { Gives (spec.projected outputs.now row.now) result }
{
    let mut values = ListOf::new(alloc);
    for output in outputs {
        match eval(alloc, output, row) {
            Ok(value) => {
                if values.push(value).is_err() {
                    return Err(RowFault::Memory);
                }
            }
            Err(fault) => return Err(fault),
        }
    }
    Ok(values)
}

/// What becomes of a row that WHERE takes.
fn judge_taken(
    alloc: Global,
    flow: &AppendFlow,
    expectations: &Expectations,
    row: &Row,
    marks: &mut Marks,
) -> Result<Judged, RowStop>
    requires { length marks.old ≡ length expectations.now }
    ensures { Judges expectations.now (by_outputs_of flow.now expectations.now row.now) result marks.new }
{
    match project(alloc, flow.outputs.as_slice(), row) {
        Ok(out) => match admit(alloc, expectations, &out, marks) {
            Ok(Verdict::Keep) => Ok(Judged::Kept(out)),
            Ok(Verdict::DropIt) => Ok(Judged::Dropped(out)),
            Ok(Verdict::Fail { name }) => Err(RowStop::Fails(name)),
            Err(fault) => Err(RowStop::Fault(fault)),
        },
        Err(fault) => Err(RowStop::Fault(fault)),
    }
}

/// What becomes of a row: WHERE, then the outputs, then the expectations.
fn judge(
    alloc: Global,
    flow: &AppendFlow,
    expectations: &Expectations,
    row: &Row,
    marks: &mut Marks,
) -> Result<Judged, RowStop>
    requires { length marks.old ≡ length expectations.now }
    ensures { Judges expectations.now (spec.judged flow.now expectations.now row.now) result marks.new }
{
    match takes(alloc, &flow.filter, row) {
        Ok(taken) => {
            if taken {
                judge_taken(alloc, flow, expectations, row, marks)
            } else {
                Ok(Judged::Passed)
            }
        }
        Err(fault) => Err(RowStop::Fault(fault)),
    }
}

/// What a row of this number comes to. Fails for want of memory alone.
pub(crate) fn append_row(
    alloc: Global,
    flow: &AppendFlow,
    expectations: &Expectations,
    number: u64,
    row: &Row,
) -> Result<RowResult, AllocError>
    ensures { IfOk result (IsResult expectations.now (append_result number (spec.judged flow.now expectations.now row.now))) }
{
    let mut marks = Marks::new(alloc, expectations.len())?;
    match judge(alloc, flow, expectations, row, &mut marks) {
        Ok(judged) => Ok(RowResult { judged, marks }),
        Err(why) => {
            let judged = Judged::Halt(stop_of(number, why)?);
            Ok(RowResult { judged, marks })
        }
    }
}
