// What expectations make of a row.
ghost use Rattle.std.specs.Prelude.{◌≡◌, ◌&&◌, ◌||◌, not, length, Ok, OnOk};
ghost use Rattle.plan_core.specs.declared.expectation.Verdict.TheVariants as verdict;
ghost use Rattle.row_expr.specs.Eval.{val};
ghost use Rattle.flow_model.specs.Admission as spec;
ghost use Rattle.row_admission.specs.Answers.{Gives, IsMarked, is_fail, marks_of, truth_of, verdict_of};

use crate::marks::Marks;
use plan_core::{Action, Expectation, Expectations, Verdict};
use row_expr::{Expr, RowFault, eval};
use std::alloc::Global;
use value_core::{Name, Row};

/// Whether a test is TRUE on a row.
fn truth(alloc: Global, test: &Expr, row: &Row) -> Result<bool, RowFault>
    ensures { Gives (truth_of (val test.now row.now)) result }
{
    match eval(alloc, test, row) {
        Ok(value) => Ok(value.is_true()),
        Err(fault) => Err(fault),
    }
}

/// That the expectation of this name stops the flow.
fn failure(alloc: Global, name: &Name) -> Result<Verdict, RowFault>
    ensures { Gives (Ok (verdict.Fail name.now)) result }
{
    match name.copy(alloc) {
        Ok(name) => Ok(Verdict::Fail { name }),
        Err(_) => Err(RowFault::Memory),
    }
}

/// Whether an expectation of this action stops the flow at a row that it passes or not.
fn objects(action: Action, passed: bool) -> bool
    ensures { result ≡ (not passed && is_fail action) }
{
    match action {
        Action::Warn => false,
        Action::DropRow => false,
        Action::FailUpdate => !passed,
    }
}

/// Whether the row is dropped, once one more expectation was judged.
fn drops(dropped: bool, action: Action, passed: bool) -> bool
    ensures { result ≡ (dropped || (spec.is_drop action && not passed)) }
{
    match action {
        Action::Warn => dropped,
        Action::DropRow => dropped || !passed,
        Action::FailUpdate => dropped,
    }
}

/// The verdict on a row that no expectation stops.
fn verdict(dropped: bool) -> Verdict
    ensures { result ≡ verdict_of dropped }
{
    if dropped {
        Verdict::DropIt
    } else {
        Verdict::Keep
    }
}

/// What expectations make of a row, and in the marks which of them it passes.
fn judge(
    alloc: Global,
    expectations: &[Expectation],
    row: &Row,
    marks: &mut [bool],
) -> Result<Verdict, RowFault>
    requires { length marks.old ≡ length expectations.now }
    ensures verdict { Gives (spec.admit expectations.now row.now) result }
    ensures marks { OnOk result (IsMarked (spec.admit expectations.now row.now) marks.new (marks_of expectations.now row.now)) }
    ensures each { length marks.new ≡ length marks.old }
{
    let mut dropped = false;
    for (i, x) in expectations.iter().enumerate() {
        match truth(alloc, &x.test, row) {
            Ok(passed) => {
                marks[i] = passed;
                if objects(x.action, passed) {
                    return failure(alloc, &x.name);
                }
                dropped = drops(dropped, x.action, passed);
            }
            Err(fault) => return Err(fault),
        }
    }
    Ok(verdict(dropped))
}

/// What the expectations of a dataset make of a row of its columns (Databricks documentation,
/// pipeline expectations). The first one that faults, or that has FAIL UPDATE and isn't TRUE,
/// decides; otherwise the row is dropped where one with DROP ROW isn't TRUE, and else kept. Every
/// expectation is evaluated on a row that is kept or dropped, and the marks say then which of them
/// are TRUE; after a failure or a fault they say nothing.
///
/// Overflow, ZeroDivisor and BadCast come exactly where the first that decides faults so; Memory
/// where none is found.
pub fn admit(
    alloc: Global,
    expectations: &Expectations,
    row: &Row,
    marks: &mut Marks,
) -> Result<Verdict, RowFault>
    requires { length marks.old ≡ length expectations.now }
    ensures verdict { Gives (spec.admit expectations.now row.now) result }
    ensures marks { OnOk result (IsMarked (spec.admit expectations.now row.now) marks.new (marks_of expectations.now row.now)) }
    ensures each { length marks.new ≡ length marks.old }
{
    judge(
        alloc,
        expectations.as_slice(),
        row,
        marks.passed.as_mut_slice(),
    )
}
