// The result rows of a view, judged by its expectations.
ghost use Rattle.std.specs.Prelude.{◌≡◌, ◌++◌, ◌∷◌, [], cond, map, length, OnOk};
ghost use Rattle.flow_model.specs.Admission as spec;
ghost use Rattle.flow_model.specs.Views as views;
ghost use Rattle.plan_core.specs.declared.stop.Stop.TheVariants.{Expect};
ghost use Rattle.plan_core.specs.declared.stop.Place.TheVariants.{Of};
ghost use Rattle.row_admission.specs.Answers.{marks_of};
ghost use Rattle.value_core.specs.Tallies.{added};
ghost use Rattle.view_query.specs.Judging.{IsStop, JudgeAnswers, RowAnswers, VerdictAnswers, tally_of};

use crate::asking::ask;
use crate::counting::{count_marks, no_tallies};
use plan_core::{Expectations, Place, Query, Stop, StopOr, Verdict};
use row_admission::{Marks, admit};
use std::alloc::{AllocError, Global};
use value_core::{ListOf, Name, Row, Rows, Tallies, Tally};
use view_groups::stop_by;

/// The rows that a view keeps, in row order, and one count an expectation over all its result rows.
#[derive(Debug, Drop)]
pub struct Judged {
    pub rows: Rows,
    pub counts: Tallies,
}

/// The stop at a row that fails the expectation of this name.
fn failure(alloc: Global, row: &Row, name: Name) -> StopOr
    ensures { IsStop (Expect (Of row.now) name) result }
{
    match row.copy(alloc) {
        Ok(copy) => StopOr::Stop(Stop::Expect {
            place: Place::Of(copy),
            name,
        }),
        Err(_) => StopOr::Memory,
    }
}

/// Whether expectations keep a row, or the stop at it, and in the marks which of them it passes.
fn verdict(
    alloc: Global,
    expectations: &Expectations,
    row: &Row,
    marks: &mut Marks,
) -> Result<bool, StopOr>
    requires { length marks.old ≡ length expectations.now }
    ensures verdict { VerdictAnswers row.now (spec.admit expectations.now row.now) result }
    ensures marks { OnOk result (marks.new ≡ marks_of expectations.now row.now) }
    ensures each { length marks.new ≡ length marks.old }
{
    match admit(alloc, expectations, row, marks) {
        Ok(Verdict::Keep) => Ok(true),
        Ok(Verdict::DropIt) => Ok(false),
        Ok(Verdict::Fail { name }) => Err(failure(alloc, row, name)),
        Err(fault) => Err(stop_by(alloc, row, fault)),
    }
}

/// Puts a copy of a row behind others, if it is kept.
fn keep(rows: &mut Rows, alloc: Global, row: &Row, kept: bool) -> Result<(), AllocError>
    ensures { OnOk result (rows.new ≡ rows.old ++ cond kept (row.now ∷ []) []) }
{
    if kept {
        rows.push(row.copy(alloc)?)?;
    }
    Ok(())
}

/// Counts a row of these marks, and keeps it or not.
fn count_and_keep(
    rows: &mut Rows,
    tallies: &mut Vec<Tally>,
    alloc: Global,
    row: &Row,
    kept: bool,
    marks: &[bool],
) -> Result<(), AllocError>
    requires { length tallies.old.items ≡ length marks.now }
    ensures rows { OnOk result (rows.new ≡ rows.old ++ cond kept (row.now ∷ []) []) }
    ensures counted { OnOk result (tallies.new.items ≡ added tallies.old.items (map tally_of marks.now)) }
    ensures each { length tallies.new.items ≡ length tallies.old.items }
{
    count_marks(tallies.as_mut_slice(), marks)?;
    keep(rows, alloc, row, kept)
}

/// Takes a row in, unless it stops the view.
fn take_row(
    rows: &mut Rows,
    tallies: &mut Vec<Tally>,
    marks: &mut Marks,
    alloc: Global,
    expectations: &Expectations,
    row: &Row,
) -> Result<(), StopOr>
    requires each { length marks.old ≡ length expectations.now }
    requires counted { length tallies.old.items ≡ length expectations.now }
    ensures row { RowAnswers expectations.now row.now rows.old rows.new tallies.old.items tallies.new.items result }
    ensures each { length marks.new ≡ length marks.old }
    ensures counted { length tallies.new.items ≡ length tallies.old.items }
{
    match verdict(alloc, expectations, row, marks) {
        Ok(kept) => {
            match count_and_keep(rows, tallies, alloc, row, kept, marks.as_slice()) {
                Ok(()) => Ok(()),
                Err(_) => Err(StopOr::Memory),
            }
        }
        Err(end) => Err(end),
    }
}

/// The same as `judge`, of a slice.
fn judge_rows(
    alloc: Global,
    expectations: &Expectations,
    result_rows: &[Row],
) -> Result<Judged, StopOr>
    ensures { JudgeAnswers (views.judged_view expectations.now result_rows.now) result }
{
    let Ok(mut marks) = Marks::new(alloc, expectations.len()) else {
        return Err(StopOr::Memory);
    };
    let Ok(mut tallies) = no_tallies(alloc, expectations) else {
        return Err(StopOr::Memory);
    };
    let mut rows: Rows = ListOf::new(alloc);
    for row in result_rows {
        match take_row(
            &mut rows,
            &mut tallies,
            &mut marks,
            alloc,
            expectations,
            row,
        ) {
            Ok(()) => {}
            Err(end) => return Err(end),
        }
    }
    let counts = ListOf::from_vec(tallies);
    Ok(Judged { rows, counts })
}

/// What the expectations of a view make of its result rows, which are in row order (Databricks documentation, pipeline
/// expectations): the rows that they keep, and the counts over all of them. It stops at the first row on which one faults
/// or whose FAIL UPDATE isn't TRUE. Memory comes where none is found, and for a count of 2^64 rows, which no list holds.
pub fn judge(
    alloc: Global,
    expectations: &Expectations,
    result_rows: &Rows,
) -> Result<Judged, StopOr>
    ensures { JudgeAnswers (views.judged_view expectations.now result_rows.now) result }
{
    judge_rows(alloc, expectations, result_rows.as_slice())
}

/// What a view holds over these source rows, from scratch: its query's result rows, judged by its expectations (Databricks
/// SQL reference, CREATE MATERIALIZED VIEW). It stops where the query does, else at the least result row at which an
/// expectation stops it. Memory comes where none is found.
pub fn refresh(
    alloc: Global,
    query: &Query,
    expectations: &Expectations,
    rows: &Rows,
) -> Result<Judged, StopOr>
    ensures { JudgeAnswers (views.viewed query.now expectations.now rows.now) result }
{
    match ask(alloc, query, rows) {
        Ok(result) => judge(alloc, expectations, &result),
        Err(end) => Err(end),
    }
}
