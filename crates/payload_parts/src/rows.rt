// Which rows and counts may follow.
ghost use Rattle.std.specs.Prelude.{◌≡◌, ◌↔◌, [], IfOk, IsTrue, map};
ghost use Rattle.value_core.specs.Changes.{Holds};
ghost use Rattle.state_model.specs.After.{no_tally};
ghost use Rattle.state_model.specs.Follows as rules;

use commit_payloads::StoredExpectation;
use net_changes::net;
use std::alloc::{AllocError, Global};
use value_core::{Change, Column, Row, Rows, Tally};

/// The number that a count stays below.
const COUNT_LIMIT: u64 = 1 << 63;

/// Whether two numbers come to less than the limit of counts.
fn is_within(kept: u64, more: u64) -> bool
    ensures { result ≡ rules.is_within kept more }
{
    kept < COUNT_LIMIT && more < COUNT_LIMIT - kept
}

fn tally_fits(kept: &Tally, more: &Tally) -> bool
    ensures { result ≡ rules.tally_fits kept.now more.now }
{
    is_within(kept.passed, more.passed) && is_within(kept.failed, more.failed)
}

/// Whether there is one further count for each count, and none passes its limit.
pub fn counts_fit(counts: &[Tally], more: &[Tally]) -> bool
    ensures { result ≡ rules.counts_fit counts.now more.now }
{
    let mut rest = more;
    for kept in counts {
        let Some((tally, behind)) = rest.split_first() else {
            return false;
        };
        if !tally_fits(kept, tally) {
            return false;
        }
        rest = behind;
    }
    rest.is_empty()
}

/// Whether a row has one value a column, NULL or of its kind.
fn is_row_of(columns: &[Column], row: &Row) -> bool
    ensures { result ≡ rules.is_row_of columns.now row.now }
{
    let mut values = row.as_slice();
    for column in columns {
        let Some((value, rest)) = values.split_first() else {
            return false;
        };
        if !value.fits(column.kind) {
            return false;
        }
        values = rest;
    }
    values.is_empty()
}

/// Whether each of these rows has one value a column, each of the column's kind or NULL.
pub fn all_fit(columns: &[Column], rows: &[Row]) -> bool
    ensures { result ≡ rules.all_fit columns.now rows.now }
{
    for row in rows {
        if !is_row_of(columns, row) {
            return false;
        }
    }
    true
}

/// Whether there is one count an expectation, each below its limit.
pub fn are_counts(expectations: &[StoredExpectation], counts: &[Tally]) -> bool
    ensures { result ≡ rules.counts_fit (map no_tally expectations.now) counts.now }
{
    let mut rest = counts;
    for _expectation in expectations {
        let Some((tally, behind)) = rest.split_first() else {
            return false;
        };
        if tally.passed >= COUNT_LIMIT || tally.failed >= COUNT_LIMIT {
            return false;
        }
        rest = behind;
    }
    rest.is_empty()
}

/// Whether a change removes no row.
fn removes_none(change: &Change) -> bool
    ensures { IsTrue result ↔ (change.now.removed ≡ []) }
{
    change.removed.is_empty()
}

/// Whether each of the others is among these rows, as often as it is there. `Err` for want of memory alone: it takes a
/// copy of the others, and sorts both.
pub fn holds(alloc: Global, rows: Rows, others: &Rows) -> Result<bool, AllocError>
    ensures { IfOk result (λ are. IsTrue are ↔ Holds rows others.now) }
{
    let wanted = others.copy(alloc)?;
    let change = net(alloc, wanted, rows)?;
    let none = removes_none(&change);
    Ok(none)
}
