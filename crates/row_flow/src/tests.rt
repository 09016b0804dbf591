ghost use Rattle.std.specs.Prelude.{◌≤◌};

use crate::{Batch, EventBatch, Input, append_batch, event_batch};
use landing_core::{Fresh, FreshLine};
use par_rows::{Gate, NoGate};
use plan_core::{
    Action, AppendFlow, Cdc, Expectation, Expectations, Exprs, Origin, Place, Stop, StopOr,
};
use row_expr::{Arithmetic, Comparison, Expr};
use sqlite_items::Boxed;
use std::alloc::{AllocError, Global};
use std::sync::atomic::{AtomicBool, AtomicU64, Ordering};
use std::test::Fail;
use std::thread::Threads;
use value_core::{
    Column, EventKind, Format, Kind, Line, ListOf, Name, Places, Row, Rows, Schema, Shape, Text,
    Value,
};

fn crosses_threads<T: Send + Sync>() {}

#[test]
fn batches_cross_threads() {
    crosses_threads::<Batch>();
    crosses_threads::<EventBatch>();
}

fn only<T: Drop>(alloc: Global, item: T) -> Result<ListOf<T>, AllocError> {
    let mut list = ListOf::new(alloc);
    list.push(item)?;
    Ok(list)
}

/// A row of numbers, NULL where there is none.
fn row(alloc: Global, numbers: &[Option<i32>]) -> Result<Row, AllocError> {
    let mut row = ListOf::new(alloc);
    for number in numbers {
        row.push(number.map_or(Value::Null, Value::Int))?;
    }
    Ok(row)
}

/// Rows of two numbers.
fn table(alloc: Global, rows: &[[Option<i32>; 2]]) -> Result<Rows, AllocError> {
    let mut table = ListOf::new(alloc);
    for numbers in rows {
        table.push(row(alloc, numbers)?)?;
    }
    Ok(table)
}

/// The flow of these outputs, without WHERE.
fn flow(name: Name, origin: Boxed<Origin>, outputs: Exprs) -> AppendFlow {
    AppendFlow {
        name,
        origin: origin.into_inner(),
        filter: None,
        outputs,
    }
}

/// A table that is read.
fn source(alloc: Global) -> Result<Boxed<Origin>, AllocError> {
    let name = Name::new(alloc, "s")?;
    Boxed::new(alloc, Origin::Table { name })
}

// ---- the stop of the least row

fn sum(left: Boxed<Expr>, right: Boxed<Expr>) -> Expr {
    Expr::Arithmetic(Arithmetic::Add, left, right)
}

/// `left + one`
fn adding(alloc: Global, left: Boxed<Expr>, one: Value) -> Result<Exprs, AllocError> {
    let one = Boxed::new(alloc, Expr::Literal(one))?;
    only(alloc, sum(left, one))
}

/// The first column, of INT.
fn first(alloc: Global) -> Result<Boxed<Expr>, AllocError> {
    Boxed::new(alloc, Expr::Column(0, Kind::Int))
}

/// 5,000 rows of 1, but for the greatest INT in rows 1,700 and 4,200.
fn ones(alloc: Global) -> Result<Rows, AllocError> {
    let mut rows = ListOf::new(alloc);
    for number in 1..=5000u32 {
        let a = if number == 1700 || number == 4200 {
            i32::MAX
        } else {
            1
        };
        rows.push(row(alloc, &[Some(a)])?)?;
    }
    Ok(rows)
}

/// The number of the row of an overflow.
fn overflow_at(stop: &Stop) -> Option<u64> {
    match stop {
        Stop::Overflow { place } => match place {
            Place::Number(number) => Some(*number),
            Place::Of(_) => None,
        },
        _ => None,
    }
}

/// The number of the row at which a batch overflowed.
fn overflow_of(batch: &Result<Batch, StopOr>) -> Option<u64> {
    match batch {
        Err(StopOr::Stop(stop)) => overflow_at(stop),
        _ => None,
    }
}

/// Where the flow of these outputs overflows by so many workers.
fn overflow_by<H: Threads + Sync>(
    rt: &H,
    alloc: Global,
    workers: u32,
    flow: &AppendFlow,
    rows: &Rows,
) -> Option<u64>
    requires { (1 ≤ workers) × (workers ≤ 64) }
{
    let none = ListOf::new(alloc);
    let input = Input::Rows(rows);
    overflow_of(&append_batch(rt, alloc, &NoGate, workers, flow, &none, &input))
}

fn one_more(alloc: Global) -> Result<Boxed<AppendFlow>, AllocError> {
    let origin = source(alloc)?;
    let outputs = adding(alloc, first(alloc)?, Value::Int(1))?;
    Boxed::new(alloc, flow(Name::new(alloc, "t")?, origin, outputs))
}

#[test]
fn the_least_row_stops_a_flow_by_any_number_of_workers(rt: HostRuntime) -> Result<(), Fail> {
    let m = rt.alloc();
    let flow = one_more(m)?;
    let rows = ones(m)?;
    assert!(rt; overflow_by(&rt, m, 1, flow.get(), &rows) == Some(1700));
    assert!(rt; overflow_by(&rt, m, 64, flow.get(), &rows) == Some(1700));
    Ok(())
}

// ---- lines

fn fresh(heads: ListOf<Line>, lines: ListOf<FreshLine>, alloc: Global) -> Fresh {
    Fresh {
        heads,
        lines,
        cursor: ListOf::new(alloc),
    }
}

/// The line `{"a":2147483647}` of one file.
fn largest(alloc: Global) -> Result<Fresh, AllocError> {
    let line = ListOf::from_vec(Vec::from_slice(alloc, b"{\"a\":2147483647}")?);
    let lines = only(alloc, FreshLine { file: 0, line })?;
    let heads = only(alloc, ListOf::new(alloc))?;
    Ok(fresh(heads, lines, alloc))
}

/// Files of JSON.
fn files(dir: Text, columns: Schema) -> Origin {
    Origin::Files {
        dir,
        shape: Shape {
            format: Format::Json,
            columns,
            rescued: false,
            header: false,
            sep: b',',
        },
    }
}

/// Files with the column `a INT`.
fn of_a(alloc: Global) -> Result<Boxed<Origin>, AllocError> {
    let name = Name::new(alloc, "a")?;
    let kind = Kind::Int;
    let columns = only(alloc, Column { name, kind })?;
    Boxed::new(alloc, files(Text::new(alloc, "in")?, columns))
}

/// `SELECT CAST(a AS BIGINT) + 1 AS b`
fn widening(alloc: Global) -> Result<Boxed<AppendFlow>, AllocError> {
    let a = Boxed::new(alloc, Expr::Cast(first(alloc)?, Kind::Big))?;
    let outputs = adding(alloc, a, Value::Big(1))?;
    let origin = of_a(alloc)?;
    Boxed::new(alloc, flow(Name::new(alloc, "t")?, origin, outputs))
}

/// Whether a batch has this row alone.
fn has_row(batch: &Result<Batch, StopOr>, row: &Row) -> bool {
    match batch {
        Ok(batch) => batch.rows.len() == 1 && batch.rows.as_slice().first() == Some(row),
        Err(_) => false,
    }
}

#[test]
fn a_widened_sum_does_not_overflow(rt: HostRuntime) -> Result<(), Fail> {
    let m = rt.alloc();
    let flow = widening(m)?;
    let fresh = largest(m)?;
    let wanted = only(m, Value::Big(2147483648))?;
    let input = Input::Lines(&fresh);
    let batch = append_batch(&rt, m, &NoGate, 2, flow.get(), &ListOf::new(m), &input);
    assert!(rt; has_row(&batch, &wanted));
    Ok(())
}

// ---- counts

/// `SELECT a, b FROM STREAM(s)`
fn plain(alloc: Global) -> Result<Boxed<AppendFlow>, AllocError> {
    let mut outputs = only(alloc, Expr::Column(0, Kind::Int))?;
    outputs.push(Expr::Column(1, Kind::Int))?;
    let origin = source(alloc)?;
    Boxed::new(alloc, flow(Name::new(alloc, "t")?, origin, outputs))
}

fn dropping(name: Name, test: Expr) -> Expectation {
    Expectation {
        name,
        test,
        action: Action::DropRow,
    }
}

/// `small EXPECT (a > -5) ON VIOLATION DROP ROW`
fn small(alloc: Global) -> Result<Expectations, AllocError> {
    let bound = Boxed::new(alloc, Expr::Literal(Value::Int(-5)))?;
    let test = Expr::Compare(Comparison::Gt, first(alloc)?, bound);
    only(alloc, dropping(Name::new(alloc, "small")?, test))
}

/// Whether a batch of four rows has these rows, and the counts 2 and 2.
fn has_half(batch: &Batch, rows: &Rows) -> bool {
    let counts = match batch.tallies.as_slice().first() {
        Some(tally) => tally.passed == 2 && tally.failed == 2,
        None => false,
    };
    batch.read == 4 && counts && batch.rows.as_slice() == rows.as_slice()
}

#[test]
fn dropped_rows_are_counted(rt: HostRuntime) -> Result<(), Fail> {
    let m = rt.alloc();
    let flow = plain(m)?;
    let small = small(m)?;
    let rows = [
        [Some(3), Some(24)],
        [Some(-9), Some(25)],
        [None, Some(26)],
        [Some(-2), None],
    ];
    let rows = table(m, &rows)?;
    let kept = table(m, &[[Some(-2), None], [Some(3), Some(24)]])?;
    let input = Input::Rows(&rows);
    let batch = append_batch(&rt, m, &NoGate, 3, flow.get(), &small, &input);
    assert!(rt; batch.is_ok_and(|batch| has_half(&batch, &kept)));
    Ok(())
}

// ---- a change feed

/// What a feed is made of.
#[derive(Drop)]
struct FeedParts {
    name: Name,
    origin: Boxed<Origin>,
    keys: Places,
    sequence: Places,
    outputs: Places,
    tracked: Places,
}

fn feed(parts: FeedParts) -> Cdc {
    Cdc {
        name: parts.name,
        origin: parts.origin.into_inner(),
        keys: parts.keys,
        sequence: parts.sequence,
        delete_when: None,
        truncate_when: None,
        outputs: parts.outputs,
        ignore_null: false,
        scd2: false,
        tracked: parts.tracked,
    }
}

/// A feed of `id INT, at INT` by `id`, in the sequence of `at`.
fn parts(alloc: Global) -> Result<FeedParts, AllocError> {
    Ok(FeedParts {
        name: Name::new(alloc, "f")?,
        origin: source(alloc)?,
        keys: only(alloc, 0)?,
        sequence: only(alloc, 1)?,
        outputs: only(alloc, 0)?,
        tracked: only(alloc, 0)?,
    })
}

/// Whether a batch has the upsert of this key at row 1 alone, and halts at row 2.
fn halts_at_two(batch: &EventBatch, key: &Row) -> bool {
    let halts = match &batch.halt {
        Some(Stop::NullSequence { row }) => *row == 2,
        _ => false,
    };
    match batch.events.as_slice().first() {
        Some(one) => {
            halts
                && batch.read == 1
                && batch.events.len() == 1
                && one.row == 1
                && one.event.kind == EventKind::Upsert
                && one.event.key == *key
        }
        None => false,
    }
}

#[test]
fn a_null_sequence_halts_a_feed_behind_its_first_events(rt: HostRuntime) -> Result<(), Fail> {
    let m = rt.alloc();
    let feed = Boxed::new(m, feed(parts(m)?))?;
    let rows = table(
        m,
        &[
            [Some(124), Some(1)],
            [Some(125), None],
            [Some(126), Some(2)],
        ],
    )?;
    let key = row(m, &[Some(124)])?;
    let input = Input::Rows(&rows);
    let batch = event_batch(&rt, m, &NoGate, 64, feed.get(), &ListOf::new(m), &input);
    assert!(rt; batch.is_ok_and(|batch| halts_at_two(&batch, &key)));
    Ok(())
}

// ---- two workers

/// A gate at which two pieces see each other, or give up after 2^28 turns.
#[derive(Drop)]
struct TwoFlags {
    first: AtomicBool,
    second: AtomicBool,
    met: AtomicU64,
}

impl Gate for TwoFlags {
    ghost passed = { λ gate piece. Unit {0} };

    fn enter(&self, piece: u32) {
        let (mine, other) = if piece == 0 {
            (&self.first, &self.second)
        } else {
            (&self.second, &self.first)
        };
        mine.store(true, Ordering::SeqCst);
        for _ in 0..1u32 << 28 {
            if other.load(Ordering::SeqCst) {
                self.met.fetch_add(1, Ordering::SeqCst);
                return;
            }
        }
    }
}

#[test]
fn two_rows_of_a_batch_are_in_work_at_once(rt: HostRuntime) -> Result<(), Fail> {
    let m = rt.alloc();
    let gate = TwoFlags {
        first: AtomicBool::new(false),
        second: AtomicBool::new(false),
        met: AtomicU64::new(0),
    };
    let feed = Boxed::new(m, feed(parts(m)?))?;
    let rows = table(m, &[[Some(1), Some(1)], [Some(2), Some(2)]])?;
    let input = Input::Rows(&rows);
    let batch = event_batch(&rt, m, &gate, 2, feed.get(), &ListOf::new(m), &input);
    assert!(rt; batch.is_ok_and(|batch| batch.read == 2));
    assert!(rt; gate.met.load(Ordering::SeqCst) == 2);
    Ok(())
}
