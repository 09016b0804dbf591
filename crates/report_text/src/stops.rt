// Why a flow stopped, as it is printed.
ghost use Rattle.std.specs.Prelude.{◌≡◌, ◌++◌, OnOk};
ghost use Rattle.std.specs.Fmt.{decimal, signed_decimal};
ghost use Rattle.report_text.specs.Rows.{print_row};
ghost use Rattle.report_text.specs.Words.{print_word};
ghost use Rattle.report_text.specs.Ends.{print_count, print_event, print_failed, print_keyed, print_moment, print_place, print_shrunk, print_stop, print_sum, print_tied, print_upsert};

use crate::rows::put_row;
use crate::words::{put, put_counted, put_named};
use plan_core::{Place, Stop};
use std::alloc::{AllocError, Global};
use value_core::{Event, EventKind, Name, Row, Text};

/// Puts a text, and then a row.
fn put_lead(alloc: Global, out: &mut Vec<u8>, before: &str, row: &Row) -> Result<(), AllocError>
    ensures { OnOk result (out.new.items ≡ out.old.items ++ (before.now ++ print_row row.now)) }
{
    put(out, before)?;
    put_row(alloc, out, row)
}

/// Puts a row between two texts.
fn put_within(
    alloc: Global,
    out: &mut Vec<u8>,
    before: &str,
    row: &Row,
    behind: &str,
) -> Result<(), AllocError>
    ensures { OnOk result (out.new.items ≡ out.old.items ++ (before.now ++ print_row row.now ++ behind.now)) }
{
    put_lead(alloc, out, before, row)?;
    put(out, behind)
}

fn put_place(alloc: Global, out: &mut Vec<u8>, place: &Place) -> Result<(), AllocError>
    ensures { OnOk result (out.new.items ≡ out.old.items ++ print_place place.now) }
{
    match place {
        Place::Number(row) => put_counted(alloc, out, "row ", *row),
        Place::Of(row) => put_within(alloc, out, "row (", row, ")"),
    }
}

/// Puts a text, and then a place.
fn put_at(alloc: Global, out: &mut Vec<u8>, before: &str, place: &Place) -> Result<(), AllocError>
    ensures { OnOk result (out.new.items ≡ out.old.items ++ (before.now ++ print_place place.now)) }
{
    put(out, before)?;
    put_place(alloc, out, place)
}

fn put_moment(alloc: Global, out: &mut Vec<u8>, does: &str, event: &Event) -> Result<(), AllocError>
    ensures { OnOk result (out.new.items ≡ out.old.items ++ print_moment does.now event.now) }
{
    put_lead(alloc, out, does, &event.sequence)
}

fn put_keyed(alloc: Global, out: &mut Vec<u8>, does: &str, event: &Event) -> Result<(), AllocError>
    ensures { OnOk result (out.new.items ≡ out.old.items ++ print_keyed does.now event.now) }
{
    put_moment(alloc, out, does, event)?;
    put_lead(alloc, out, " key ", &event.key)
}

fn put_upsert(alloc: Global, out: &mut Vec<u8>, event: &Event) -> Result<(), AllocError>
    ensures { OnOk result (out.new.items ≡ out.old.items ++ print_upsert event.now) }
{
    put_keyed(alloc, out, "upsert ", event)?;
    put_lead(alloc, out, " columns ", &event.columns)
}

fn put_event(alloc: Global, out: &mut Vec<u8>, event: &Event) -> Result<(), AllocError>
    ensures { OnOk result (out.new.items ≡ out.old.items ++ print_event event.now) }
{
    match event.kind {
        EventKind::Upsert => put_upsert(alloc, out, event),
        EventKind::Delete => put_keyed(alloc, out, "delete ", event),
        EventKind::Truncate => put_moment(alloc, out, "truncate ", event),
    }
}

/// Puts a text, and then an event.
fn put_told(alloc: Global, out: &mut Vec<u8>, before: &str, event: &Event) -> Result<(), AllocError>
    ensures { OnOk result (out.new.items ≡ out.old.items ++ (before.now ++ print_event event.now)) }
{
    put(out, before)?;
    put_event(alloc, out, event)
}

fn put_tied(
    alloc: Global,
    out: &mut Vec<u8>,
    row: u64,
    kept: &Event,
    later: &Event,
) -> Result<(), AllocError>
    ensures { OnOk result (out.new.items ≡ out.old.items ++ print_tied row kept.now later.now) }
{
    put_counted(alloc, out, "tied sequence at row ", row)?;
    put_told(alloc, out, ": kept ", kept)?;
    put_told(alloc, out, ", later ", later)
}

/// Puts two texts, with a name behind the first and a place behind the second.
fn put_fault(
    alloc: Global,
    out: &mut Vec<u8>,
    before: &str,
    name: &Name,
    between: &str,
    place: &Place,
) -> Result<(), AllocError>
    ensures { OnOk result (out.new.items ≡ out.old.items ++ ((before.now ++ print_word name.now) ++ (between.now ++ print_place place.now))) }
{
    put_named(out, before, name.as_str())?;
    put_at(alloc, out, between, place)
}

fn put_failed(
    alloc: Global,
    out: &mut Vec<u8>,
    name: &Name,
    place: &Place,
) -> Result<(), AllocError>
    ensures { OnOk result (out.new.items ≡ out.old.items ++ print_failed name.now place.now) }
{
    put_fault(alloc, out, "expectation ", name, " failed at ", place)
}

/// Puts a text, and then the exact total of a group.
fn put_total(alloc: Global, out: &mut Vec<u8>, before: &str, total: i128) -> Result<(), AllocError>
    ensures { OnOk result (out.new.items ≡ out.old.items ++ (before.now ++ signed_decimal total)) }
{
    put(out, before)?;
    let digits = format!(in alloc; "{total}")?;
    put(out, digits.as_str())
}

fn put_sum(alloc: Global, out: &mut Vec<u8>, group: &Row, total: i128) -> Result<(), AllocError>
    ensures { OnOk result (out.new.items ≡ out.old.items ++ print_sum group.now total) }
{
    put_lead(alloc, out, "sum overflow in group (", group)?;
    put_total(alloc, out, "): total ", total)
}

/// Puts a text, and then how many rows there are.
fn put_many(alloc: Global, out: &mut Vec<u8>, before: &str, total: u128) -> Result<(), AllocError>
    ensures { OnOk result (out.new.items ≡ out.old.items ++ (before.now ++ decimal total)) }
{
    put(out, before)?;
    let digits = format!(in alloc; "{total}")?;
    put(out, digits.as_str())
}

fn put_count(alloc: Global, out: &mut Vec<u8>, name: &Name, total: u128) -> Result<(), AllocError>
    ensures { OnOk result (out.new.items ≡ out.old.items ++ print_count name.now total) }
{
    put_named(out, "count overflow of ", name.as_str())?;
    put_many(alloc, out, ": total ", total)
}

fn put_shrunk(
    alloc: Global,
    out: &mut Vec<u8>,
    file: &Text,
    cursor: u64,
    size: u64,
) -> Result<(), AllocError>
    ensures { OnOk result (out.new.items ≡ out.old.items ++ print_shrunk file.now cursor size) }
{
    put_named(out, "file ", file.as_str())?;
    put_counted(alloc, out, " shrunk: cursor ", cursor)?;
    put_counted(alloc, out, ", size ", size)
}

/// Puts why a flow stopped behind what `out` has.
pub(crate) fn put_stop(alloc: Global, out: &mut Vec<u8>, why: &Stop) -> Result<(), AllocError>
    ensures { OnOk result (out.new.items ≡ out.old.items ++ print_stop why.now) }
{
    match why {
        Stop::Expect { place, name } => put_failed(alloc, out, name, place),
        Stop::Overflow { place } => put_at(alloc, out, "overflow at ", place),
        Stop::ZeroDivisor { place } => put_at(alloc, out, "zero divisor at ", place),
        Stop::BadCast { place } => put_at(alloc, out, "bad cast at ", place),
        Stop::NullSequence { row } => put_counted(alloc, out, "null sequence at row ", *row),
        Stop::Tied { row, kept, later } => put_tied(alloc, out, *row, kept, later),
        Stop::SumOverflow { group, total } => put_sum(alloc, out, group, *total),
        Stop::CountOverflow { name, total } => put_count(alloc, out, name, *total),
        Stop::Shrunk { file, cursor, size } => put_shrunk(alloc, out, file, *cursor, *size),
        Stop::Landing { .. } => put(out, "landing failed"),
    }
}
