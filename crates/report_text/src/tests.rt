use crate::{flow_line, metrics_head, put_metrics, table_text};
use commit_payloads::{Definition, StoredAction, StoredBody, StoredExpectation};
use plan_core::{AppendFlow, AppendFlows, Body, Dataset, FlowEnd, Origin};
use sqlite_items::Boxed;
use std::alloc::{AllocError, Global};
use std::process::Abort;
use std::test::Fail;
use value_core::{Column, Kind, ListOf, Name, Row, Tally, Text, Value};

fn only<T: Drop>(alloc: Global, item: T) -> Result<ListOf<T>, AllocError> {
    let mut list = ListOf::new(alloc);
    list.push(item)?;
    Ok(list)
}

// ---- tables

fn column(name: Name) -> Column {
    Column {
        name,
        kind: Kind::Big,
    }
}

fn row(alloc: Global, first: Value, second: Value) -> Result<Row, AllocError> {
    let mut row = ListOf::new(alloc);
    row.push(first)?;
    row.push(second)?;
    Ok(row)
}

/// A table with one row of these values is printed so.
fn prints(
    rt: &impl Abort,
    alloc: Global,
    first: Value,
    second: Value,
    wanted: &[u8],
) -> Result<(), Fail> {
    let columns = only(alloc, column(Name::new(alloc, "a|b")?))?;
    let rows = only(alloc, row(alloc, first, second)?)?;
    let text = table_text(alloc, &columns, &rows)?;
    assert!(rt; text.as_slice() == wanted);
    Ok(())
}

#[test]
fn values_are_printed(rt: HostRuntime) -> Result<(), Fail> {
    let alloc = rt.alloc();
    prints(&rt, alloc, Value::Null, Value::Int(-7), b"a\\|b\n\\N|-7\n")?;
    let text = Text::new(alloc, "x\ty")?;
    prints(
        &rt,
        alloc,
        Value::Bool(true),
        Value::Str(text),
        b"a\\|b\ntrue|x\\ty\n",
    )
}

// ---- counts

/// A view with one expectation.
fn definition(
    alloc: Global,
    name: Name,
    text: Text,
    expectation: Name,
) -> Result<Boxed<Definition>, AllocError> {
    let expectations = only(
        alloc,
        StoredExpectation {
            name: expectation,
            action: StoredAction::DropRow,
        },
    )?;
    Boxed::new(
        alloc,
        Definition {
            name,
            text,
            body: StoredBody::View,
            columns: ListOf::new(alloc),
            expectations,
            flows: ListOf::new(alloc),
            keys: ListOf::new(alloc),
            sequence: ListOf::new(alloc),
        },
    )
}

fn counts(alloc: Global) -> Result<Vec<u8>, AllocError> {
    let name = Name::new(alloc, "t")?;
    let expectation = Name::new(alloc, "small")?;
    let definition = definition(alloc, name, Text::new(alloc, "")?, expectation)?;
    let tallies = only(
        alloc,
        Tally {
            passed: 2,
            failed: 1,
        },
    )?;
    let mut text = metrics_head(alloc)?;
    put_metrics(alloc, &mut text, definition.get(), tallies.as_slice())?;
    Ok(text)
}

#[test]
fn counts_are_printed(rt: HostRuntime) -> Result<(), Fail> {
    let text = counts(rt.alloc())?;
    assert!(&rt;
        text.as_slice()
            == b"dataset|expectation|action|passed|failed\nt|small|drop|2|1\n".as_slice()
    );
    Ok(())
}

// ---- ends

fn flow(alloc: Global, name: Name, source: Name) -> AppendFlow {
    AppendFlow {
        name,
        origin: Origin::Table { name: source },
        filter: None,
        outputs: ListOf::new(alloc),
    }
}

fn table(alloc: Global, name: Name, text: Text, flows: AppendFlows) -> Dataset {
    Dataset {
        name,
        text,
        body: Body::Append(flows),
        columns: ListOf::new(alloc),
        expectations: ListOf::new(alloc),
        level: 0,
    }
}

fn bronze(alloc: Global) -> Result<Boxed<Dataset>, AllocError> {
    let flow = flow(alloc, Name::new(alloc, "f")?, Name::new(alloc, "s")?);
    let flows = only(alloc, flow)?;
    let name = Name::new(alloc, "bronze")?;
    Boxed::new(alloc, table(alloc, name, Text::new(alloc, "")?, flows))
}

#[test]
fn an_end_is_printed(rt: HostRuntime) -> Result<(), Fail> {
    let alloc = rt.alloc();
    let end = Boxed::new(
        alloc,
        FlowEnd::Completed {
            read: 2,
            version: 3,
        },
    )?;
    let line = flow_line(alloc, bronze(alloc)?.get(), 0, end.get())?;
    assert!(&rt;
        line.as_slice() == b"flow f into bronze: completed, 2 rows read, version 3\n".as_slice()
    );
    Ok(())
}
