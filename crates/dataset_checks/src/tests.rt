use crate::{DatasetEnd, dataset_at, dataset_places};
use file_options::FilesRead;
use origin_checks::{Resolved, Source};
use plan_core::Dataset;
use sql_tree::{Out, Outs, Select, SqlOrigin, Statement};
use sqlite_items::{Boxed, Items};
use statement_checks::CheckFault;
use std::alloc::{AllocError, Global};
use std::test::Fail;
use value_core::{Column, Format, Kind, ListOf, Name, Shape, Text};

// ---- statements

/// A statement, or none for want of memory.
type Made = Result<Boxed<Statement>, AllocError>;

fn star(alloc: Global) -> Result<Outs, AllocError> {
    let mut outs = Items::new(alloc);
    outs.push(Out::Star {
        except: ListOf::new(alloc),
    })?;
    Ok(outs)
}

// SELECT * of what this name has.
fn select(alloc: Global, origin: &str) -> Result<Boxed<Select>, AllocError> {
    let name = Name::new(alloc, origin)?;
    let outs = star(alloc)?;
    Boxed::new(
        alloc,
        Select {
            outs,
            origin: SqlOrigin::Table { stream: true, name },
            filter: None,
            groups: Items::new(alloc),
        },
    )
}

fn table(alloc: Global, name: &str, select: Option<Boxed<Select>>) -> Made {
    let name = Name::new(alloc, name)?;
    let select = match select {
        Some(select) => Some(select.into_inner()),
        None => None,
    };
    Boxed::new(
        alloc,
        Statement::Table {
            name,
            items: Items::new(alloc),
            select,
        },
    )
}

fn table_of(alloc: Global, name: &str) -> Made {
    let select = select(alloc, "files")?;
    table(alloc, name, Some(select))
}

fn insert(alloc: Global, target: &str) -> Made {
    let flow = Name::new(alloc, "flow")?;
    let target = Name::new(alloc, target)?;
    let select = select(alloc, "files")?;
    Boxed::new(
        alloc,
        Statement::Insert {
            flow,
            target,
            select: select.into_inner(),
        },
    )
}

fn both(alloc: Global, first: Made, second: Made) -> Result<Vec<Statement>, AllocError> {
    let first = first?;
    let second = second?;
    let mut statements = Vec::new(alloc);
    statements.push(first.into_inner())?;
    statements.push(second.into_inner())?;
    Ok(statements)
}

// ---- what they read

fn column(alloc: Global, name: &str) -> Result<Column, AllocError> {
    let name = Name::new(alloc, name)?;
    Ok(Column {
        name,
        kind: Kind::Int,
    })
}

// Files whose lines have one column of this name.
fn files(alloc: Global, name: &str) -> Result<Boxed<FilesRead>, AllocError> {
    let dir = Text::new(alloc, "in")?;
    let mut columns = ListOf::new(alloc);
    columns.push(column(alloc, name)?)?;
    Boxed::new(
        alloc,
        FilesRead {
            dir,
            shape: Shape {
                format: Format::Json,
                columns,
                rescued: false,
                header: false,
                sep: 44,
            },
        },
    )
}

fn add_stream(alloc: Global, resolved: &mut Vec<Resolved>, name: &str) -> Result<(), AllocError> {
    let read = files(alloc, name)?.into_inner();
    resolved.push(Resolved::From(Source::Files { stream: true, read }))?;
    Ok(())
}

// Two streams of files.
fn streams(alloc: Global, first: &str, second: &str) -> Result<Vec<Resolved>, AllocError> {
    let mut resolved = Vec::new(alloc);
    add_stream(alloc, &mut resolved, first)?;
    add_stream(alloc, &mut resolved, second)?;
    Ok(resolved)
}

// ---- what they make

/// What is expected of an answer.
#[derive(Clone, Copy, PartialEq, Eq, Debug)]
enum Expected {
    Columns(usize),
    Fault(u32),
    Other,
}

fn unlike(statement: u32, fault: &CheckFault) -> Expected {
    match fault {
        CheckFault::SchemaDiffers { name: _ } => Expected::Fault(statement),
        CheckFault::NoFlow { name: _ } => Expected::Fault(statement),
        _ => Expected::Other,
    }
}

fn found(answer: Result<Dataset, DatasetEnd>) -> Expected {
    match answer {
        Ok(dataset) => Expected::Columns(dataset.columns.len()),
        Err(DatasetEnd::Refused(broken)) => unlike(broken.statement, &broken.fault),
        Err(DatasetEnd::Memory) => Expected::Other,
    }
}

// What the statement at this place makes of statements and streams.
fn judged(
    alloc: Global,
    statements: Result<Vec<Statement>, AllocError>,
    second: &str,
    place: usize,
) -> Result<Expected, AllocError> {
    let statements = statements?;
    let resolved = streams(alloc, "a", second)?;
    let text = Text::new(alloc, "")?;
    let answer = dataset_at(
        alloc,
        statements.as_slice(),
        resolved.as_slice(),
        &[],
        place,
        0,
        text,
    );
    Ok(found(answer))
}

fn with_insert(alloc: Global, second: &str) -> Result<Expected, AllocError> {
    let statements = both(alloc, table_of(alloc, "t"), insert(alloc, "T"));
    judged(alloc, statements, second, 0)
}

fn without_flow(alloc: Global) -> Result<Expected, AllocError> {
    let statements = both(alloc, table_of(alloc, "t"), table(alloc, "u", None));
    judged(alloc, statements, "a", 1)
}

#[test]
fn a_table_of_two_flows(rt: HostRuntime) -> Result<(), Fail> {
    let alloc = rt.alloc();
    assert!(rt; with_insert(alloc, "A")? == Expected::Columns(1));
    assert!(rt; with_insert(alloc, "b")? == Expected::Fault(2));
    assert!(rt; without_flow(alloc)? == Expected::Fault(2));
    Ok(())
}

fn places(alloc: Global) -> Result<Vec<usize>, AllocError> {
    let statements = both(alloc, insert(alloc, "T"), table_of(alloc, "t"))?;
    let name = Name::new(alloc, "t")?;
    if statements.len() < 2 {
        return Err(AllocError);
    }
    dataset_places(alloc, statements.as_slice(), 1, &name)
}

#[test]
fn flows_stand_behind_their_dataset(rt: HostRuntime) -> Result<(), Fail> {
    let found = places(rt.alloc())?;
    assert!(rt; found.as_slice() == [1, 0].as_slice());
    Ok(())
}
