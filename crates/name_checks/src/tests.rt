ghost use Rattle.std.specs.Prelude.{◌≤◌, length};

use crate::{LevelEnd, first_break, levels_of, reader_name};
use sql_tree::{Out, Select, SqlOrigin, Statement};
use sqlite_items::Items;
use statement_checks::{Break, CheckFault};
use std::alloc::{AllocError, Global};
use std::test::Fail;
use value_core::{ListOf, Name};

// ---- statements

fn select(alloc: Global, source: &str) -> Result<Select, AllocError> {
    let mut outs = Vec::new(alloc);
    outs.push(Out::Star {
        except: ListOf::new(alloc),
    })?;
    let name = Name::new(alloc, source)?;
    Ok(Select {
        outs: Items::from_vec(outs),
        origin: SqlOrigin::Table { stream: true, name },
        filter: None,
        groups: Items::new(alloc),
    })
}

fn table(alloc: Global, name: &str) -> Result<Statement, AllocError> {
    Ok(Statement::Table {
        name: Name::new(alloc, name)?,
        items: Items::new(alloc),
        select: None,
    })
}

fn table_as(alloc: Global, name: &str, source: &str) -> Result<Statement, AllocError> {
    let select = select(alloc, source)?;
    Ok(Statement::Table {
        name: Name::new(alloc, name)?,
        items: Items::new(alloc),
        select: Some(select),
    })
}

fn view(alloc: Global, name: &str, source: &str) -> Result<Statement, AllocError> {
    let select = select(alloc, source)?;
    Ok(Statement::View {
        name: Name::new(alloc, name)?,
        items: Items::new(alloc),
        select,
    })
}

fn insert(alloc: Global, target: &str, source: &str) -> Result<Statement, AllocError> {
    let select = select(alloc, source)?;
    let target = Name::new(alloc, target)?;
    Ok(Statement::Insert {
        flow: Name::new(alloc, "flow")?,
        target,
        select,
    })
}

// ---- what is found

// The name that is unknown, or that is a view's, in the last of these statements.
fn last_fault(alloc: Global, statements: Vec<Statement>) -> Result<Option<CheckFault>, AllocError>
    requires { length statements.items ≤ 1280 }
{
    let last = statements.len();
    match first_break(alloc, &Items::from_vec(statements))? {
        Some(Break { statement, fault }) => Ok(if statement as usize == last {
            Some(fault)
        } else {
            None
        }),
        None => Ok(None),
    }
}

fn is_unknown(found: Option<CheckFault>, wanted: &str) -> bool {
    match found {
        Some(CheckFault::UnknownName { name }) => name.as_str() == wanted,
        _ => false,
    }
}

fn is_view(found: Option<CheckFault>, wanted: &str) -> bool {
    match found {
        Some(CheckFault::NotStreaming { name }) => name.as_str() == wanted,
        _ => false,
    }
}

// A table `t` over itself, a view `v` of it, and this statement.
fn behind_two(alloc: Global, last: Statement) -> Result<Option<CheckFault>, AllocError> {
    let mut statements = Vec::new(alloc);
    statements.push(table(alloc, "t")?)?;
    statements.push(view(alloc, "v", "T")?)?;
    statements.push(last)?;
    last_fault(alloc, statements)
}

#[test]
fn names_of_no_dataset(rt: HostRuntime) -> Result<(), Fail> {
    let alloc = rt.alloc();
    assert!(rt; is_unknown(behind_two(alloc, insert(alloc, "x", "y")?)?, "x"));
    assert!(rt; is_view(behind_two(alloc, insert(alloc, "V", "y")?)?, "V"));
    assert!(rt; is_unknown(behind_two(alloc, insert(alloc, "t", "y")?)?, "y"));
    assert!(rt; behind_two(alloc, insert(alloc, "t", "V")?)?.is_none());
    Ok(())
}

fn spells(names: &[Name], wanted: &[&str]) -> bool {
    names.len() == wanted.len()
        && names
            .iter()
            .zip(wanted)
            .all(|(name, text)| name.as_str() == *text)
}

// Two tables that stream from one another, behind one that reads the first.
fn cycle(alloc: Global) -> Result<bool, AllocError> {
    let mut statements = Vec::new(alloc);
    statements.push(table_as(alloc, "a", "b")?)?;
    statements.push(table_as(alloc, "b", "a")?)?;
    match levels_of(alloc, &Items::from_vec(statements)) {
        Err(LevelEnd::Cycle { path }) => Ok(spells(path.as_slice(), &["a", "b", "a"])),
        _ => Ok(false),
    }
}

// A table over nothing, a flow from it into a second table, and a view of that.
fn layers(alloc: Global) -> Result<bool, AllocError> {
    let mut statements = Vec::new(alloc);
    statements.push(view(alloc, "gold", "silver")?)?;
    statements.push(table(alloc, "silver")?)?;
    statements.push(table(alloc, "bronze")?)?;
    statements.push(insert(alloc, "silver", "bronze")?)?;
    match levels_of(alloc, &Items::from_vec(statements)) {
        Ok(levels) => Ok(levels.as_slice() == [2, 1, 0].as_slice()),
        Err(_) => Ok(false),
    }
}

#[test]
fn levels_and_cycles(rt: HostRuntime) -> Result<(), Fail> {
    let alloc = rt.alloc();
    assert!(rt; cycle(alloc)?);
    assert!(rt; layers(alloc)?);
    let flow = insert(alloc, "t", "s")?;
    assert!(rt; reader_name(&flow).is_some());
    Ok(())
}
