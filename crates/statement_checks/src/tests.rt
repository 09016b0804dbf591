use crate::{Break, CheckFault, dataset_name, first_break, flow_name};
use sql_tree::{
    CdcTree, Out, Select, SqlAction, SqlExpr, SqlItem, SqlOrigin, SqlSequence, SqlSome, SqlType,
    Statement,
};
use sqlite_items::Items;
use std::alloc::{AllocError, Global};
use std::test::Fail;
use value_core::{ListOf, Name, Names};

// ---- statements

fn names(alloc: Global, texts: &[&str]) -> Result<Names, AllocError> {
    let mut names = ListOf::new(alloc);
    for text in texts {
        let name = Name::new(alloc, *text)?;
        names.push(name)?;
    }
    Ok(names)
}

fn numbered(alloc: Global, count: u32) -> Result<Names, AllocError> {
    let mut names = ListOf::new(alloc);
    for number in 0..count {
        let text = format!(in alloc; "n{number}")?;
        names.push(Name::from_string(text))?;
    }
    Ok(names)
}

fn column(name: Name) -> SqlItem {
    SqlItem::Column {
        name,
        kind: SqlType::Int,
    }
}

fn expectation(name: Name) -> SqlItem {
    SqlItem::Expect {
        name,
        test: SqlExpr::Bool(true),
        action: SqlAction::Warn,
    }
}

fn table(name: Name, items: Vec<SqlItem>, select: Option<Select>) -> Statement {
    Statement::Table {
        name,
        items: Items::from_vec(items),
        select,
    }
}

/// `SELECT * EXCEPT (..) FROM STREAM source`
fn select(alloc: Global, outs: Vec<Out>, source: Name) -> Select {
    Select {
        outs: Items::from_vec(outs),
        origin: SqlOrigin::Table {
            stream: true,
            name: source,
        },
        filter: None,
        groups: Items::new(alloc),
    }
}

fn insert(flow: Name, target: Name, select: Select) -> Statement {
    Statement::Insert {
        flow,
        target,
        select,
    }
}

fn feed(names: FeedNames, lists: FeedLists) -> Statement {
    Statement::Cdc {
        flow: names.flow,
        rest: CdcTree {
            target: names.target,
            origin: SqlOrigin::Table {
                stream: true,
                name: names.source,
            },
            keys: lists.keys,
            ignore_null: false,
            delete_when: None,
            truncate_when: None,
            sequence: lists.sequence,
            columns: lists.columns,
            scd: Some(2),
            track: lists.track,
        },
    }
}

#[derive(Drop)]
struct FeedNames {
    flow: Name,
    target: Name,
    source: Name,
}

#[derive(Drop)]
struct FeedLists {
    keys: Names,
    sequence: SqlSequence,
    columns: Option<SqlSome>,
    track: Option<SqlSome>,
}

fn feed_names(alloc: Global) -> Result<FeedNames, AllocError> {
    let flow = Name::new(alloc, "feed")?;
    let target = Name::new(alloc, "target")?;
    let source = Name::new(alloc, "source")?;
    Ok(FeedNames {
        flow,
        target,
        source,
    })
}

fn outs(alloc: Global, except: Names) -> Result<Vec<Out>, AllocError> {
    let mut outs = Vec::new(alloc);
    outs.push(Out::Star { except })?;
    Ok(outs)
}

// ---- statements behind others

fn add_table(
    statements: &mut Vec<Statement>,
    name: Name,
    items: Vec<SqlItem>,
) -> Result<(), AllocError> {
    statements.push(table(name, items, None))?;
    Ok(())
}

fn add_table_as(
    statements: &mut Vec<Statement>,
    alloc: Global,
    except: Names,
) -> Result<(), AllocError> {
    let outs = outs(alloc, except)?;
    let source = Name::new(alloc, "source")?;
    let name = Name::new(alloc, "t")?;
    let items = Vec::new(alloc);
    statements.push(table(name, items, Some(select(alloc, outs, source))))?;
    Ok(())
}

fn add_insert(
    statements: &mut Vec<Statement>,
    alloc: Global,
    flow: Name,
) -> Result<(), AllocError> {
    let outs = outs(alloc, ListOf::new(alloc))?;
    let source = Name::new(alloc, "source")?;
    let target = Name::new(alloc, "target")?;
    statements.push(insert(flow, target, select(alloc, outs, source)))?;
    Ok(())
}

// ---- what is found

fn found(alloc: Global, statements: Vec<Statement>) -> Result<Option<Break>, AllocError> {
    first_break(alloc, &Items::from_vec(statements))
}

// Of one table with these items.
fn in_table(alloc: Global, items: Vec<SqlItem>) -> Result<Option<Break>, AllocError> {
    let mut statements = Vec::new(alloc);
    add_table(&mut statements, Name::new(alloc, "t")?, items)?;
    found(alloc, statements)
}

// Of one change feed.
fn in_feed(alloc: Global, lists: FeedLists) -> Result<Option<Break>, AllocError> {
    let mut statements = Vec::new(alloc);
    statements.push(feed(feed_names(alloc)?, lists))?;
    found(alloc, statements)
}

fn is_repeat(found: Option<Break>, statement: u32, name: &str) -> bool {
    match found {
        Some(
            Break {
                statement: number,
                fault: CheckFault::Duplicate { name: repeat },
            },
        ) => number == statement && repeat.as_str() == name,
        _ => false,
    }
}

fn is_limit(found: Option<Break>, statement: u32, count: u32) -> bool {
    match found {
        Some(
            Break {
                statement: number,
                fault: CheckFault::TooMany { count: most },
            },
        ) => number == statement && most == count,
        _ => false,
    }
}

// ---- rows

// A table without AS is a dataset and has no flow.
fn is_dataset_alone(alloc: Global) -> Result<bool, AllocError> {
    let orders = table(Name::new(alloc, "Orders")?, Vec::new(alloc), None);
    Ok(dataset_name(&orders).is_some() && flow_name(&orders).is_none())
}

fn tables_of_one_name(alloc: Global) -> Result<bool, AllocError> {
    let mut statements = Vec::new(alloc);
    add_table(
        &mut statements,
        Name::new(alloc, "Orders")?,
        Vec::new(alloc),
    )?;
    add_table(
        &mut statements,
        Name::new(alloc, "orders")?,
        Vec::new(alloc),
    )?;
    Ok(is_repeat(found(alloc, statements)?, 2, "orders"))
}

// A table with AS has a flow of its name.
fn flow_of_a_table(alloc: Global) -> Result<Option<Break>, AllocError> {
    let mut statements = Vec::new(alloc);
    add_table_as(&mut statements, alloc, ListOf::new(alloc))?;
    add_insert(&mut statements, alloc, Name::new(alloc, "T")?)?;
    found(alloc, statements)
}

// One without has none.
fn no_flow_of_a_table(alloc: Global) -> Result<Option<Break>, AllocError> {
    let mut statements = Vec::new(alloc);
    add_table(&mut statements, Name::new(alloc, "t")?, Vec::new(alloc))?;
    add_insert(&mut statements, alloc, Name::new(alloc, "T")?)?;
    found(alloc, statements)
}

// A column `a` and an expectation `a`.
fn alike(alloc: Global) -> Result<Vec<SqlItem>, AllocError> {
    let mut items = Vec::new(alloc);
    items.push(column(Name::new(alloc, "a")?))?;
    items.push(expectation(Name::new(alloc, "a")?))?;
    Ok(items)
}

fn one_more_column(alloc: Global) -> Result<Option<Break>, AllocError> {
    let mut items = alike(alloc)?;
    items.push(column(Name::new(alloc, "A")?))?;
    in_table(alloc, items)
}

fn one_more_expectation(alloc: Global) -> Result<Option<Break>, AllocError> {
    let mut items = alike(alloc)?;
    items.push(expectation(Name::new(alloc, "b")?))?;
    in_table(alloc, items)
}

fn keys(alloc: Global, keys: Names) -> Result<Option<Break>, AllocError> {
    let sequence = SqlSequence::One(Name::new(alloc, "at")?);
    let lists = FeedLists {
        keys,
        sequence,
        columns: None,
        track: None,
    };
    in_feed(alloc, lists)
}

fn parts(alloc: Global, parts: Names) -> Result<Option<Break>, AllocError> {
    let keys = names(alloc, &["id"])?;
    let lists = FeedLists {
        keys,
        sequence: SqlSequence::Struct(parts),
        columns: None,
        track: None,
    };
    in_feed(alloc, lists)
}

// COLUMNS and TRACK HISTORY ON.
fn lists(alloc: Global, columns: Names, track: Names) -> Result<Option<Break>, AllocError> {
    let at = Name::new(alloc, "at")?;
    let keys = names(alloc, &["id"])?;
    let lists = FeedLists {
        keys,
        sequence: SqlSequence::One(at),
        columns: Some(SqlSome::Only(columns)),
        track: Some(SqlSome::Except(track)),
    };
    in_feed(alloc, lists)
}

fn excepted(alloc: Global, except: Names) -> Result<Option<Break>, AllocError> {
    let mut statements = Vec::new(alloc);
    add_table_as(&mut statements, alloc, except)?;
    found(alloc, statements)
}

fn columns_in(alloc: Global, count: u32) -> Result<Option<Break>, AllocError> {
    let mut items = Vec::new(alloc);
    for number in 0..count {
        let text = format!(in alloc; "n{number}")?;
        items.push(column(Name::from_string(text)))?;
    }
    in_table(alloc, items)
}

fn expectations_in(alloc: Global, count: u32) -> Result<Option<Break>, AllocError> {
    let mut items = Vec::new(alloc);
    for number in 0..count {
        let text = format!(in alloc; "n{number}")?;
        items.push(expectation(Name::from_string(text)))?;
    }
    in_table(alloc, items)
}

fn tables_in(alloc: Global, count: u32) -> Result<Option<Break>, AllocError> {
    let mut statements = Vec::new(alloc);
    for number in 0..count {
        let text = format!(in alloc; "n{number}")?;
        add_table(&mut statements, Name::from_string(text), Vec::new(alloc))?;
    }
    found(alloc, statements)
}

fn flows_in(alloc: Global, count: u32) -> Result<Option<Break>, AllocError> {
    let mut statements = Vec::new(alloc);
    for number in 0..count {
        let text = format!(in alloc; "n{number}")?;
        add_insert(&mut statements, alloc, Name::from_string(text))?;
    }
    found(alloc, statements)
}

#[test]
fn datasets_and_flows(rt: HostRuntime) -> Result<(), Fail> {
    let alloc = rt.alloc();
    assert!(rt; is_dataset_alone(alloc)?);
    assert!(rt; tables_of_one_name(alloc)?);
    assert!(rt; is_repeat(flow_of_a_table(alloc)?, 2, "T"));
    assert!(rt; no_flow_of_a_table(alloc)?.is_none());
    assert!(rt; is_limit(tables_in(alloc, 257)?, 257, 257));
    assert!(rt; is_limit(flows_in(alloc, 1025)?, 1025, 1025));
    Ok(())
}

#[test]
fn columns_and_expectations(rt: HostRuntime) -> Result<(), Fail> {
    let alloc = rt.alloc();
    assert!(rt; is_repeat(one_more_column(alloc)?, 1, "A"));
    assert!(rt; one_more_expectation(alloc)?.is_none());
    assert!(rt; is_limit(columns_in(alloc, 257)?, 1, 257));
    assert!(rt; is_limit(expectations_in(alloc, 33)?, 1, 33));
    Ok(())
}

#[test]
fn lists_of_names(rt: HostRuntime) -> Result<(), Fail> {
    let alloc = rt.alloc();
    assert!(rt; is_repeat(keys(alloc, names(alloc, &["id", "ID"])?)?, 1, "ID"));
    assert!(rt; is_limit(keys(alloc, numbered(alloc, 17)?)?, 1, 17));
    assert!(rt; is_repeat(parts(alloc, names(alloc, &["at", "At"])?)?, 1, "At"));
    assert!(rt; is_limit(parts(alloc, numbered(alloc, 9)?)?, 1, 9));
    Ok(())
}

#[test]
fn lists_of_columns(rt: HostRuntime) -> Result<(), Fail> {
    let alloc = rt.alloc();
    let columns = names(alloc, &["a", "b", "B"])?;
    let track = names(alloc, &["y", "Y"])?;
    assert!(rt; is_repeat(lists(alloc, columns, track)?, 1, "B"));
    assert!(rt; is_repeat(excepted(alloc, names(alloc, &["c", "d", "C"])?)?, 1, "C"));
    Ok(())
}
