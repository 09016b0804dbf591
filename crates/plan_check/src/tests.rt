use crate::{CheckRefusal, check};
use plan_core::{Dataset, Plan};
use sql_tree::{OptionValue, Out, Select, SqlOption, SqlOptions, SqlOrigin, Statement, Statements};
use sqlite_items::{Boxed, Items};
use std::alloc::{AllocError, Global};
use std::test::Fail;
use value_core::{ListOf, Name, Text};

// ---- statements

fn option(alloc: Global, word: &str, text: &str) -> Result<SqlOption, AllocError> {
    let word = Name::new(alloc, word)?;
    let text = Text::new(alloc, text)?;
    Ok(SqlOption {
        word,
        value: OptionValue::Str(text),
    })
}

fn json(alloc: Global) -> Result<SqlOptions, AllocError> {
    let mut options = SqlOptions::new(alloc);
    options.push(option(alloc, "format", "json")?)?;
    options.push(option(alloc, "schema", "a INT")?)?;
    Ok(options)
}

fn files(alloc: Global) -> Result<Boxed<SqlOrigin>, AllocError> {
    let path = Text::new(alloc, "in")?;
    let options = json(alloc)?;
    Boxed::new(
        alloc,
        SqlOrigin::Files {
            stream: true,
            path,
            options,
        },
    )
}

fn dataset(alloc: Global, stream: bool, name: &str) -> Result<Boxed<SqlOrigin>, AllocError> {
    let name = Name::new(alloc, name)?;
    Boxed::new(alloc, SqlOrigin::Table { stream, name })
}

// `*` of what is read.
fn all_of(alloc: Global, origin: Boxed<SqlOrigin>) -> Result<Boxed<Select>, AllocError> {
    let mut outs = Vec::new(alloc);
    outs.push(Out::Star {
        except: ListOf::new(alloc),
    })?;
    let select = Select {
        outs: Items::from_vec(outs),
        origin: origin.into_inner(),
        filter: None,
        groups: Items::new(alloc),
    };
    Boxed::new(alloc, select)
}

fn view(
    alloc: Global,
    name: &str,
    origin: Result<Boxed<SqlOrigin>, AllocError>,
) -> Result<Boxed<Statement>, AllocError> {
    let name = Name::new(alloc, name)?;
    let select = all_of(alloc, origin?)?.into_inner();
    let items = Items::new(alloc);
    Boxed::new(
        alloc,
        Statement::View {
            name,
            items,
            select,
        },
    )
}

fn table(
    alloc: Global,
    name: &str,
    origin: Result<Boxed<SqlOrigin>, AllocError>,
) -> Result<Boxed<Statement>, AllocError> {
    let name = Name::new(alloc, name)?;
    let select = Some(all_of(alloc, origin?)?.into_inner());
    let items = Items::new(alloc);
    Boxed::new(
        alloc,
        Statement::Table {
            name,
            items,
            select,
        },
    )
}

fn bare_table(alloc: Global, name: &str) -> Result<Boxed<Statement>, AllocError> {
    let name = Name::new(alloc, name)?;
    let items = Items::new(alloc);
    Boxed::new(
        alloc,
        Statement::Table {
            name,
            items,
            select: None,
        },
    )
}

fn two(
    alloc: Global,
    first: Result<Boxed<Statement>, AllocError>,
    second: Result<Boxed<Statement>, AllocError>,
) -> Result<Statements, AllocError> {
    let mut statements = Vec::new(alloc);
    statements.push(first?.into_inner())?;
    statements.push(second?.into_inner())?;
    Ok(Items::from_vec(statements))
}

// ---- what is found

// The number of the statement that is refused; 0 where none is, and 9 for a cycle.
fn told(alloc: Global, statements: Statements) -> Result<u32, AllocError> {
    match check(alloc, &statements) {
        Ok(_) => Ok(0),
        Err(CheckRefusal::Refused(found)) => Ok(found.statement),
        Err(CheckRefusal::Cycle { path: _ }) => Ok(9),
        Err(CheckRefusal::Memory) => Err(AllocError),
    }
}

fn told_of(
    alloc: Global,
    first: Result<Boxed<Statement>, AllocError>,
    second: Result<Boxed<Statement>, AllocError>,
) -> Result<u32, AllocError> {
    told(alloc, two(alloc, first, second)?)
}

// Two tables of one name, of which the first reads no dataset that is there.
fn declared_first(alloc: Global) -> Result<u32, AllocError> {
    told_of(
        alloc,
        table(alloc, "t", dataset(alloc, true, "none")),
        bare_table(alloc, "T"),
    )
}

// A view of itself, and a view of no dataset.
fn names_before_cycles(alloc: Global) -> Result<u32, AllocError> {
    told_of(
        alloc,
        view(alloc, "a", dataset(alloc, false, "a")),
        view(alloc, "b", dataset(alloc, false, "none")),
    )
}

// Two views of one another.
fn cycle(alloc: Global) -> Result<u32, AllocError> {
    told_of(
        alloc,
        view(alloc, "a", dataset(alloc, false, "b")),
        view(alloc, "b", dataset(alloc, false, "a")),
    )
}

// A view that streams from a table that nothing fills.
fn lesser_level_first(alloc: Global) -> Result<u32, AllocError> {
    told_of(
        alloc,
        view(alloc, "gold", dataset(alloc, true, "silver")),
        bare_table(alloc, "silver"),
    )
}

fn is_at(dataset: &Dataset, name: &str, level: u32) -> bool {
    dataset.name.as_str() == name && dataset.level == level
}

fn is_layered(plan: &Plan) -> bool {
    match plan.as_slice() {
        [gold, silver] => is_at(gold, "gold", 1) && is_at(silver, "silver", 0),
        _ => false,
    }
}

// A view of a table of files that stands behind it.
fn layers(alloc: Global) -> Result<bool, AllocError> {
    let gold = view(alloc, "gold", dataset(alloc, false, "silver"));
    let silver = table(alloc, "silver", files(alloc));
    match check(alloc, &two(alloc, gold, silver)?) {
        Ok(plan) => Ok(is_layered(&plan)),
        Err(_) => Ok(false),
    }
}

#[test]
fn phases_come_in_their_order(rt: HostRuntime) -> Result<(), Fail> {
    let alloc = rt.alloc();
    assert!(rt; declared_first(alloc)? == 2);
    assert!(rt; names_before_cycles(alloc)? == 2);
    assert!(rt; cycle(alloc)? == 9);
    assert!(rt; lesser_level_first(alloc)? == 2);
    assert!(rt; layers(alloc)?);
    Ok(())
}
