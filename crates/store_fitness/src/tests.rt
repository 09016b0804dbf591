// Two tables of one store: `t` reads a folder, and `u` reads `t`.
ghost use Rattle.std.specs.Prelude.{◌≡◌, IfOk};
ghost use Rattle.commit_payloads.specs.Payloads.{IsWritable};
ghost use Rattle.state_model.specs.Follows.{Fits};
ghost use Rattle.pair_store.specs.Store.{store_state};

use crate::first_unfit;
use commit_payloads::{Payload, read};
use disk_model::MemDisk;
use pair_store::Store;
use plan_core::{AppendFlow, AppendFlows, Body, Dataset, Exprs, Origin, Plan};
use row_expr::Expr;
use sqlite_items::Boxed;
use std::alloc::{AllocError, Global};
use std::marker::Brand;
use std::process::Abort;
use std::sync::ledger::{Blank, Ledger};
use std::test::Fail;
use value_core::{Column, Format, Kind, ListOf, Name, Schema, Shape, Steps, Text};

/// The front of a base of two tables `t` and `u` of one BIGINT column `a`, with a flow each of their own
/// names: that of `t` over the folder `in`, and that of `u` over `t`. Its last bytes are version 0 of `t`,
/// without rows.
const HEAD: [u8; 203] = [
    1, 5, 0, 0, 0, 0, 0, 0, 0, 2, 0, 0, 0, 0, 0, 0, 0, 1, b't', 0, 0, 0, 0, 0, 0, 0, 1, b'x', 0, 0,
    0, 0, 0, 0, 0, 0, 1, 0, 0, 0, 0, 0, 0, 0, 1, b'a', 3, 0, 0, 0, 0, 0, 0, 0, 0, 0, 0, 0, 0, 0, 0,
    0, 1, 0, 0, 0, 0, 0, 0, 0, 1, b't', 0, 0, 0, 0, 0, 0, 0, 0, 2, b'i', b'n', 0, 0, 0, 0, 0, 0, 0,
    0, 0, 0, 0, 0, 0, 0, 0, 0, 0, 0, 0, 0, 0, 0, 0, 1, b'u', 0, 0, 0, 0, 0, 0, 0, 1, b'x', 0, 0, 0,
    0, 0, 0, 0, 0, 1, 0, 0, 0, 0, 0, 0, 0, 1, b'a', 3, 0, 0, 0, 0, 0, 0, 0, 0, 0, 0, 0, 0, 0, 0, 0,
    1, 0, 0, 0, 0, 0, 0, 0, 1, b'u', 1, 0, 0, 0, 0, 0, 0, 0, 1, b't', 0, 0, 0, 0, 0, 0, 0, 0, 0, 0,
    0, 0, 0, 0, 0, 0, 0, 0, 0, 0, 0, 0, 0, 0, 0, 0, 0, 0, 0, 0, 0, 0,
];

/// `t` gained the row 7.
const GROWN: [u8; 41] = [
    0, 0, 0, 0, 0, 0, 0, 1, 0, 0, 0, 0, 0, 0, 0, 0, 0, 0, 0, 0, 0, 0, 0, 1, 0, 0, 0, 0, 0, 0, 0, 1,
    4, 0, 0, 0, 0, 0, 0, 0, 7,
];

/// `t` gained the row 7, and lost it.
const SHRUNK: [u8; 74] = [
    0, 0, 0, 0, 0, 0, 0, 2, 0, 0, 0, 0, 0, 0, 0, 0, 0, 0, 0, 0, 0, 0, 0, 1, 0, 0, 0, 0, 0, 0, 0, 1,
    4, 0, 0, 0, 0, 0, 0, 0, 7, 0, 0, 0, 0, 0, 0, 0, 1, 0, 0, 0, 0, 0, 0, 0, 1, 4, 0, 0, 0, 0, 0, 0,
    0, 7, 0, 0, 0, 0, 0, 0, 0, 0,
];

/// The end: `t` has read no file, and `u`, which is empty, `t` up to version 0.
const TAIL: [u8; 90] = [
    0, 0, 0, 0, 0, 0, 0, 1, 0, 0, 0, 0, 0, 0, 0, 0, 0, 0, 0, 0, 0, 0, 0, 0, 0, 0, 0, 0, 0, 0, 0, 0,
    0, 0, 0, 0, 0, 0, 0, 0, 0, 0, 0, 0, 0, 0, 0, 0, 0, 0, 0, 0, 0, 0, 0, 0, 0, 0, 0, 0, 0, 0, 0, 0,
    1, 1, 0, 0, 0, 0, 0, 0, 0, 0, 0, 0, 0, 0, 0, 0, 0, 0, 0, 0, 0, 0, 0, 0, 0, 0,
];

fn only<T: Drop>(alloc: Global, item: T) -> Result<ListOf<T>, AllocError> {
    let mut list = ListOf::new(alloc);
    list.push(item)?;
    Ok(list)
}

/// The column `a BIGINT`.
fn columns(alloc: Global) -> Result<Schema, AllocError> {
    let name = Name::new(alloc, "a")?;
    let kind = Kind::Big;
    only(alloc, Column { name, kind })
}

/// Files of JSON.
fn files(dir: Text, columns: Schema) -> Origin {
    Origin::Files {
        dir,
        shape: Shape {
            format: Format::Json,
            columns,
            rescued: false,
            header: false,
            sep: b',',
        },
    }
}

/// The files of the folder `in`.
fn folder(alloc: Global) -> Result<Boxed<Origin>, AllocError> {
    let columns = columns(alloc)?;
    Boxed::new(alloc, files(Text::new(alloc, "in")?, columns))
}

/// The table `t`.
fn source(alloc: Global) -> Result<Boxed<Origin>, AllocError> {
    let name = Name::new(alloc, "t")?;
    Boxed::new(alloc, Origin::Table { name })
}

/// `a`
fn outputs(alloc: Global) -> Result<Exprs, AllocError> {
    only(alloc, Expr::Column(0, Kind::Big))
}

fn flow_of(name: Name, origin: Boxed<Origin>, outputs: Exprs) -> AppendFlow {
    AppendFlow {
        name,
        origin: origin.into_inner(),
        filter: None,
        outputs,
    }
}

/// `SELECT a FROM STREAM ..`
fn flows(alloc: Global, name: &str, origin: Boxed<Origin>) -> Result<AppendFlows, AllocError> {
    let name = Name::new(alloc, name)?;
    let outputs = outputs(alloc)?;
    only(alloc, flow_of(name, origin, outputs))
}

fn table_of(alloc: Global, name: Name, text: Text, columns: Schema, flows: AppendFlows) -> Dataset {
    Dataset {
        name,
        text,
        body: Body::Append(flows),
        columns,
        expectations: ListOf::new(alloc),
        level: 0,
    }
}

fn table(
    alloc: Global,
    name: &str,
    text: &str,
    flows: AppendFlows,
) -> Result<Boxed<Dataset>, AllocError> {
    let name = Name::new(alloc, name)?;
    let text = Text::new(alloc, text)?;
    let columns = columns(alloc)?;
    Boxed::new(alloc, table_of(alloc, name, text, columns, flows))
}

/// The plan of both tables, with another text of `u` where it is changed.
fn plan_of(alloc: Global, is_changed: bool) -> Result<Plan, AllocError> {
    let text = if is_changed { "y" } else { "x" };
    let mut plan = Plan::new(alloc);
    let t = table(alloc, "t", "x", flows(alloc, "t", folder(alloc)?)?)?;
    plan.add(alloc, t.into_inner())?;
    let u = table(alloc, "u", text, flows(alloc, "u", source(alloc)?)?)?;
    plan.add(alloc, u.into_inner())?;
    Ok(plan)
}

/// A base in which `t` has these changes.
fn base(alloc: Global, changes: &[u8]) -> Result<Vec<u8>, AllocError> {
    let mut bytes = Vec::new(alloc);
    bytes.extend_from_slice(&HEAD)?;
    bytes.extend_from_slice(changes)?;
    bytes.extend_from_slice(&TAIL)?;
    Ok(bytes)
}

/// The payload of these bytes, which follows what the store holds.
fn next<L: Ledger>(
    rt: &impl Abort,
    alloc: Global,
    store: &Store,
    bytes: &[u8],
    steps: &mut Steps<L>,
) -> Result<Payload, Fail>
    ensures form { IfOk result IsWritable }
    ensures fits { IfOk result (λ payload. Fits (store_state store.now) payload) }
{
    let payload = read(alloc, bytes)?.ok_or("no payload")?;
    let follows = store.follows(&payload, steps)?;
    assert!(rt; follows);
    Ok(payload)
}

/// The number of a table that is told unfit: 0 for none, 1 for `t` and 2 for `u`.
fn number_of(unfit: Option<Name>) -> u8 {
    match unfit {
        None => 0,
        Some(name) => {
            if name.as_str() == "t" {
                1
            } else if name.as_str() == "u" {
                2
            } else {
                3
            }
        }
    }
}

/// The table of this number is told unfit of a store in which `t` has these changes, for the plan with the
/// text of `u` changed or not.
fn tells<L: Ledger>(
    rt: &impl Abort,
    alloc: Global,
    changes: &[u8],
    is_changed: bool,
    want: u8,
    blank: Blank,
) -> Result<(), Fail>
    requires name { blank.name ≡ L.name }
    requires parts { blank.parts ≡ L.parts }
    requires some { blank.parts ≡ 1 }
{
    let mut steps: Steps<L> = Steps::new(blank);
    let mut disk = MemDisk::new(alloc, &[], &[], 4096, 4096, Vec::new(alloc))?;
    let mut store = Store::load(alloc, &mut disk, &mut steps)?;
    let bytes = base(alloc, changes)?;
    let payload = next(rt, alloc, &store, bytes.as_slice(), &mut steps)?;
    store.commit(&mut disk, payload)?;
    let plan = plan_of(alloc, is_changed)?;
    let unfit = first_unfit(alloc, &store, &plan, &mut steps)?;
    assert!(rt; number_of(unfit) == want);
    Ok(())
}

#[test]
fn a_source_that_gained_a_row_fits(rt: HostRuntime) -> Result<(), Fail> {
    tells::<Brand>(&rt, rt.alloc(), &GROWN, false, 0, Blank::new(1))
}

#[test]
fn a_source_that_lost_a_row_is_told(rt: HostRuntime) -> Result<(), Fail> {
    tells::<Brand>(&rt, rt.alloc(), &SHRUNK, false, 2, Blank::new(1))
}

#[test]
fn another_text_is_told(rt: HostRuntime) -> Result<(), Fail> {
    tells::<Brand>(&rt, rt.alloc(), &GROWN, true, 2, Blank::new(1))
}
