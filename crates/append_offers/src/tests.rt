// Two tables of one store: `t` reads a folder, and `u` reads `t`.
ghost use Rattle.std.specs.Prelude.{◌≡◌, IfOk, IfSome};
ghost use Rattle.commit_payloads.specs.Payloads.{IsWritable};
ghost use Rattle.state_model.specs.Follows.{Fits};
ghost use Rattle.pair_store.specs.Store.{store_state};
ghost use Rattle.flow_news.specs.News.{IsListingFor};

use crate::{FolderListing, Offer, append_offer};
use commit_payloads::{Payload, read};
use disk_model::MemDisk;
use landing_core::{Landing, ListEnd, MemLanding};
use pair_store::Store;
use par_rows::NoGate;
use plan_core::{
    Action, AppendFlow, Body, Dataset, Expectation, Expectations, Exprs, Origin, Place, Stop,
};
use row_expr::{Arithmetic, Expr};
use sqlite_items::Boxed;
use std::alloc::{AllocError, Global};
use std::marker::Brand;
use std::process::Abort;
use std::sync::ledger::{Blank, Ledger};
use std::test::Fail;
use std::thread::Threads;
use value_core::{Column, Format, Kind, ListOf, Name, Schema, Shape, Steps, Text, Value};

/// Fresh tables `t` and `u` of one BIGINT column `a`, with a flow each of their own names: that of `t`
/// over the folder `in`, and that of `u` over `t`.
const DEFINE: [u8; 188] = [
    1, 1, 1, 0, 0, 0, 0, 0, 0, 0, 2, 0, 0, 0, 0, 0, 0, 0, 1, b't', 0, 0, 0, 0, 0, 0, 0, 1, b'x', 0,
    0, 0, 0, 0, 0, 0, 0, 1, 0, 0, 0, 0, 0, 0, 0, 1, b'a', 3, 0, 0, 0, 0, 0, 0, 0, 0, 0, 0, 0, 0, 0,
    0, 0, 1, 0, 0, 0, 0, 0, 0, 0, 1, b't', 0, 0, 0, 0, 0, 0, 0, 0, 2, b'i', b'n', 0, 0, 0, 0, 0, 0,
    0, 0, 0, 0, 0, 0, 0, 0, 0, 0, 0, 0, 0, 0, 0, 0, 0, 1, b'u', 0, 0, 0, 0, 0, 0, 0, 1, b'x', 0, 0,
    0, 0, 0, 0, 0, 0, 1, 0, 0, 0, 0, 0, 0, 0, 1, b'a', 3, 0, 0, 0, 0, 0, 0, 0, 0, 0, 0, 0, 0, 0, 0,
    0, 1, 0, 0, 0, 0, 0, 0, 0, 1, b'u', 1, 0, 0, 0, 0, 0, 0, 0, 1, b't', 0, 0, 0, 0, 0, 0, 0, 0, 0,
    0, 0, 0, 0, 0, 0, 0,
];

/// A fresh table `t` like the other one, with an expectation `e`.
const DEFINE_COUNTED: [u8; 110] = [
    1, 1, 1, 0, 0, 0, 0, 0, 0, 0, 1, 0, 0, 0, 0, 0, 0, 0, 1, b't', 0, 0, 0, 0, 0, 0, 0, 1, b'x', 0,
    0, 0, 0, 0, 0, 0, 0, 1, 0, 0, 0, 0, 0, 0, 0, 1, b'a', 3, 0, 0, 0, 0, 0, 0, 0, 1, 0, 0, 0, 0, 0,
    0, 0, 1, b'e', 0, 0, 0, 0, 0, 0, 0, 0, 1, 0, 0, 0, 0, 0, 0, 0, 1, b't', 0, 0, 0, 0, 0, 0, 0, 0,
    2, b'i', b'n', 0, 0, 0, 0, 0, 0, 0, 0, 0, 0, 0, 0, 0, 0, 0, 0,
];

/// A batch of no row into `t`, with 2^63 - 1 rows that passed.
const COUNT: [u8; 77] = [
    1, 2, 0, 0, 0, 0, 0, 0, 0, 1, b't', 0, 0, 0, 0, 0, 0, 0, 1, b't', 0, 0, 0, 0, 0, 0, 0, 0, 0, 0,
    0, 0, 0, 0, 0, 0, 0, 0, 0, 0, 0, 0, 0, 0, 0, 0, 0, 0, 0, 0, 0, 0, 1, 127, 255, 255, 255, 255,
    255, 255, 255, 0, 0, 0, 0, 0, 0, 0, 0, 0, 0, 0, 0, 0, 0, 0, 0,
];

fn only<T: Drop>(alloc: Global, item: T) -> Result<ListOf<T>, AllocError> {
    let mut list = ListOf::new(alloc);
    list.push(item)?;
    Ok(list)
}

/// The column `a BIGINT`.
fn columns(alloc: Global) -> Result<Schema, AllocError> {
    let name = Name::new(alloc, "a")?;
    let kind = Kind::Big;
    only(alloc, Column { name, kind })
}

/// Files of JSON.
fn files(dir: Text, columns: Schema) -> Origin {
    Origin::Files {
        dir,
        shape: Shape {
            format: Format::Json,
            columns,
            rescued: false,
            header: false,
            sep: b',',
        },
    }
}

/// The files of the folder `in`.
fn folder(alloc: Global) -> Result<Boxed<Origin>, AllocError> {
    let columns = columns(alloc)?;
    Boxed::new(alloc, files(Text::new(alloc, "in")?, columns))
}

/// The table `t`.
fn source(alloc: Global) -> Result<Boxed<Origin>, AllocError> {
    let name = Name::new(alloc, "t")?;
    Boxed::new(alloc, Origin::Table { name })
}

/// `a`
fn outputs(alloc: Global) -> Result<Exprs, AllocError> {
    only(alloc, Expr::Column(0, Kind::Big))
}

fn flow_of(name: Name, origin: Boxed<Origin>, outputs: Exprs) -> AppendFlow {
    AppendFlow {
        name,
        origin: origin.into_inner(),
        filter: None,
        outputs,
    }
}

/// `a DIV a`
fn shares(alloc: Global) -> Result<Exprs, AllocError> {
    let left = Boxed::new(alloc, Expr::Column(0, Kind::Big))?;
    let right = Boxed::new(alloc, Expr::Column(0, Kind::Big))?;
    only(alloc, Expr::Arithmetic(Arithmetic::Div, left, right))
}

/// `CONSTRAINT e EXPECT (TRUE)`
fn expectations(alloc: Global) -> Result<Expectations, AllocError> {
    let name = Name::new(alloc, "e")?;
    let test = Expr::Literal(Value::Bool(true));
    let action = Action::Warn;
    only(alloc, Expectation { name, test, action })
}

/// `SELECT .. FROM STREAM ..`
fn flow_giving(
    alloc: Global,
    name: &str,
    origin: Boxed<Origin>,
    outputs: Exprs,
) -> Result<Boxed<AppendFlow>, AllocError> {
    let name = Name::new(alloc, name)?;
    Boxed::new(alloc, flow_of(name, origin, outputs))
}

/// `SELECT a FROM STREAM ..`
fn flow(alloc: Global, name: &str, origin: Boxed<Origin>) -> Result<Boxed<AppendFlow>, AllocError> {
    let outputs = outputs(alloc)?;
    flow_giving(alloc, name, origin, outputs)
}

fn table_of(
    alloc: Global,
    name: Name,
    text: Text,
    columns: Schema,
    expectations: Expectations,
) -> Dataset {
    Dataset {
        name,
        text,
        body: Body::Append(ListOf::new(alloc)),
        columns,
        expectations,
        level: 0,
    }
}

fn table_with(
    alloc: Global,
    name: &str,
    expectations: Expectations,
) -> Result<Boxed<Dataset>, AllocError> {
    let name = Name::new(alloc, name)?;
    let text = Text::new(alloc, "x")?;
    let columns = columns(alloc)?;
    Boxed::new(alloc, table_of(alloc, name, text, columns, expectations))
}

fn table(alloc: Global, name: &str) -> Result<Boxed<Dataset>, AllocError> {
    table_with(alloc, name, ListOf::new(alloc))
}

/// What the folder of a flow lists; `None` for want of memory.
fn list<L: Landing>(alloc: Global, landing: &mut L, flow: &AppendFlow) -> Option<FolderListing>
    ensures { IfSome result (IsListingFor L.tells flow.now.origin (L.present landing.new)) }
{
    match &flow.origin {
        Origin::Table { .. } => Some(FolderListing::NoFolder),
        Origin::Files { dir, .. } => {
            let before = landing.faults();
            match landing.list(alloc, dir.as_str()) {
                Ok(listing) => Some(FolderListing::Files(listing)),
                Err(ListEnd::Failed) => {
                    let after = landing.faults();
                    Some(FolderListing::Failed { before, after })
                }
                Err(ListEnd::Memory) => None,
            }
        }
    }
}

/// What a flow comes to; `None` for want of memory.
fn offered<L: Landing, H: Threads + Sync, K: Ledger>(
    rt: &H,
    alloc: Global,
    store: &Store,
    landing: &mut L,
    table: &Dataset,
    flow: &AppendFlow,
    steps: &mut Steps<K>,
) -> Option<Offer> {
    let listing = list(alloc, landing, flow)?;
    append_offer(
        rt, alloc, store, landing, &listing, table, flow, &NoGate, 2, steps,
    )
    .ok()
}

/// An offer by a number for its kind, and one beside it: how many rows were read, the size of a file that is too short,
/// the count of faults, the number of a row, or a count that is too high.
fn shown(offer: &Option<Offer>) -> (u8, u64) {
    match offer {
        None => (0, 0),
        Some(Offer::Idle) => (1, 0),
        Some(Offer::Ready { read, .. }) => (2, *read),
        Some(Offer::Unfit) => (3, 0),
        Some(Offer::Halted(Stop::Shrunk { size, .. })) => (4, *size),
        Some(Offer::Halted(Stop::Landing { after, .. })) => (5, *after),
        Some(
            Offer::Halted(
                Stop::ZeroDivisor {
                    place: Place::Number(row),
                },
            ),
        ) => (6, *row),
        Some(Offer::Halted(Stop::CountOverflow { total, .. })) => {
            (7, u64::try_from(*total).unwrap_or(0))
        }
        Some(Offer::Halted(_)) => (8, 0),
    }
}

/// What a flow comes to, by numbers.
fn seen<L: Landing, H: Threads + Sync, K: Ledger>(
    rt: &H,
    alloc: Global,
    store: &Store,
    landing: &mut L,
    table: &Dataset,
    flow: &AppendFlow,
    steps: &mut Steps<K>,
) -> (u8, u64) {
    shown(&offered(rt, alloc, store, landing, table, flow, steps))
}

/// The payload with this spelling, which follows what the store holds.
fn spelled<L: Ledger>(
    rt: &impl Abort,
    alloc: Global,
    store: &Store,
    bytes: &[u8],
    steps: &mut Steps<L>,
) -> Result<Payload, Fail>
    ensures form { IfOk result IsWritable }
    ensures fits { IfOk result (λ payload. Fits (store_state store.now) payload) }
{
    let payload = read(alloc, bytes)?.ok_or("no payload")?;
    checked(rt, store, payload, steps)
}

/// The payload of an offer, which follows what the store holds.
fn taken<L: Ledger>(
    rt: &impl Abort,
    store: &Store,
    offer: Option<Offer>,
    steps: &mut Steps<L>,
) -> Result<Payload, Fail>
    ensures form { IfOk result IsWritable }
    ensures fits { IfOk result (λ payload. Fits (store_state store.now) payload) }
{
    match offer {
        Some(Offer::Ready { batch, .. }) => checked(rt, store, Payload::Take(batch), steps),
        _ => Err("no batch".into()),
    }
}

/// The payload of the batch that a flow comes to.
fn batch<L: Landing, H: Threads + Abort + Sync, K: Ledger>(
    rt: &H,
    alloc: Global,
    store: &Store,
    landing: &mut L,
    table: &Dataset,
    flow: &AppendFlow,
    steps: &mut Steps<K>,
) -> Result<Payload, Fail>
    ensures form { IfOk result IsWritable }
    ensures fits { IfOk result (λ payload. Fits (store_state store.now) payload) }
{
    let offer = offered(rt, alloc, store, landing, table, flow, steps);
    taken(rt, store, offer, steps)
}

/// The payload, which follows what the store holds.
fn checked<L: Ledger>(
    rt: &impl Abort,
    store: &Store,
    payload: Payload,
    steps: &mut Steps<L>,
) -> Result<Payload, Fail>
    ensures form { IfOk result IsWritable }
    ensures fits { IfOk result (λ payload. Fits (store_state store.now) payload) }
{
    let follows = store.follows(&payload, steps)?;
    assert!(rt; follows);
    Ok(payload)
}

/// A store with the tables.
fn stored<L: Ledger>(rt: &impl Abort, alloc: Global, steps: &mut Steps<L>) -> Result<Store, Fail> {
    let mut disk = MemDisk::new(alloc, &[], &[], 4096, 4096, Vec::new(alloc))?;
    let mut store = Store::load(alloc, &mut disk, steps)?;
    let define = spelled(rt, alloc, &store, &DEFINE, steps)?;
    store.commit(&mut disk, define)?;
    Ok(store)
}

/// A store with the table that has an expectation, on which 2^63 - 1 rows passed.
fn counted<L: Ledger>(rt: &impl Abort, alloc: Global, steps: &mut Steps<L>) -> Result<Store, Fail> {
    let mut disk = MemDisk::new(alloc, &[], &[], 4096, 4096, Vec::new(alloc))?;
    let mut store = Store::load(alloc, &mut disk, steps)?;
    let define = spelled(rt, alloc, &store, &DEFINE_COUNTED, steps)?;
    store.commit(&mut disk, define)?;
    let count = spelled(rt, alloc, &store, &COUNT, steps)?;
    store.commit(&mut disk, count)?;
    Ok(store)
}

/// A folder is read up to its end, then nothing is new, and then its file is too short.
fn reads_files<H: Threads + Abort + Sync, L: Ledger>(
    rt: &H,
    alloc: Global,
    blank: Blank,
) -> Result<(), Fail>
    requires name { blank.name ≡ L.name }
    requires parts { blank.parts ≡ L.parts }
    requires some { blank.parts ≡ 1 }
{
    let mut steps: Steps<L> = Steps::new(blank);
    let mut disk = MemDisk::new(alloc, &[], &[], 4096, 4096, Vec::new(alloc))?;
    let mut store = Store::load(alloc, &mut disk, &mut steps)?;
    let define = spelled(rt, alloc, &store, &DEFINE, &mut steps)?;
    store.commit(&mut disk, define)?;
    let t = table(alloc, "t")?;
    let flow = flow(alloc, "t", folder(alloc)?)?;
    let mut landing = MemLanding::new(alloc, Vec::new(alloc));
    landing.put("in", "f", b"{\"a\":7}\n{\"a\":5}\n")?;
    let first = batch(
        rt,
        alloc,
        &store,
        &mut landing,
        t.get(),
        flow.get(),
        &mut steps,
    )?;
    store.commit(&mut disk, first)?;
    let now = seen(
        rt,
        alloc,
        &store,
        &mut landing,
        t.get(),
        flow.get(),
        &mut steps,
    );
    assert!(rt; now == (1, 0));
    landing.put("in", "f", b"{}")?;
    let now = seen(
        rt,
        alloc,
        &store,
        &mut landing,
        t.get(),
        flow.get(),
        &mut steps,
    );
    assert!(rt; now == (4, 2));
    Ok(())
}

#[test]
fn a_folder_is_read_up_to_its_end(rt: HostRuntime) -> Result<(), Fail> {
    reads_files::<_, Brand>(&rt, rt.alloc(), Blank::new(1))
}

/// A table that was never read is read whole, also where it is empty, and then nothing is new.
fn reads_a_table<H: Threads + Abort + Sync, L: Ledger>(
    rt: &H,
    alloc: Global,
    blank: Blank,
) -> Result<(), Fail>
    requires name { blank.name ≡ L.name }
    requires parts { blank.parts ≡ L.parts }
    requires some { blank.parts ≡ 1 }
{
    let mut steps: Steps<L> = Steps::new(blank);
    let mut disk = MemDisk::new(alloc, &[], &[], 4096, 4096, Vec::new(alloc))?;
    let mut store = Store::load(alloc, &mut disk, &mut steps)?;
    let define = spelled(rt, alloc, &store, &DEFINE, &mut steps)?;
    store.commit(&mut disk, define)?;
    let u = table(alloc, "u")?;
    let flow = flow(alloc, "u", source(alloc)?)?;
    let mut landing = MemLanding::new(alloc, Vec::new(alloc));
    let first = batch(
        rt,
        alloc,
        &store,
        &mut landing,
        u.get(),
        flow.get(),
        &mut steps,
    )?;
    store.commit(&mut disk, first)?;
    let now = seen(
        rt,
        alloc,
        &store,
        &mut landing,
        u.get(),
        flow.get(),
        &mut steps,
    );
    assert!(rt; now == (1, 0));
    Ok(())
}

#[test]
fn a_table_is_read_up_to_its_version(rt: HostRuntime) -> Result<(), Fail> {
    reads_a_table::<_, Brand>(&rt, rt.alloc(), Blank::new(1))
}

/// A listing fails, and then a read.
fn fails<H: Threads + Abort + Sync, L: Ledger>(
    rt: &H,
    alloc: Global,
    blank: Blank,
) -> Result<(), Fail>
    requires name { blank.name ≡ L.name }
    requires parts { blank.parts ≡ L.parts }
    requires some { blank.parts ≡ 1 }
{
    let mut steps: Steps<L> = Steps::new(blank);
    let store = stored(rt, alloc, &mut steps)?;
    let t = table(alloc, "t")?;
    let flow = flow(alloc, "t", folder(alloc)?)?;
    // The first call lists, and the third reads.
    let mut landing = MemLanding::new(alloc, failing(alloc)?);
    landing.put("in", "f", b"{\"a\":7}\n")?;
    let now = seen(
        rt,
        alloc,
        &store,
        &mut landing,
        t.get(),
        flow.get(),
        &mut steps,
    );
    assert!(rt; now == (5, 1));
    let now = seen(
        rt,
        alloc,
        &store,
        &mut landing,
        t.get(),
        flow.get(),
        &mut steps,
    );
    assert!(rt; now == (5, 2));
    Ok(())
}

fn failing(alloc: Global) -> Result<Vec<u64>, AllocError> {
    let mut calls = Vec::new(alloc);
    calls.push(1)?;
    calls.push(3)?;
    Ok(calls)
}

#[test]
fn a_landing_that_fails_halts_a_flow(rt: HostRuntime) -> Result<(), Fail> {
    fails::<_, Brand>(&rt, rt.alloc(), Blank::new(1))
}

/// A flow that the store doesn't have can't go on, and a row that divides by 0 halts one.
fn halts<H: Threads + Abort + Sync, L: Ledger>(
    rt: &H,
    alloc: Global,
    blank: Blank,
) -> Result<(), Fail>
    requires name { blank.name ≡ L.name }
    requires parts { blank.parts ≡ L.parts }
    requires some { blank.parts ≡ 1 }
{
    let mut steps: Steps<L> = Steps::new(blank);
    let store = stored(rt, alloc, &mut steps)?;
    let t = table(alloc, "t")?;
    let mut landing = MemLanding::new(alloc, Vec::new(alloc));
    landing.put("in", "f", b"{\"a\":7}\n{\"a\":0}\n")?;
    let other = flow(alloc, "w", folder(alloc)?)?;
    let now = seen(
        rt,
        alloc,
        &store,
        &mut landing,
        t.get(),
        other.get(),
        &mut steps,
    );
    assert!(rt; now == (3, 0));
    let flow = flow_giving(alloc, "t", folder(alloc)?, shares(alloc)?)?;
    let now = seen(
        rt,
        alloc,
        &store,
        &mut landing,
        t.get(),
        flow.get(),
        &mut steps,
    );
    assert!(rt; now == (6, 2));
    Ok(())
}

#[test]
fn a_row_halts_a_flow_and_a_lacking_flow_is_unfit(rt: HostRuntime) -> Result<(), Fail> {
    halts::<_, Brand>(&rt, rt.alloc(), Blank::new(1))
}

/// One row more than 2^63 - 1 that passed.
fn overflows<H: Threads + Abort + Sync, L: Ledger>(
    rt: &H,
    alloc: Global,
    blank: Blank,
) -> Result<(), Fail>
    requires name { blank.name ≡ L.name }
    requires parts { blank.parts ≡ L.parts }
    requires some { blank.parts ≡ 1 }
{
    let mut steps: Steps<L> = Steps::new(blank);
    let store = counted(rt, alloc, &mut steps)?;
    let t = table_with(alloc, "t", expectations(alloc)?)?;
    let flow = flow(alloc, "t", folder(alloc)?)?;
    let mut landing = MemLanding::new(alloc, Vec::new(alloc));
    landing.put("in", "f", b"{\"a\":7}\n")?;
    let now = seen(
        rt,
        alloc,
        &store,
        &mut landing,
        t.get(),
        flow.get(),
        &mut steps,
    );
    assert!(rt; now == (7, 9_223_372_036_854_775_808));
    Ok(())
}

#[test]
fn a_count_past_its_limit_halts_a_flow(rt: HostRuntime) -> Result<(), Fail> {
    overflows::<_, Brand>(&rt, rt.alloc(), Blank::new(1))
}
