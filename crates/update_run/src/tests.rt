// Two tables of one plan: `u`, which is declared first, streams from `t`, and `t` reads a folder.
ghost use Rattle.std.specs.Prelude.{◌≡◌, ◌∷◌, [], IfOk, IsTrue, None, OnOk, length};
ghost use Rattle.disk_model.specs.Disk.{IsHonest};
ghost use Rattle.commit_payloads.specs.Payloads.{IsWritable};
ghost use Rattle.plan_core.specs.Sound.{IsSoundPlan};
ghost use Rattle.state_model.specs.Follows.{Fits};
ghost use Rattle.pair_state.specs.Leads.{IsReachable};
ghost use Rattle.pair_store.specs.Store.{AreAsLeft, store_broken, store_state};
ghost use Rattle.update_plan.specs.Commits.{PartsKeepText};
ghost use Rattle.store_fitness.specs.Fitness.{AreAppends, AreStored, IsReady};
ghost use Rattle.flow_engine.specs.Flows.{FlowsAreNamed};
ghost use Rattle.flow_engine.specs.Points.{engine_halted, engine_state, engine_store};
ghost use Rattle.update_run.specs.TwoTables.{columns_a, flow_over, flow_with, shape_a, table_with, two_tables};
ghost use Rattle.plan_core.specs.declared.flow.Origin.TheVariants as origin;

use crate::{list_all, run_update};
use commit_payloads::{Payload, read};
use disk_model::{Disk, MemDisk, MemSink, Sink};
use flow_engine::Engine;
use landing_core::{Landing, MemLanding};
use pair_store::Store;
use par_rows::NoGate;
use plan_core::{AppendFlow, AppendFlows, Body, Dataset, Exprs, Origin, Plan};
use row_expr::Expr;
use sqlite_items::Boxed;
use std::alloc::{AllocError, Global};
use std::marker::Brand;
use std::process::Abort;
use std::sync::ledger::{Blank, Ledger};
use std::test::Fail;
use std::thread::Threads;
use value_core::{Column, Format, Kind, ListOf, Name, Schema, Shape, Steps, Text};

// ---- a plan

fn only<T: Drop>(alloc: Global, item: T) -> Result<ListOf<T>, AllocError>
    ensures { IfOk result (λ list. list ≡ item ∷ []) }
{
    let mut list = ListOf::new(alloc);
    list.push(item)?;
    Ok(list)
}

/// The column `a BIGINT`.
fn columns(alloc: Global) -> Result<Schema, AllocError>
    ensures { IfOk result (λ columns. columns ≡ columns_a) }
{
    let name = Name::new(alloc, "a")?;
    let kind = Kind::Big;
    only(alloc, Column { name, kind })
}

fn files(dir: Text, columns: Schema) -> Origin
    requires { columns ≡ columns_a }
    ensures { result ≡ origin.Files dir shape_a }
{
    Origin::Files {
        dir,
        shape: Shape {
            format: Format::Json,
            columns,
            rescued: false,
            header: false,
            sep: b',',
        },
    }
}

/// The files of the folder `in`.
fn folder(alloc: Global) -> Result<Boxed<Origin>, AllocError>
    ensures { IfOk result (λ from. from ≡ origin.Files (105 ∷ 110 ∷ []) shape_a) }
{
    let columns = columns(alloc)?;
    Boxed::new(alloc, files(Text::new(alloc, "in")?, columns))
}

/// The table `t`.
fn source(alloc: Global) -> Result<Boxed<Origin>, AllocError>
    ensures { IfOk result (λ from. from ≡ origin.Table (116 ∷ [])) }
{
    let name = Name::new(alloc, "t")?;
    Boxed::new(alloc, Origin::Table { name })
}

fn flow_of(name: Name, origin: Boxed<Origin>, outputs: Exprs) -> AppendFlow
    ensures { result ≡ flow_with name origin outputs }
{
    AppendFlow {
        name,
        origin: origin.into_inner(),
        filter: None,
        outputs,
    }
}

/// `SELECT a FROM STREAM ..`
fn flows(alloc: Global, name: &str, origin: Boxed<Origin>) -> Result<AppendFlows, AllocError>
    ensures { IfOk result (λ flows. flows ≡ flow_over name.now origin ∷ []) }
{
    let name = Name::new(alloc, name)?;
    let outputs = only(alloc, Expr::Column(0, Kind::Big))?;
    only(alloc, flow_of(name, origin, outputs))
}

fn table_of(
    alloc: Global,
    name: Name,
    text: Text,
    level: u32,
    columns: Schema,
    flows: AppendFlows,
) -> Dataset
    ensures { result ≡ table_with name text level columns flows }
{
    Dataset {
        name,
        text,
        body: Body::Append(flows),
        columns,
        expectations: ListOf::new(alloc),
        level,
    }
}

fn table(
    alloc: Global,
    name: &str,
    level: u32,
    flows: AppendFlows,
) -> Result<Boxed<Dataset>, AllocError>
    ensures { IfOk result (λ table. table ≡ table_with name.now (120 ∷ []) level columns_a flows) }
{
    let name = Name::new(alloc, name)?;
    let text = Text::new(alloc, "x")?;
    let columns = columns(alloc)?;
    Boxed::new(alloc, table_of(alloc, name, text, level, columns, flows))
}

/// `u` and `t`.
fn plan_of(alloc: Global) -> Result<Plan, AllocError>
    ensures { IfOk result (λ plan. plan ≡ two_tables) }
{
    let mut plan = Plan::new(alloc);
    let u = table(alloc, "u", 1, flows(alloc, "u", source(alloc)?)?)?;
    plan.add(alloc, u.into_inner())?;
    let t = table(alloc, "t", 0, flows(alloc, "t", folder(alloc)?)?)?;
    plan.add(alloc, t.into_inner())?;
    Ok(plan)
}

/// They are a sound plan of append tables.
fn sound_plan(alloc: Global) -> Result<Plan, AllocError>
    ensures appends { IfOk result AreAppends }
    ensures sound { IfOk result IsSoundPlan }
    ensures text { IfOk result PartsKeepText }
    ensures named { IfOk result FlowsAreNamed }
{
    let plan = plan_of(alloc)?;
    Ok(plan)
}

// ---- a store

/// Fresh tables `t` and `u` of one BIGINT column `a`, with a flow each of their own names: that of `t`
/// over the folder `in`, and that of `u` over `t`.
const DEFINE: [u8; 188] = [
    1, 1, 1, 0, 0, 0, 0, 0, 0, 0, 2, 0, 0, 0, 0, 0, 0, 0, 1, b't', 0, 0, 0, 0, 0, 0, 0, 1, b'x', 0,
    0, 0, 0, 0, 0, 0, 0, 1, 0, 0, 0, 0, 0, 0, 0, 1, b'a', 3, 0, 0, 0, 0, 0, 0, 0, 0, 0, 0, 0, 0, 0,
    0, 0, 1, 0, 0, 0, 0, 0, 0, 0, 1, b't', 0, 0, 0, 0, 0, 0, 0, 0, 2, b'i', b'n', 0, 0, 0, 0, 0, 0,
    0, 0, 0, 0, 0, 0, 0, 0, 0, 0, 0, 0, 0, 0, 0, 0, 0, 1, b'u', 0, 0, 0, 0, 0, 0, 0, 1, b'x', 0, 0,
    0, 0, 0, 0, 0, 0, 1, 0, 0, 0, 0, 0, 0, 0, 1, b'a', 3, 0, 0, 0, 0, 0, 0, 0, 0, 0, 0, 0, 0, 0, 0,
    0, 1, 0, 0, 0, 0, 0, 0, 0, 1, b'u', 1, 0, 0, 0, 0, 0, 0, 0, 1, b't', 0, 0, 0, 0, 0, 0, 0, 0, 0,
    0, 0, 0, 0, 0, 0, 0,
];

/// The payload of these bytes, which follows what the store holds.
fn next<K: Ledger>(
    rt: &impl Abort,
    alloc: Global,
    store: &Store,
    bytes: &[u8],
    steps: &mut Steps<K>,
) -> Result<Payload, Fail>
    ensures form { IfOk result IsWritable }
    ensures fits { IfOk result (λ payload. Fits (store_state store.now) payload) }
{
    let payload = read(alloc, bytes)?.ok_or("no payload")?;
    let follows = store.follows(&payload, steps)?;
    assert!(rt; follows);
    Ok(payload)
}

/// A store with both tables.
fn defined<D: Disk, K: Ledger>(
    rt: &impl Abort,
    alloc: Global,
    disk: &mut D,
    steps: &mut Steps<K>,
) -> Result<Store, Fail>
    requires honest { D.tells → IsHonest (D.state disk.old) }
    ensures whole { IfOk result (λ store. store_broken store ≡ None) }
    ensures reached { IfOk result (λ store. IsReachable (store_state store)) }
    ensures at_rest { D.tells → IfOk result (λ store. AreAsLeft store (D.state disk.new)) }
    ensures still_honest { D.tells → OnOk result (IsHonest (D.state disk.new)) }
{
    let mut store = Store::load(alloc, disk, steps)?;
    let payload = next(rt, alloc, &store, &DEFINE, steps)?;
    store.commit(disk, payload)?;
    Ok(store)
}

/// Whether a store has each dataset of a plan.
fn has_all(store: &Store, plan: &[Dataset]) -> bool
    ensures { IsTrue result → AreStored plan.now (store_state store.now) }
{
    for dataset in plan {
        if store.table(&dataset.name).is_none() {
            return false;
        }
    }
    true
}

fn opened<R: Abort + Threads + Sync, K: Ledger>(
    rt: &R,
    alloc: Global,
    store: Store,
    plan: &Plan,
    steps: &mut Steps<K>,
) -> Result<Engine, Fail>
    requires { IsReachable (store_state store) }
    ensures ready { IfOk result (λ engine. IsReady plan.now (engine_state engine)) }
    ensures store { IfOk result (λ engine. engine_store engine ≡ store) }
    ensures marks { IfOk result (λ engine. length (engine_halted engine) ≡ length plan.now) }
{
    assert!(rt; has_all(&store, plan.as_slice()));
    let engine = Engine::load(rt, alloc, store, plan, &NoGate, 2, steps)?;
    Ok(engine)
}

// ---- updates

/// Updates a fresh store from a landing, and whether any flow stopped.
fn updated<R: Abort + Threads + Sync, L: Landing, S: Sink, K: Ledger>(
    rt: &R,
    alloc: Global,
    landing: &mut L,
    out: &mut S,
    blank: Blank,
) -> Result<bool, Fail>
    requires name { blank.name ≡ K.name }
    requires parts { blank.parts ≡ K.parts }
    requires some { blank.parts ≡ 1 }
{
    let mut steps: Steps<K> = Steps::new(blank);
    let mut disk = MemDisk::new(alloc, &[], &[], 4096, 4096, Vec::new(alloc))?;
    let store = defined(rt, alloc, &mut disk, &mut steps)?;
    let plan = sound_plan(alloc)?;
    let mut engine = opened(rt, alloc, store, &plan, &mut steps)?;
    let stopped = run_update(
        rt,
        alloc,
        &plan,
        &mut engine,
        &mut disk,
        landing,
        out,
        &NoGate,
        2,
        &mut steps,
    )?;
    Ok(stopped)
}

const LINES: &[u8] = b"{\"a\":7}\n{\"a\":8}\n";

#[test]
fn a_lesser_level_runs_first_and_its_rows_are_read(rt: HostRuntime) -> Result<(), Fail> {
    let alloc = rt.alloc();
    let mut landing = MemLanding::new(alloc, Vec::new(alloc));
    landing.put("in", "f", LINES)?;
    let mut out = MemSink::new(alloc, Vec::new(alloc));
    let stopped = updated::<HostRuntime, MemLanding, MemSink, Brand>(
        &rt,
        alloc,
        &mut landing,
        &mut out,
        Blank::new(1),
    )?;
    assert!(rt; !stopped);
    let lines: &[u8] =
        b"flow t into t: completed, 2 rows read, version 1\nflow u into u: completed, 2 rows read, version 1\n";
    assert!(rt; out.bytes() == lines);
    Ok(())
}

#[test]
fn a_listing_that_fails_stops_its_flow(rt: HostRuntime) -> Result<(), Fail> {
    let alloc = rt.alloc();
    let mut landing = MemLanding::new(alloc, vec![in alloc; 1]?);
    landing.put("in", "f", LINES)?;
    let mut out = MemSink::new(alloc, Vec::new(alloc));
    let stopped = updated::<HostRuntime, MemLanding, MemSink, Brand>(
        &rt,
        alloc,
        &mut landing,
        &mut out,
        Blank::new(1),
    )?;
    assert!(rt; stopped);
    let lines: &[u8] = b"flow t into t: stopped: landing failed\nflow u into u: skipped: t\n";
    assert!(rt; out.bytes() == lines);
    Ok(())
}

#[test]
fn a_folder_is_listed_once(rt: HostRuntime) -> Result<(), Fail> {
    let alloc = rt.alloc();
    let mut landing = MemLanding::new(alloc, Vec::new(alloc));
    landing.put("in", "f", LINES)?;
    let plan = plan_of(alloc)?;
    let listings = list_all(alloc, &plan, &mut landing)?;
    assert!(rt; listings.len() == 1);
    Ok(())
}
