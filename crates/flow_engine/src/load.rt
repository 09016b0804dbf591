// An engine is opened.
ghost use Rattle.std.specs.Prelude.{◌≡◌, ◌≤◌, ℕ, List, Err, IfErr, IfOk};
ghost use Rattle.pair_state.specs.Leads.{IsReachable};
ghost use Rattle.pair_store.specs.Store.{store_state};
ghost use Rattle.store_fitness.specs.Fitness.{AreStored, IsReady, IsUnfit};
ghost use Rattle.flow_engine.specs.Engine as spec;
ghost use Rattle.flow_engine.specs.Engine.{no_marks};
ghost use Rattle.flow_engine.specs.Points.{engine_halted, engine_state, engine_store};
ghost use Rattle.flow_engine.specs.declared.ends.LoadEnd.TheVariants.{Memory, Unfit};

use crate::ends::LoadEnd;
use crate::engine::Engine;
use pair_store::Store;
use par_rows::Gate;
use plan_core::{Dataset, Plan};
use std::alloc::{AllocError, Global};
use std::sync::ledger::Ledger;
use std::thread::Threads;
use store_fitness::first_unfit;
use value_core::Steps;

/// A mark for each dataset of a plan, of which none is set.
fn no_marks(alloc: Global, plan: &[Dataset]) -> Result<Vec<bool>, AllocError>
    ensures { IfOk result (λ marks. marks.items ≡ spec.no_marks plan.now) }
{
    let mut marks = Vec::new(alloc);
    for _dataset in plan {
        marks.push(false)?;
    }
    Ok(marks)
}

/// The engine of a store that fits the plan.
fn open(alloc: Global, store: Store, plan: &Plan) -> Result<Engine, LoadEnd>
    ensures store { IfOk result (λ engine. engine_store engine ≡ store) }
    ensures marks { IfOk result (λ engine. engine_halted engine ≡ spec.no_marks plan.now) }
    ensures memory { IfErr result (λ end. end ≡ Memory) }
{
    let halted = no_marks(alloc, plan.as_slice())?;
    Ok(Engine { store, halted })
}

impl Engine {
    /// Opens the engine of a store that has each dataset of a plan of append tables.
    ///
    /// `Unfit` names the first stored dataset that is stored otherwise than the plan defines it and,
    /// where there is none, the first one with a flow that stands at a version of its source that isn't
    /// kept, or after which a row was removed. A store that only this program wrote is never unfit.
    /// No bound is claimed on the looks that opening takes.
    pub fn load<H: Threads + Sync, G: Gate + Sync, K: Ledger>(
        rt: &H,
        alloc: Global,
        store: Store,
        plan: &Plan,
        gate: &G,
        workers: u32,
        steps: &mut Steps<K>,
    ) -> Result<Engine, LoadEnd>
        requires workers { (1 ≤ workers) × (workers ≤ 64) }
        requires reached { IsReachable (store_state store) }
        requires stored { AreStored plan.now (store_state store) }
        ensures ready { IfOk result (λ engine. IsReady plan.now (engine_state engine)) }
        ensures store { IfOk result (λ engine. engine_store engine ≡ store) }
        ensures marks { IfOk result (λ engine. engine_halted engine ≡ no_marks plan.now) }
        ensures unfit { (name : List ℕ) → result ≡ Err (Unfit name) → IsUnfit plan.now (store_state store) name }
    {
        match first_unfit(alloc, &store, plan, steps) {
            Ok(None) => open(alloc, store, plan),
            Ok(Some(name)) => Err(LoadEnd::Unfit { name }),
            Err(AllocError) => Err(LoadEnd::Memory),
        }
    }
}
