// A command loads its store.
ghost use Rattle.std.specs.Prelude.{◌≡◌, None, IfErr, IfOk, OnErr};
ghost use Rattle.disk_model.specs.Disk.{IsHonest};
ghost use Rattle.disk_model.specs.Faults.{HasCauseOf};
ghost use Rattle.log_pair.specs.AtRest.{pair_end, pair_epoch};
ghost use Rattle.pair_state.specs.Leads.{IsReachable};
ghost use Rattle.pair_store.specs.Store.{AreAsLeft, store_broken, store_pair, store_state};
ghost use Rattle.pair_store.specs.declared.refusal.StoreRefusal.{StoreRefusal as Refused};
ghost use Rattle.pair_store.specs.declared.refusal.StoreRefusal.TheVariants.{Failed};
ghost use Rattle.message_text.specs.declared.refusal.Refusal.TheVariants.{Unloaded};
ghost use Rattle.commit_trails.specs.Trails.{UnloadedTrail};
ghost use Rattle.command_ends.specs.Loads.{IsLed, IsLoaded, IsNotLoaded};

use commit_trails::a_refused_load_leaves_a_trail;
use disk_model::Disk;
use message_text::Refusal;
use pair_store::Store;
use std::alloc::Global;
use std::sync::ledger::Ledger;
use value_core::Steps;

/// Loads the store of a command, or makes it where both files are empty.
///
/// The only answer beside a store is `Unloaded`, with why. A store that is loaded is on the disk, whole, and
/// one that payloads lead to.
pub fn load_store<D: Disk, K: Ledger>(
    alloc: Global,
    disk: &mut D,
    steps: &mut Steps<K>,
) -> Result<Store, Refusal>
    // What was read, and why it wasn't.
    ensures loaded { D.tells → IsHonest (D.state disk.old) → IfOk result (λ store. IsLoaded (D.room disk.old) (D.state disk.old).now (store_state store) (pair_end (store_pair store)) (pair_epoch (store_pair store))) }
    ensures refused { D.tells → IfErr result (λ why. (refusal : Refused) × (why ≡ Unloaded refusal) × IsNotLoaded (D.room disk.old) (D.state disk.old).now refusal) }

    // What a crash leaves.
    ensures led { D.tells → IsHonest (D.state disk.old) → IfOk result (λ store. IsLed D.tells_moments (D.state disk.old) (D.state disk.new)) }
    ensures unloaded { D.tells → IsHonest (D.state disk.old) → OnErr result (UnloadedTrail D.tells_moments (D.state disk.old) (D.state disk.new)) }
    ensures honest { D.tells → IsHonest (D.state disk.old) → IsHonest (D.state disk.new) }

    ensures reached { IfOk result (λ store. IsReachable (store_state store)) }
    ensures whole { IfOk result (λ store. store_broken store ≡ None) }
    ensures at_rest { D.tells → IsHonest (D.state disk.old) → IfOk result (λ store. AreAsLeft store (D.state disk.new)) }

    ensures only { IfErr result (λ why. (refusal : Refused) × (why ≡ Unloaded refusal)) }
    ensures cause { HasCauseOf (Refusal.Unloaded Failed) (D.faults disk.old) (D.faults disk.new) result }
    ensures room { D.room disk.new ≡ D.room disk.old }
{
    a_refused_load_leaves_a_trail::<D>();
    match Store::load(alloc, disk, steps) {
        Ok(store) => Ok(store),
        Err(refusal) => Err(Refusal::Unloaded(refusal)),
    }
}
