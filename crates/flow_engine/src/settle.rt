// What a flow comes to is committed.
ghost use Rattle.std.specs.Prelude.{◌≡◌, ◌≢◌, ◌≤◌, ℕ, List, Err, None, IfOk, OnOk};
ghost use Rattle.disk_model.specs.Disk.{IsHonest};
ghost use Rattle.disk_model.specs.Faults.{Rose};
ghost use Rattle.pair_store.specs.Store.{AreAsLeft, store_broken, store_state};
ghost use Rattle.plan_core.specs.declared.plan.Dataset.{Dataset as Part};
ghost use Rattle.store_fitness.specs.Fitness.{AreAppends, IsReady};
ghost use Rattle.flow_news.specs.Commits.{MayBeTaken};
ghost use Rattle.flow_news.specs.Blames.{Blames};
ghost use Rattle.flow_news.specs.declared.offer.FolderListing.{FolderListing};
ghost use Rattle.flow_engine.specs.Commits.{HasSettled};
ghost use Rattle.flow_engine.specs.Ends.{version_in};
ghost use Rattle.flow_engine.specs.Engine.{BlamesListing};
ghost use Rattle.flow_engine.specs.declared.ends.End.TheVariants.{Disk, Sink};

use crate::committing::commit;
use crate::ends::End;
use append_offers::Offer;
use commit_payloads::Payload;
use commit_trails::nothing_tried_leaves_a_trail;
use disk_model::Disk;
use pair_store::Store;
use plan_core::FlowEnd;
use store_fitness::a_batch_keeps_a_store_ready;

/// Ends a flow of a dataset by what it comes to. `version` is that of the dataset before.
pub(crate) fn settle<D: Disk>(
    store: &mut Store,
    disk: &mut D,
    version: u64,
    offer: Offer,
) -> Result<FlowEnd, End>
    requires whole { store_broken store.old ≡ None }
    requires at_rest { D.tells → AreAsLeft store.old (D.state disk.old) }
    requires follows { (dataset : Part) × MayBeTaken (store_state store.old) dataset offer × (version ≡ version_in (store_state store.old) dataset.name) }

    ensures settled { D.tells → IsHonest (D.state disk.old) → HasSettled D.tells_moments (D.room disk.old) version offer store.old store.new result (D.state disk.old) (D.state disk.new) }
    ensures blames { (listing : FolderListing) (was now : ℕ) → Blames listing was now offer → IfOk result (BlamesListing listing was now) }
    ensures ready { (plan : List Part) → AreAppends plan → IsReady plan (store_state store.old) → OnOk result (IsReady plan (store_state store.new)) }
    ensures still_whole { OnOk result (store_broken store.new ≡ None) }
    ensures still_at_rest { D.tells → IsHonest (D.state disk.old) → OnOk result (AreAsLeft store.new (D.state disk.new)) }
    ensures honest { D.tells → IsHonest (D.state disk.old) → IsHonest (D.state disk.new) }

    ensures fault { (count : ℕ) → result ≡ Err (Disk count) → Rose (D.faults disk.old) (D.faults disk.new) × (count ≡ D.faults disk.new) }
    ensures no_sink { result ≢ Err Sink }
    ensures later { D.faults disk.old ≤ D.faults disk.new }
    ensures room { D.room disk.new ≡ D.room disk.old }
{
    nothing_tried_leaves_a_trail::<D>();
    a_batch_keeps_a_store_ready();
    match offer {
        Offer::Idle => Ok(FlowEnd::Current),
        Offer::Halted(why) => Ok(FlowEnd::Stopped { why }),
        Offer::Ready { read, batch } => match commit(store, disk, Payload::Take(batch)) {
            Ok(()) => Ok(FlowEnd::Completed {
                read,
                version: version + 1,
            }),
            Err(end) => Err(end),
        },
        Offer::Unfit => unreachable!(),
    }
}
