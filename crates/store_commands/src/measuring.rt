// The counts of expectations are shown.
ghost use Rattle.std.specs.Prelude.{◌≡◌, ◌++◌, ◌≤◌, IfErr, IfOk, OnOk};
ghost use Rattle.std.specs.List.{flat_map};
ghost use Rattle.disk_model.specs.Disk.{IsHonest};
ghost use Rattle.pair_state.specs.Leads.{IsReachable};
ghost use Rattle.pair_store.specs.Store.{store_state};
ghost use Rattle.report_text.specs.Metrics.{print_metrics};
ghost use Rattle.command_ends.specs.Ends.{Blames, HasCome, succeeded};
ghost use Rattle.store_commands.specs.Commands.{Measures};
ghost use Rattle.store_commands.specs.Counted.{lines_in};

use command_ends::{load_store, print};
use commit_payloads::Definition;
use commit_trails::{a_load_leads_a_trail, nothing_tried_leaves_a_trail};
use disk_model::{Disk, Sink};
use message_text::Refusal;
use pair_state::a_state_comes_of_payloads;
use pair_store::Store;
use report_text::{metrics_head, put_metrics};
use std::alloc::{AllocError, Global};
use std::sync::ledger::Ledger;
use value_core::Steps;

// Puts the lines of a definition, with the counts that the store has of its name.
fn put_lines(
    alloc: Global,
    text: &mut Vec<u8>,
    store: &Store,
    definition: &Definition,
) -> Result<(), AllocError>
    ensures { OnOk result (text.new.items ≡ text.old.items ++ lines_in (store_state store.now) definition.now) }
{
    match store.tallies(&definition.name) {
        Some(tallies) => put_metrics(alloc, text, definition, tallies.as_slice()),
        None => Ok(()),
    }
}

// Puts the lines of definitions in their order.
fn put_all(
    alloc: Global,
    text: &mut Vec<u8>,
    store: &Store,
    definitions: &[Definition],
) -> Result<(), AllocError>
    ensures { OnOk result (text.new.items ≡ text.old.items ++ flat_map (lines_in (store_state store.now)) definitions.now) }
{
    for definition in definitions {
        put_lines(alloc, text, store, definition)?;
    }
    Ok(())
}

// What is printed of the counts of a store.
fn text_of(alloc: Global, store: &Store) -> Result<Vec<u8>, AllocError>
    requires { IsReachable (store_state store.now) }
    ensures { IfOk result (λ text. text.items ≡ print_metrics (store_state store.now)) }
{
    a_state_comes_of_payloads();
    let mut text = metrics_head(alloc)?;
    put_all(alloc, &mut text, store, store.definitions().as_slice())?;
    Ok(text)
}

/// Prints how many rows passed and failed each expectation of the store, a line an expectation in stored
/// order.
///
/// `Unloaded` comes where the store is refused, and `SinkFailed` where the output failed. Nothing is
/// committed.
pub fn metrics<D: Disk, S: Sink, K: Ledger>(
    alloc: Global,
    disk: &mut D,
    out: &mut S,
    steps: &mut Steps<K>,
) -> Result<(), Refusal>
    requires honest { D.tells → IsHonest (D.state disk.old) }

    // What it came to, what a crash leaves, and what it printed.
    ensures comes { D.tells → HasCome D.tells_moments S.tells (Measures (D.room disk.old) (D.state disk.old).now) (succeeded result) (D.state disk.old) (D.state disk.new) (S.written out.old) (S.written out.new) }

    ensures honest { D.tells → IsHonest (D.state disk.new) }
    ensures room { D.room disk.new ≡ D.room disk.old }

    // Over any devices: an end that blames one comes only where its count of faults rose, and no count falls.
    ensures blames { IfErr result (Blames (record { text = 0; disk = D.faults disk.old; sink = S.faults out.old }) (record { text = 0; disk = D.faults disk.new; sink = S.faults out.new })) }
    ensures disk_later { D.faults disk.old ≤ D.faults disk.new }
    ensures sink_later { S.faults out.old ≤ S.faults out.new }
{
    nothing_tried_leaves_a_trail::<D>();
    a_load_leads_a_trail::<D>();
    match load_store(alloc, disk, steps) {
        Ok(store) => match text_of(alloc, &store) {
            Ok(text) => print(out, text.as_slice()),
            Err(_) => Err(Refusal::Memory),
        },
        Err(why) => Err(why),
    }
}
