// The bodies of a log, taken one after another.
ghost use Rattle.std.specs.Prelude.{◌≡◌, ◌+◌, ◌≤◌, ◌^◌, length, IfOk};
ghost use Rattle.commit_gate.specs.Log.{records};
ghost use Rattle.pair_store.specs.Bodies.{TakesBody, BodiesComeTo};

use crate::refusal::StoreRefusal;
use commit_gate::Bodies;
use commit_payloads::read;
use disk_model::Side;
use payload_rules::follows;
use std::alloc::{AllocError, Global};
use std::sync::ledger::Ledger;
use store_tables::Contents;
use value_core::Steps;

// Takes the payload that a body spells, if it spells one that follows.
fn take_body<L: Ledger>(
    alloc: Global,
    contents: &mut Contents,
    body: &[u8],
    steps: &mut Steps<L>,
) -> Result<bool, AllocError>
    ensures { IfOk result (TakesBody contents.old contents.new body.now) }
{
    let Some(payload) = read(alloc, body)? else {
        return Ok(false);
    };
    if !follows(alloc, contents, &payload, steps)? {
        return Ok(false);
    }
    contents.put(payload)?;
    Ok(true)
}

/// What the bodies of a log come to. The place of a body that is refused is that of its record's gate.
pub(crate) fn contents_of<L: Ledger>(
    alloc: Global,
    side: Side,
    bodies: Bodies,
    steps: &mut Steps<L>,
) -> Result<Contents, StoreRefusal>
    requires { 17 + length (records bodies) ≤ 2 ^ 40 }
    ensures { BodiesComeTo side bodies result }
{
    let bodies = bodies.into_vec();
    let mut contents = Contents::new(alloc);
    let mut at = 17;
    for body in &bodies {
        if !take_body(alloc, &mut contents, body, steps)? {
            return Err(StoreRefusal::Damaged { side, at });
        }
        at += 9 + body.len() as u64;
    }
    Ok(contents)
}
