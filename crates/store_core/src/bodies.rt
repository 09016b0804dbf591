// The bodies of a log, taken one after another.
ghost use Rattle.std.specs.Prelude.{◌≡◌, ◌+◌, ◌≤◌, ◌^◌, length, IfOk};
ghost use Rattle.commit_gate.specs.Log.{records};
ghost use Rattle.store_core.specs.Bodies.{TakesBody, BodiesAnswer};

use crate::refusal::StoreRefusal;
use commit_gate::Bodies;
use commit_records::read;
use disk_model::Side;
use std::alloc::{AllocError, Global};
use store_state::Contents;

// Takes the payload that a body spells, if it spells one that follows.
fn take_body(alloc: Global, contents: &mut Contents, body: &[u8]) -> Result<bool, AllocError>
    ensures { IfOk result (TakesBody contents.old contents.new body.now) }
{
    let Some(payload) = read(alloc, body)? else {
        return Ok(false);
    };
    if !contents.follows(&payload) {
        return Ok(false);
    }
    contents.put(payload)?;
    Ok(true)
}

/// What the bodies of a log come to. The place of a body that is refused is that of its record's gate.
pub(crate) fn contents_of(alloc: Global, bodies: Bodies) -> Result<Contents, StoreRefusal>
    requires { 17 + length (records bodies) ≤ 2 ^ 40 }
    ensures { BodiesAnswer bodies result }
{
    let bodies = bodies.into_vec();
    let mut contents = Contents::new(alloc);
    let mut at = 17;
    for body in &bodies {
        if !take_body(alloc, &mut contents, body)? {
            return Err(StoreRefusal::Damaged {
                side: Side::Left,
                at,
            });
        }
        at += 9 + body.len() as u64;
    }
    Ok(contents)
}
