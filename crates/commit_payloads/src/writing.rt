// Payloads as bytes.
ghost use Rattle.std.specs.Prelude.{◌≡◌, IfOk, OnOk};
ghost use Rattle.commit_payloads.specs.Payloads.{spelled_payload, IsWritable, HasSpelling};

use crate::payload::Payload;
use crate::state_field::put_states;
use segment_rows::Field;
use std::alloc::{AllocError, Global};

/// The one spelling of a payload that has one.
pub fn write(alloc: Global, payload: &Payload) -> Result<Vec<u8>, AllocError>
    requires { IsWritable payload.now }
    ensures bytes { IfOk result (λ bytes. bytes.items ≡ spelled_payload payload.now) }
    ensures spelling { OnOk result (HasSpelling payload.now) }
{
    let mut out = Vec::new(alloc);
    match payload {
        Payload::Define { fresh, list } => {
            out.extend_from_slice(&[1, 1, u8::from(*fresh)])?;
            list.put(&mut out)?;
        }
        Payload::Take(take) => {
            out.extend_from_slice(&[1, 2])?;
            take.put(&mut out)?;
        }
        Payload::Refresh(refresh) => {
            out.extend_from_slice(&[1, 3])?;
            refresh.put(&mut out)?;
        }
        Payload::Reset { names } => {
            out.extend_from_slice(&[1, 4])?;
            names.put(&mut out)?;
        }
        Payload::Base(state) => {
            out.extend_from_slice(&[1, 5])?;
            state.list.put(&mut out)?;
            put_states(state.states.as_slice(), &mut out)?;
        }
    }
    Ok(out)
}
