// Payloads read from bytes.
ghost use Rattle.std.specs.Prelude.{◌≡◌, ◌∷◌, List, ℕ, Bool, IfOk, MatchOption};
ghost use Rattle.segment_rows.specs.Exact.{Spells};
ghost use Rattle.commit_payloads.specs.Payloads.{fresh_byte, spelled_payload, HasSpelling};
ghost use Rattle.commit_payloads.specs.Ranges.{IsState};
ghost use Rattle.commit_payloads.specs.Spelling.{spelled_state};

use crate::definition::Definitions;
use crate::form::{all_fit, as_batch, as_renewal, is_base};
use crate::payload::Payload;
use crate::state::State;
use crate::state_field::take_states;
use crate::take::{Refresh, Take};
use segment_rows::{Field, read_whole};
use std::alloc::{AllocError, Global};
use value_core::Names;

/// Which payload stands behind the byte of the format, and the bytes of its parts.
fn parts_of(bytes: &[u8]) -> Option<(u8, &[u8])>
    ensures { MatchOption result ((tag : ℕ) (rest : List ℕ) → bytes.now ≡ 1 ∷ tag ∷ rest → ⊥) (λ found. bytes.now ≡ 1 ∷ found.0 ∷ found.1.now) }
{
    let (format, rest) = bytes.split_first()?;
    let (tag, rest) = rest.split_first()?;
    if *format != 1 {
        return None;
    }
    Some((*tag, rest))
}

/// Whether definitions are fresh, and the bytes of their list.
fn fresh_of(bytes: &[u8]) -> Option<(bool, &[u8])>
    ensures { MatchOption result ((fresh : Bool) (rest : List ℕ) → bytes.now ≡ fresh_byte fresh ∷ rest → ⊥) (λ found. bytes.now ≡ fresh_byte found.0 ∷ found.1.now) }
{
    let (byte, rest) = bytes.split_first()?;
    if *byte == 0 {
        Some((false, rest))
    } else if *byte == 1 {
        Some((true, rest))
    } else {
        None
    }
}

fn read_define(alloc: Global, bytes: &[u8]) -> Result<Option<Payload>, AllocError>
    ensures { IfOk result (λ found. Spells spelled_payload HasSpelling (1 ∷ 1 ∷ bytes.now) found) }
{
    let Some((fresh, rest)) = fresh_of(bytes) else {
        return Ok(None);
    };
    let read: Option<Definitions> = read_whole(alloc, rest)?;
    let Some(list) = read else {
        return Ok(None);
    };
    if !all_fit(list.as_slice()) {
        return Ok(None);
    }
    Ok(Some(Payload::Define { fresh, list }))
}

fn read_take(alloc: Global, bytes: &[u8]) -> Result<Option<Payload>, AllocError>
    ensures { IfOk result (λ found. Spells spelled_payload HasSpelling (1 ∷ 2 ∷ bytes.now) found) }
{
    let read: Option<Take> = read_whole(alloc, bytes)?;
    let Some(take) = read else {
        return Ok(None);
    };
    match as_batch(take) {
        Some(batch) => Ok(Some(Payload::Take(batch))),
        None => Ok(None),
    }
}

fn read_refresh(alloc: Global, bytes: &[u8]) -> Result<Option<Payload>, AllocError>
    ensures { IfOk result (λ found. Spells spelled_payload HasSpelling (1 ∷ 3 ∷ bytes.now) found) }
{
    let read: Option<Refresh> = read_whole(alloc, bytes)?;
    let Some(refresh) = read else {
        return Ok(None);
    };
    match as_renewal(refresh) {
        Some(renewal) => Ok(Some(Payload::Refresh(renewal))),
        None => Ok(None),
    }
}

fn read_reset(alloc: Global, bytes: &[u8]) -> Result<Option<Payload>, AllocError>
    ensures { IfOk result (λ found. Spells spelled_payload HasSpelling (1 ∷ 4 ∷ bytes.now) found) }
{
    let read: Option<Names> = read_whole(alloc, bytes)?;
    let Some(names) = read else {
        return Ok(None);
    };
    Ok(Some(Payload::Reset { names }))
}

/// The definitions and states that all of the bytes spell.
fn read_state(alloc: Global, bytes: &[u8]) -> Result<Option<State>, AllocError>
    ensures { IfOk result (λ found. Spells spelled_state IsState bytes.now found) }
{
    let Some((list, at)) = Definitions::take(alloc, bytes, 0)? else {
        return Ok(None);
    };
    let Some((states, end)) = take_states(alloc, list.len(), bytes, at)? else {
        return Ok(None);
    };
    if end != bytes.len() {
        return Ok(None);
    }
    Ok(Some(State { list, states }))
}

fn read_base(alloc: Global, bytes: &[u8]) -> Result<Option<Payload>, AllocError>
    ensures { IfOk result (λ found. Spells spelled_payload HasSpelling (1 ∷ 5 ∷ bytes.now) found) }
{
    let Some(state) = read_state(alloc, bytes)? else {
        return Ok(None);
    };
    if !is_base(&state) {
        return Ok(None);
    }
    Ok(Some(Payload::Base(state)))
}

/// The payload that the bytes spell. `None` exactly where they are the spelling of none.
pub fn read(alloc: Global, bytes: &[u8]) -> Result<Option<Payload>, AllocError>
    ensures { IfOk result (λ found. Spells spelled_payload HasSpelling bytes.now found) }
{
    let Some((tag, rest)) = parts_of(bytes) else {
        return Ok(None);
    };
    if tag == 1 {
        read_define(alloc, rest)
    } else if tag == 2 {
        read_take(alloc, rest)
    } else if tag == 3 {
        read_refresh(alloc, rest)
    } else if tag == 4 {
        read_reset(alloc, rest)
    } else if tag == 5 {
        read_base(alloc, rest)
    } else {
        Ok(None)
    }
}
