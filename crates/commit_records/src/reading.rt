// Payloads read from bytes.
ghost use Rattle.std.specs.Prelude.{◌≡◌, ◌∷◌, List, ℕ, Bool, IfOk, MatchOption};
ghost use Rattle.segment_rows.specs.Exact.{Spells};
ghost use Rattle.commit_records.specs.Payloads.{fresh_byte, spelled_payload, HasSpelling};

use crate::definition::Definitions;
use crate::form::{all_fit, as_batch};
use crate::payload::Payload;
use crate::take::Take;
use segment_rows::read_whole;
use std::alloc::{AllocError, Global};

/// Which payload stands behind the byte of the format, and the bytes of its parts.
fn parts_of(bytes: &[u8]) -> Option<(u8, &[u8])>
    ensures { MatchOption result ((tag : ℕ) (rest : List ℕ) → bytes.now ≡ 1 ∷ tag ∷ rest → ⊥) (λ found. bytes.now ≡ 1 ∷ found.0 ∷ found.1.now) }
{
    let (format, rest) = bytes.split_first()?;
    let (tag, rest) = rest.split_first()?;
    if *format != 1 {
        return None;
    }
    Some((*tag, rest))
}

/// Whether definitions are fresh, and the bytes of their list.
fn fresh_of(bytes: &[u8]) -> Option<(bool, &[u8])>
    ensures { MatchOption result ((fresh : Bool) (rest : List ℕ) → bytes.now ≡ fresh_byte fresh ∷ rest → ⊥) (λ found. bytes.now ≡ fresh_byte found.0 ∷ found.1.now) }
{
    let (byte, rest) = bytes.split_first()?;
    if *byte == 0 {
        Some((false, rest))
    } else if *byte == 1 {
        Some((true, rest))
    } else {
        None
    }
}

fn read_define(alloc: Global, bytes: &[u8]) -> Result<Option<Payload>, AllocError>
    ensures { IfOk result (λ found. Spells spelled_payload HasSpelling (1 ∷ 1 ∷ bytes.now) found) }
{
    let Some((fresh, rest)) = fresh_of(bytes) else {
        return Ok(None);
    };
    let read: Option<Definitions> = read_whole(alloc, rest)?;
    let Some(list) = read else {
        return Ok(None);
    };
    if !all_fit(list.as_slice()) {
        return Ok(None);
    }
    Ok(Some(Payload::Define { fresh, list }))
}

fn read_take(alloc: Global, bytes: &[u8]) -> Result<Option<Payload>, AllocError>
    ensures { IfOk result (λ found. Spells spelled_payload HasSpelling (1 ∷ 2 ∷ bytes.now) found) }
{
    let read: Option<Take> = read_whole(alloc, bytes)?;
    let Some(take) = read else {
        return Ok(None);
    };
    match as_batch(take) {
        Some(batch) => Ok(Some(Payload::Take(batch))),
        None => Ok(None),
    }
}

/// The payload that the bytes spell. `None` exactly where they are the spelling of none.
/// Of the kinds of payload, `Define` and `Take` have spellings now.
pub fn read(alloc: Global, bytes: &[u8]) -> Result<Option<Payload>, AllocError>
    ensures { IfOk result (λ found. Spells spelled_payload HasSpelling bytes.now found) }
{
    let Some((tag, rest)) = parts_of(bytes) else {
        return Ok(None);
    };
    if tag == 1 {
        read_define(alloc, rest)
    } else if tag == 2 {
        read_take(alloc, rest)
    } else {
        Ok(None)
    }
}
