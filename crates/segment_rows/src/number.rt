// Numbers of 8 bytes and of 4, and single bytes.
ghost use Rattle.std.specs.Prelude.{◌≤◌, ◌≡◌, None, Some, length, drop, IfSome, MatchOption};
ghost use Rattle.segment_rows.specs.FieldLaws.{byte_exact, number_exact};
ghost use Rattle.segment_rows.specs.Ranges.{IsByte, IsNumber};
ghost use Rattle.segment_rows.specs.Reading.{Reads, byte_at, half_at, number_at};
ghost use Rattle.segment_rows.specs.Spelling.{spelled_byte, spelled_number};

use crate::field::Field;
use std::alloc::{AllocError, Global};

/// The number that 8 bytes at the front are.
#[tactic(auto, unfolding(crate::specs::Reading::wide_at))]
fn front_number(bytes: &[u8]) -> Option<u64>
    ensures number { MatchOption result (number_at bytes.now ≡ None) (λ n. number_at bytes.now ≡ Some (n, drop 8 bytes.now)) }
    ensures long { IfSome result (λ n. 8 ≤ length bytes.now) }
{
    if bytes.len() < 8 {
        return None;
    }
    let (front, _) = bytes.split_at(8);
    Some(u64::from_be_bytes([
        front[0], front[1], front[2], front[3], front[4], front[5], front[6], front[7],
    ]))
}

/// The number that 4 bytes at the front are.
#[tactic(auto, unfolding(crate::specs::Reading::wide_at))]
fn front_half(bytes: &[u8]) -> Option<u32>
    ensures number { MatchOption result (half_at bytes.now ≡ None) (λ n. half_at bytes.now ≡ Some (n, drop 4 bytes.now)) }
    ensures long { IfSome result (λ n. 4 ≤ length bytes.now) }
{
    if bytes.len() < 4 {
        return None;
    }
    let (front, _) = bytes.split_at(4);
    Some(u32::from_be_bytes([front[0], front[1], front[2], front[3]]))
}

/// The number that begins at a place, and the place behind it.
pub(crate) fn take_number(bytes: &[u8], at: usize) -> Option<(u64, usize)>
    requires { at ≤ length bytes.now }
    ensures { Reads number_at bytes.now at result }
{
    match front_number(&bytes[at..]) {
        Some(number) => Some((number, at + 8)),
        None => None,
    }
}

/// The number of 4 bytes that begins at a place, and the place behind it.
pub(crate) fn take_half(bytes: &[u8], at: usize) -> Option<(u32, usize)>
    requires { at ≤ length bytes.now }
    ensures { Reads half_at bytes.now at result }
{
    match front_half(&bytes[at..]) {
        Some(number) => Some((number, at + 4)),
        None => None,
    }
}

/// The byte at a place, and the place behind it.
#[tactic(auto, unfolding(crate::specs::Reading::byte_at))]
pub(crate) fn take_byte(bytes: &[u8], at: usize) -> Option<(u8, usize)>
    requires { at ≤ length bytes.now }
    ensures { Reads byte_at bytes.now at result }
{
    if at == bytes.len() {
        return None;
    }
    Some((bytes[at], at + 1))
}

impl Field for u8 {
    ghost spelled = { spelled_byte };

    ghost in_range = { IsByte };

    ghost reading = { byte_at };

    ghost exact = { byte_exact };

    fn put(&self, out: &mut Vec<u8>) -> Result<(), AllocError> {
        let byte = *self;
        out.push(byte)?;
        Ok(())
    }

    fn take(_alloc: Global, bytes: &[u8], at: usize) -> Result<Option<(u8, usize)>, AllocError> {
        Ok(take_byte(bytes, at))
    }
}

impl Field for u64 {
    ghost spelled = { spelled_number };

    ghost in_range = { IsNumber };

    ghost reading = { number_at };

    ghost exact = { number_exact };

    #[tactic(auto, unfolding(crate::specs::Spelling::spelled_number))]
    fn put(&self, out: &mut Vec<u8>) -> Result<(), AllocError> {
        let number = *self;
        out.extend_from_slice(&number.to_be_bytes())
    }

    fn take(_alloc: Global, bytes: &[u8], at: usize) -> Result<Option<(u64, usize)>, AllocError> {
        Ok(take_number(bytes, at))
    }
}
