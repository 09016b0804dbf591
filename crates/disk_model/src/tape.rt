// The record that a disk in memory keeps of its calls.
ghost use Rattle.std.specs.Prelude.{◌≡◌, ◌↔◌, ◌+◌, ◌≤◌, [], IsTrue, IfOk, length, vec_capacity};
ghost use Rattle.disk_model.specs.Record.{written, all_written};

use crate::record::Call;
use std::alloc::{AllocError, Global};

/// Calls in order, and what the writes among them wrote, within a limit of bytes.
#[derive(Drop)]
pub struct Tape {
    calls: Vec<Call>,
    pieces: Vec<u8>,
    limit: u64,
    ghost within: { length calls.items + length pieces.items ≤ limit },
    ghost calls_reserved: { limit ≤ vec_capacity calls },
    ghost pieces_reserved: { limit ≤ vec_capacity pieces },
    ghost all_there: { all_written calls.items ≡ length pieces.items },
}

impl Tape {
    ghost use Rattle.disk_model.specs.Tape.{tape_calls, tape_pieces, tape_limit, HasPlaceFor, Notes};

    /// An empty record, with memory for all that it may get.
    pub fn new(alloc: Global, limit: u64) -> Result<Tape, AllocError>
        ensures calls { IfOk result (λ tape. tape_calls tape ≡ []) }
        ensures pieces { IfOk result (λ tape. tape_pieces tape ≡ []) }
        ensures limit { IfOk result (λ tape. tape_limit tape ≡ limit) }
    {
        Ok(Tape {
            calls: Vec::with_capacity(alloc, limit as usize)?,
            pieces: Vec::with_capacity(alloc, limit as usize)?,
            limit,
        })
    }

    /// The calls in order.
    pub fn calls(&self) -> &[Call]
        ensures { result.now ≡ tape_calls self.now }
    {
        self.calls.as_slice()
    }

    /// What the writes wrote, one behind the other.
    pub fn pieces(&self) -> &[u8]
        ensures { result.now ≡ tape_pieces self.now }
    {
        self.pieces.as_slice()
    }

    /// Whether a call with so many bytes to write has its place.
    pub fn has_place_for(&self, piece: usize) -> bool
        ensures { IsTrue result ↔ HasPlaceFor piece self.now }
    {
        let used = self.calls.len() as u64 + self.pieces.len() as u64;
        (piece as u64) < self.limit - used
    }

    /// Notes a call that has its place, and what it writes.
    pub fn note(&mut self, call: Call, piece: &[u8])
        requires place { HasPlaceFor (length piece.now) self.old }
        requires piece { written call ≡ length piece.now }
        ensures { Notes call piece.now self.old self.new }
    {
        let _ = self.pieces.extend_from_slice(piece);
        self.calls.push_reserved(call);
    }
}
