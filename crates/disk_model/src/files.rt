// The bytes of two files in memory.
ghost use Rattle.std.specs.Prelude.{◌≡◌, ◌+◌, ◌^◌, ◌≤◌, length, take, slice_range, vec_capacity, IfOk};

use crate::Side;
use crate::buffer::{overwrite, reserved};
use std::alloc::{AllocError, Global};

/// Two files, each with memory for all that it may get.
#[derive(Drop)]
pub struct Files {
    left: Vec<u8>,
    right: Vec<u8>,
    room: u64,
    ghost small: { room ≤ 2 ^ 40 },
    ghost left_fits: { length left.items ≤ room },
    ghost right_fits: { length right.items ≤ room },
    ghost left_reserved: { room ≤ vec_capacity left },
    ghost right_reserved: { room ≤ vec_capacity right },
}

impl Files {
    ghost use Rattle.disk_model.specs.Disk.{TwoFiles, file};
    ghost use Rattle.disk_model.specs.Files.{files_now, files_room, with_file, written_over};

    /// Copies of these two, with memory for so many bytes in each.
    pub fn new(alloc: Global, left: &[u8], right: &[u8], room: u64) -> Result<Files, AllocError>
        requires small { room ≤ 2 ^ 40 }
        requires left { length left.now ≤ room }
        requires right { length right.now ≤ room }
        ensures files { IfOk result (λ files. files_now files ≡ record { left = left.now; right = right.now }) }
        ensures room { IfOk result (λ files. files_room files ≡ room) }
    {
        Ok(Files {
            left: reserved(alloc, left, room as usize)?,
            right: reserved(alloc, right, room as usize)?,
            room,
        })
    }

    /// How long each may get.
    pub fn room(&self) -> u64
        ensures room { result ≡ files_room self.now }
        ensures bound { result ≤ 2 ^ 40 }
    {
        self.room
    }

    /// How long one is.
    pub fn len(&self, side: Side) -> u64
        ensures length { result ≡ length (file side (files_now self.now)) }
        ensures bound { result ≤ files_room self.now }
        ensures small { result ≤ 2 ^ 40 }
    {
        match side {
            Side::Left => self.left.len() as u64,
            Side::Right => self.right.len() as u64,
        }
    }

    /// Fills `into` with the bytes at a place.
    pub fn read(&self, side: Side, at: u64, into: &mut [u8])
        requires { at + length into.old ≤ length (file side (files_now self.now)) }
        ensures { into.new ≡ slice_range (file side (files_now self.now)) at (at + length into.old) }
    {
        let (from, to) = (at as usize, at as usize + into.len());
        match side {
            Side::Left => into.copy_from_slice(&self.left[from..to]),
            Side::Right => into.copy_from_slice(&self.right[from..to]),
        }
    }

    /// Writes over what is there, and past the end.
    pub fn write(&mut self, side: Side, at: u64, piece: &[u8])
        requires place { at ≤ length (file side (files_now self.old)) }
        requires end { at + length piece.now ≤ files_room self.old }
        ensures files { files_now self.new ≡ with_file side (written_over at piece.now (file side (files_now self.old))) (files_now self.old) }
        ensures room { files_room self.new ≡ files_room self.old }
    {
        match side {
            Side::Left => overwrite(&mut self.left, at as usize, piece),
            Side::Right => overwrite(&mut self.right, at as usize, piece),
        }
    }

    /// Cuts one to a length.
    pub fn cut(&mut self, side: Side, to: u64)
        requires { to ≤ length (file side (files_now self.old)) }
        ensures files { files_now self.new ≡ with_file side (take to (file side (files_now self.old))) (files_now self.old) }
        ensures room { files_room self.new ≡ files_room self.old }
    {
        match side {
            Side::Left => self.left.truncate(to as usize),
            Side::Right => self.right.truncate(to as usize),
        }
    }
}
