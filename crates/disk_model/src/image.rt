// What a crash leaves of one file.
ghost use Rattle.std.specs.Prelude.{◌≡◌, cond, take, IfOk, OnOk};
ghost use Rattle.disk_model.specs.Files.{written_over};
ghost use Rattle.disk_model.specs.Image.{is_same, image_written, image_cut, picture_of, picture_after, pictured};

use crate::Side;
use crate::record::Call;
use std::alloc::{AllocError, Global};

/// What a crash leaves of the ranges that were written or cut since a file's last sync.
#[derive(Clone, Copy, Debug, PartialEq, Eq)]
pub enum Pick {
    /// Nothing of what was written, and all that was cut off.
    Old,
    /// All that was written, also by a call that failed, and nothing that was cut off.
    New,
    /// This byte all over: in what was written, and in what was cut off.
    Filled(u8),
}

// One file as a read gives it, and as a crash leaves it.
#[derive(Drop)]
pub(crate) struct Replay {
    now: Vec<u8>,
    image: Vec<u8>,
}

fn is_same(one: Side, two: Side) -> bool
    ensures { result ≡ is_same one two }
{
    one == two
}

// A piece over what stands at this place, or behind the end.
fn spliced(alloc: Global, bytes: &[u8], at: u64, piece: &[u8]) -> Result<Vec<u8>, AllocError>
    ensures { IfOk result (λ all. all.items ≡ written_over at piece.now bytes.now) }
{
    let from = (at as usize).min(bytes.len());
    let to = (at as usize).saturating_add(piece.len()).min(bytes.len());
    let mut all = Vec::new(alloc);
    all.extend_from_slice(&bytes[..from])?;
    all.extend_from_slice(piece)?;
    all.extend_from_slice(&bytes[to..])?;
    Ok(all)
}

// What a write leaves in the image.
fn written_image(
    alloc: Global,
    pick: Pick,
    at: u64,
    piece: &[u8],
    image: &[u8],
) -> Result<Vec<u8>, AllocError>
    ensures { IfOk result (λ bytes. bytes.items ≡ image_written pick at piece.now image.now) }
{
    match pick {
        Pick::Old => image.to_vec(alloc),
        Pick::New => spliced(alloc, image, at, piece),
        Pick::Filled(byte) => {
            let fill = vec![in alloc; byte; piece.len()]?;
            spliced(alloc, image, at, &fill)
        }
    }
}

// What a cut leaves in it.
fn cut_image(alloc: Global, pick: Pick, to: u64, image: &[u8]) -> Result<Vec<u8>, AllocError>
    ensures { IfOk result (λ bytes. bytes.items ≡ image_cut pick to image.now) }
{
    match pick {
        Pick::Old => image.to_vec(alloc),
        Pick::New => image[..(to as usize).min(image.len())].to_vec(alloc),
        Pick::Filled(byte) => {
            let fill = vec![in alloc; byte; image.len().saturating_sub(to as usize)]?;
            spliced(alloc, image, to, &fill)
        }
    }
}

impl Replay {
    fn write(
        &mut self,
        alloc: Global,
        pick: Pick,
        at: u64,
        piece: &[u8],
        done: bool,
    ) -> Result<(), AllocError>
        ensures now { OnOk result (self.new.now.items ≡ cond done (written_over at piece.now self.old.now.items) self.old.now.items) }
        ensures image { OnOk result (self.new.image.items ≡ image_written pick at piece.now self.old.image.items) }
    {
        self.image = written_image(alloc, pick, at, piece, &self.image)?;
        if done {
            self.now = spliced(alloc, &self.now, at, piece)?;
        }
        Ok(())
    }

    fn cut(&mut self, alloc: Global, pick: Pick, to: u64, done: bool) -> Result<(), AllocError>
        ensures now { OnOk result (self.new.now.items ≡ cond done (take to self.old.now.items) self.old.now.items) }
        ensures image { OnOk result (self.new.image.items ≡ image_cut pick to self.old.image.items) }
    {
        self.image = cut_image(alloc, pick, to, &self.image)?;
        if done {
            self.now.truncate(to as usize);
        }
        Ok(())
    }

    // One call more.
    fn take(
        &mut self,
        alloc: Global,
        side: Side,
        pick: Pick,
        call: Call,
        piece: &[u8],
    ) -> Result<(), AllocError>
        ensures { OnOk result (picture_of self.new ≡ picture_after side pick call piece.now (picture_of self.old)) }
    {
        match call {
            Call::Wrote {
                side: on,
                at,
                done,
                ..
            } if is_same(side, on) => { self.write(alloc, pick, at, piece, done) }
            Call::CutTo { side: on, to, done } if is_same(side, on) => {
                self.cut(alloc, pick, to, done)
            }
            Call::Synced { side: on } if is_same(side, on) => {
                self.image = self.now.clone()?;
                Ok(())
            }
            _ => Ok(()),
        }
    }
}

/// The image of a file that was first so, after these calls, whose pieces stand one behind the other.
pub(crate) fn image_after(
    alloc: Global,
    first: &[u8],
    calls: &[Call],
    pieces: &[u8],
    side: Side,
    pick: Pick,
) -> Result<Vec<u8>, AllocError>
    ensures { IfOk result (λ image. image.items ≡ (pictured side pick (record { now = first.now; image = first.now }) calls.now pieces.now).image) }
{
    let mut replay = Replay {
        now: first.to_vec(alloc)?,
        image: first.to_vec(alloc)?,
    };
    let mut rest = pieces;
    for call in calls {
        let (piece, behind) = rest.split_at(call.written().min(rest.len()));
        replay.take(alloc, side, pick, *call, piece)?;
        rest = behind;
    }
    let Replay { image, .. } = replay;
    Ok(image)
}
