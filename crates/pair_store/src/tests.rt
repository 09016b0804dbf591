// A store over two files in memory: what is committed is loaded again, and a folded one is too.
ghost use Rattle.std.specs.Prelude.{◌≡◌, IfOk};
ghost use Rattle.commit_payloads.specs.Payloads.{IsWritable};
ghost use Rattle.state_model.specs.Follows.{Fits};
ghost use Rattle.pair_store.specs.Store.{store_state};

use crate::{CommitEnd, Store, StoreRefusal};
use commit_payloads::{Payload, read};
use disk_model::{MemDisk, Pick, Side, SureDisk};
use std::alloc::Global;
use std::marker::Brand;
use std::process::Abort;
use std::sync::ledger::{Blank, Ledger};
use std::test::Fail;
use value_core::{Cursor, Name, Steps};

/// A fresh table `t` with the text `x`, one BIGINT column `a` and a flow of its own name over the folder `in`.
const DEFINE: [u8; 100] = [
    1, 1, 1, 0, 0, 0, 0, 0, 0, 0, 1, 0, 0, 0, 0, 0, 0, 0, 1, b't', 0, 0, 0, 0, 0, 0, 0, 1, b'x', 0,
    0, 0, 0, 0, 0, 0, 0, 1, 0, 0, 0, 0, 0, 0, 0, 1, b'a', 3, 0, 0, 0, 0, 0, 0, 0, 0, 0, 0, 0, 0, 0,
    0, 0, 1, 0, 0, 0, 0, 0, 0, 0, 1, b't', 0, 0, 0, 0, 0, 0, 0, 0, 2, b'i', b'n', 0, 0, 0, 0, 0, 0,
    0, 0, 0, 0, 0, 0, 0, 0, 0, 0,
];

/// A batch into `t` by its flow: the file `f` up to 19, and one row, 7.
const BATCH: [u8; 95] = [
    1, 2, 0, 0, 0, 0, 0, 0, 0, 1, b't', 0, 0, 0, 0, 0, 0, 0, 1, b't', 0, 0, 0, 0, 0, 0, 0, 0, 1, 0,
    0, 0, 0, 0, 0, 0, 1, b'f', 0, 0, 0, 0, 0, 0, 0, 19, 0, 0, 0, 0, 0, 0, 0, 0, 0, 0, 0, 0, 0, 0,
    0, 1, 0, 0, 0, 0, 0, 0, 0, 1, 4, 0, 0, 0, 0, 0, 0, 0, 7, 0, 0, 0, 0, 0, 0, 0, 0, 0, 0, 0, 0, 0,
    0, 0, 0,
];

/// The payload of these bytes, which follows what the store holds.
fn next<L: Ledger>(
    rt: &impl Abort,
    alloc: Global,
    store: &Store,
    bytes: &[u8],
    steps: &mut Steps<L>,
) -> Result<Payload, Fail>
    ensures form { IfOk result IsWritable }
    ensures fits { IfOk result (λ payload. Fits (store_state store.now) payload) }
{
    let payload = read(alloc, bytes)?.ok_or("no payload")?;
    let follows = store.follows(&payload, steps)?;
    assert!(rt; follows);
    Ok(payload)
}

/// The least and the greatest version of `t`, and how far its flow has read the first of its files.
fn shown(alloc: Global, store: &Store) -> Result<Option<(u64, u64, u64)>, Fail> {
    let t = Name::new(alloc, "t")?;
    let Some(table) = store.table(&t) else {
        return Ok(None);
    };
    let at = match store.cursor(&t, &t) {
        Some(Cursor::Files(places)) => places.as_slice().first().map_or(0, |place| place.place),
        _ => return Ok(None),
    };
    Ok(Some((table.base(), table.now(), at)))
}

/// A store with the table and one batch in it, before and after it is folded, and loaded once more.
fn commits_and_folds<L: Ledger>(rt: &impl Abort, alloc: Global, blank: Blank) -> Result<(), Fail>
    requires name { blank.name ≡ L.name }
    requires parts { blank.parts ≡ L.parts }
    requires some { blank.parts ≡ 1 }
{
    let mut steps: Steps<L> = Steps::new(blank);
    let mut disk = MemDisk::new(alloc, &[], &[], 4096, 4096, Vec::new(alloc))?;
    let mut store = Store::load(alloc, &mut disk, &mut steps)?;
    let define = next(rt, alloc, &store, &DEFINE, &mut steps)?;
    store.commit(&mut disk, define)?;
    let batch = next(rt, alloc, &store, &BATCH, &mut steps)?;
    store.commit(&mut disk, batch)?;
    assert!(rt; shown(alloc, &store)? == Some((0, 1, 19)));
    let epoch = store.compact(&mut disk, &mut steps)?;
    assert!(rt; epoch == 2);
    let again = Store::load(alloc, &mut disk, &mut steps)?;
    assert!(rt; shown(alloc, &again)? == Some((1, 1, 19)));
    assert!(rt; again.broken().is_none());
    Ok(())
}

#[test]
fn what_is_committed_is_loaded_and_folded(rt: HostRuntime) -> Result<(), Fail> {
    commits_and_folds::<Brand>(&rt, rt.alloc(), Blank::new(1))
}

/// What a store shows that a crash after so many calls leaves.
fn left<L: Ledger>(
    rt: &impl Abort,
    alloc: Global,
    disk: &MemDisk,
    moment: u64,
    pick: Pick,
    steps: &mut Steps<L>,
) -> Result<Option<(u64, u64, u64)>, Fail> {
    assert!(rt; moment <= disk.calls());
    let left = disk.image(alloc, moment, Side::Left, pick)?;
    let right = disk.image(alloc, moment, Side::Right, pick)?;
    assert!(rt; left.len() <= 4096);
    assert!(rt; right.len() <= 4096);
    let mut again = SureDisk::new(alloc, &left, &right, 4096)?;
    shown(alloc, &Store::load(alloc, &mut again, steps)?)
}

/// The same with what was not synced old, new, and filled with 00 and with A5.
fn each_left<L: Ledger>(
    rt: &impl Abort,
    alloc: Global,
    disk: &MemDisk,
    moment: u64,
    want: [Option<(u64, u64, u64)>; 4],
    steps: &mut Steps<L>,
) -> Result<(), Fail> {
    assert!(rt; left(rt, alloc, disk, moment, Pick::Old, steps)? == want[0]);
    assert!(rt; left(rt, alloc, disk, moment, Pick::New, steps)? == want[1]);
    assert!(rt; left(rt, alloc, disk, moment, Pick::Filled(0), steps)? == want[2]);
    assert!(rt; left(rt, alloc, disk, moment, Pick::Filled(0xA5), steps)? == want[3]);
    Ok(())
}

/// A disk with a store of one batch that was folded, and how many calls it made before that.
fn folded_disk<L: Ledger>(
    rt: &impl Abort,
    alloc: Global,
    steps: &mut Steps<L>,
) -> Result<(MemDisk, u64), Fail> {
    let mut disk = MemDisk::new(alloc, &[], &[], 4096, 4096, Vec::new(alloc))?;
    let mut store = Store::load(alloc, &mut disk, steps)?;
    let define = next(rt, alloc, &store, &DEFINE, steps)?;
    store.commit(&mut disk, define)?;
    let batch = next(rt, alloc, &store, &BATCH, steps)?;
    store.commit(&mut disk, batch)?;
    let before = disk.calls();
    store.compact(&mut disk, steps)?;
    Ok((disk, before))
}

/// A crash at each moment of a compaction leaves the state before it or the folded one.
fn crashes<L: Ledger>(rt: &impl Abort, alloc: Global, blank: Blank) -> Result<(), Fail>
    requires name { blank.name ≡ L.name }
    requires parts { blank.parts ≡ L.parts }
    requires some { blank.parts ≡ 1 }
{
    let mut steps: Steps<L> = Steps::new(blank);
    let (disk, before) = folded_disk(rt, alloc, &mut steps)?;
    // Four calls shut the empty file, and the fourth of five more writes the header gate.
    assert!(rt; before == 21);
    assert!(rt; disk.calls() == 30);
    let (old, base) = (Some((0, 1, 19)), Some((1, 1, 19)));
    for moment in 21..29 {
        each_left(rt, alloc, &disk, moment, [old, old, old, old], &mut steps)?;
    }
    each_left(rt, alloc, &disk, 29, [old, base, old, base], &mut steps)?;
    each_left(rt, alloc, &disk, 30, [base, base, base, base], &mut steps)
}

#[test]
fn a_crash_in_a_compaction_leaves_the_state_before_or_the_folded_one(
    rt: HostRuntime,
) -> Result<(), Fail> {
    crashes::<Brand>(&rt, rt.alloc(), Blank::new(1))
}

/// Why the store of two files is not loaded, in this room.
fn refusal<L: Ledger>(
    rt: &impl Abort,
    alloc: Global,
    left: &[u8],
    right: &[u8],
    room: u64,
    steps: &mut Steps<L>,
) -> Result<Option<StoreRefusal>, Fail> {
    assert!(rt; room <= 4096);
    assert!(rt; left.len() as u64 <= room);
    assert!(rt; right.len() as u64 <= room);
    let mut disk = SureDisk::new(alloc, left, right, room)?;
    Ok(Store::load(alloc, &mut disk, steps).err())
}

fn refusals<L: Ledger>(rt: &impl Abort, alloc: Global, blank: Blank) -> Result<(), Fail>
    requires name { blank.name ≡ L.name }
    requires parts { blank.parts ≡ L.parts }
    requires some { blank.parts ≡ 1 }
{
    let mut steps: Steps<L> = Steps::new(blank);
    let text = b"this is not a store of datasets";
    let right = refusal(rt, alloc, &[], text, 64, &mut steps)?;
    assert!(rt;
        right
            == Some(StoreRefusal::Foreign {
                side: Side::Right,
                len: 31
            })
    );
    let new = b"\xa5LDPSTORE\0\0\0\0\0\0\0\x01\0";
    let same = refusal(rt, alloc, new, new, 64, &mut steps)?;
    assert!(rt; same == Some(StoreRefusal::SameEpoch { epoch: 1 }));
    // A record with one byte, which is no payload, in the right file.
    let body = b"\xa5LDPSTORE\0\0\0\0\0\0\0\x02\xa5\0\0\0\0\0\0\0\x01\x01\0";
    let unfit = refusal(rt, alloc, new, body, 64, &mut steps)?;
    assert!(rt;
        unfit
            == Some(StoreRefusal::Damaged {
                side: Side::Right,
                at: 17
            })
    );
    let full = refusal(rt, alloc, &[], &[], 17, &mut steps)?;
    assert!(rt; full == Some(StoreRefusal::Full { end: 18, room: 17 }));
    Ok(())
}

#[test]
fn what_is_no_store_is_refused(rt: HostRuntime) -> Result<(), Fail> {
    refusals::<Brand>(&rt, rt.alloc(), Blank::new(1))
}

/// A store whose first commit the disk fails.
fn breaks<L: Ledger>(rt: &impl Abort, alloc: Global, blank: Blank) -> Result<(), Fail>
    requires name { blank.name ≡ L.name }
    requires parts { blank.parts ≡ L.parts }
    requires some { blank.parts ≡ 1 }
{
    let mut steps: Steps<L> = Steps::new(blank);
    // Thirteen calls make the first log, and the next is the first of the commit.
    let failing = vec![in alloc; 14]?;
    let mut disk = MemDisk::new(alloc, &[], &[], 4096, 4096, failing)?;
    let mut store = Store::load(alloc, &mut disk, &mut steps)?;
    let define = next(rt, alloc, &store, &DEFINE, &mut steps)?;
    let first = store.commit(&mut disk, define);
    assert!(rt; matches!(&first, Err(CommitEnd::Failed { count: 1 })));
    assert!(rt; store.broken() == Some(1));
    let folded = store.compact(&mut disk, &mut steps);
    assert!(rt; matches!(&folded, Err(CommitEnd::Failed { count: 1 })));
    assert!(rt; store.definitions().is_empty());
    Ok(())
}

#[test]
fn a_store_that_broke_takes_nothing(rt: HostRuntime) -> Result<(), Fail> {
    breaks::<Brand>(&rt, rt.alloc(), Blank::new(1))
}
