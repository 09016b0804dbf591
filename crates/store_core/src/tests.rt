// A store over a disk in memory: what is committed is loaded again, and a crash leaves one of two states.
ghost use Rattle.std.specs.Prelude.{IfOk};
ghost use Rattle.store_state.specs.State.{IsNext};
ghost use Rattle.store_core.specs.Store.{store_state};

use crate::{CommitEnd, Store, StoreRefusal};
use commit_records::{Payload, read};
use disk_model::{MemDisk, Pick, Side, SureDisk};
use std::alloc::Global;
use std::process::Abort;
use std::test::Fail;
use value_core::{Cursor, Name};

/// A fresh table `t` with the text `x`, one BIGINT column `a` and a flow of its own name over the folder `in`.
const DEFINE: [u8; 100] = [
    1, 1, 1, 0, 0, 0, 0, 0, 0, 0, 1, 0, 0, 0, 0, 0, 0, 0, 1, b't', 0, 0, 0, 0, 0, 0, 0, 1, b'x', 0,
    0, 0, 0, 0, 0, 0, 0, 1, 0, 0, 0, 0, 0, 0, 0, 1, b'a', 3, 0, 0, 0, 0, 0, 0, 0, 0, 0, 0, 0, 0, 0,
    0, 0, 1, 0, 0, 0, 0, 0, 0, 0, 1, b't', 0, 0, 0, 0, 0, 0, 0, 0, 2, b'i', b'n', 0, 0, 0, 0, 0, 0,
    0, 0, 0, 0, 0, 0, 0, 0, 0, 0,
];

/// A batch into `t` by its flow: the file `f` up to 19, and one row, 7.
const BATCH: [u8; 95] = [
    1, 2, 0, 0, 0, 0, 0, 0, 0, 1, b't', 0, 0, 0, 0, 0, 0, 0, 1, b't', 0, 0, 0, 0, 0, 0, 0, 0, 1, 0,
    0, 0, 0, 0, 0, 0, 1, b'f', 0, 0, 0, 0, 0, 0, 0, 19, 0, 0, 0, 0, 0, 0, 0, 0, 0, 0, 0, 0, 0, 0,
    0, 1, 0, 0, 0, 0, 0, 0, 0, 1, 4, 0, 0, 0, 0, 0, 0, 0, 7, 0, 0, 0, 0, 0, 0, 0, 0, 0, 0, 0, 0, 0,
    0, 0, 0,
];

/// The payload of these bytes, which follows what the store holds.
fn next(rt: &impl Abort, alloc: Global, store: &Store, bytes: &[u8]) -> Result<Payload, Fail>
    ensures { IfOk result (λ payload. IsNext (store_state store.now) payload) }
{
    let payload = read(alloc, bytes)?.ok_or("no payload")?;
    assert!(rt; store.follows(&payload));
    Ok(payload)
}

/// The version of `t` and how far its flow has read the first of its files.
fn shown(alloc: Global, store: &Store) -> Result<Option<(u64, u64)>, Fail> {
    let t = Name::new(alloc, "t")?;
    let Some(table) = store.table(&t) else {
        return Ok(None);
    };
    let at = match store.cursor(&t, &t) {
        Some(Cursor::Files(places)) => places.as_slice().first().map_or(0, |place| place.place),
        _ => return Ok(None),
    };
    Ok(Some((table.now(), at)))
}

#[test]
fn what_is_committed_is_loaded(rt: HostRuntime) -> Result<(), Fail> {
    let alloc = rt.alloc();
    let mut disk = MemDisk::new(alloc, &[], &[], 4096, 4096, Vec::new(alloc))?;
    let mut store = Store::load(alloc, &mut disk)?;
    assert!(rt; store.definitions().is_empty());
    let define = next(&rt, alloc, &store, &DEFINE)?;
    store.commit(&mut disk, define)?;
    let batch = next(&rt, alloc, &store, &BATCH)?;
    store.commit(&mut disk, batch)?;
    assert!(rt; shown(alloc, &store)? == Some((1, 19)));
    let again = Store::load(alloc, &mut disk)?;
    assert!(rt; shown(alloc, &again)? == Some((1, 19)));
    assert!(rt; again.broken().is_none());
    assert!(rt;
        again
            .tallies(&Name::new(alloc, "T")?)
            .map(|counts| counts.len())
            == Some(0)
    );
    Ok(())
}

/// What a store shows that a crash after so many calls leaves.
fn left(
    rt: &impl Abort,
    alloc: Global,
    disk: &MemDisk,
    moment: u64,
    pick: Pick,
) -> Result<Option<(u64, u64)>, Fail> {
    assert!(rt; moment <= disk.calls());
    let image = disk.image(alloc, moment, Side::Left, pick)?;
    assert!(rt; image.len() <= 4096);
    let mut again = SureDisk::new(alloc, &image, &[], 4096)?;
    shown(alloc, &Store::load(alloc, &mut again)?)
}

/// The same with what was not synced old, new, and filled with 00 and with A5.
fn each_left(
    rt: &impl Abort,
    alloc: Global,
    disk: &MemDisk,
    moment: u64,
    want: [Option<(u64, u64)>; 4],
) -> Result<(), Fail> {
    assert!(rt; left(rt, alloc, disk, moment, Pick::Old)? == want[0]);
    assert!(rt; left(rt, alloc, disk, moment, Pick::New)? == want[1]);
    assert!(rt; left(rt, alloc, disk, moment, Pick::Filled(0))? == want[2]);
    assert!(rt; left(rt, alloc, disk, moment, Pick::Filled(0xA5))? == want[3]);
    Ok(())
}

#[test]
fn a_crash_leaves_the_state_before_or_with_the_payload(rt: HostRuntime) -> Result<(), Fail> {
    let alloc = rt.alloc();
    let mut disk = MemDisk::new(alloc, &[], &[], 4096, 4096, Vec::new(alloc))?;
    let mut store = Store::load(alloc, &mut disk)?;
    let define = next(&rt, alloc, &store, &DEFINE)?;
    store.commit(&mut disk, define)?;
    let calls = disk.calls();
    assert!(rt; calls == 15);
    let none = None;
    let there = Some((0, 0));
    // A new store has no table at each moment, and the third call of a commit writes the gate.
    each_left(&rt, alloc, &disk, 0, [none, none, none, none])?;
    each_left(&rt, alloc, &disk, 10, [none, none, none, none])?;
    each_left(&rt, alloc, &disk, 13, [none, none, none, none])?;
    each_left(&rt, alloc, &disk, 14, [none, there, none, there])?;
    each_left(&rt, alloc, &disk, 15, [there, there, there, there])
}

#[test]
fn a_store_that_broke_commits_nothing(rt: HostRuntime) -> Result<(), Fail> {
    let alloc = rt.alloc();
    // The twelfth call is the first of the commit.
    let failing = vec![in alloc; 12]?;
    let mut disk = MemDisk::new(alloc, &[], &[], 4096, 4096, failing)?;
    let mut store = Store::load(alloc, &mut disk)?;
    let define = next(&rt, alloc, &store, &DEFINE)?;
    let first = store.commit(&mut disk, define);
    assert!(rt; matches!(&first, Err(CommitEnd::Failed { count: 1 })));
    assert!(rt; store.broken() == Some(1));
    assert!(rt; store.definitions().is_empty());
    let calls = disk.calls();
    let define = next(&rt, alloc, &store, &DEFINE)?;
    let second = store.commit(&mut disk, define);
    assert!(rt; matches!(&second, Err(CommitEnd::Failed { count: 1 })));
    assert!(rt; disk.calls() == calls);
    Ok(())
}

/// Why the store of a file is not loaded, in this room.
fn refusal(
    alloc: Global,
    rt: &impl Abort,
    bytes: &[u8],
    room: u64,
) -> Result<Option<StoreRefusal>, Fail> {
    assert!(rt; room <= 4096);
    assert!(rt; bytes.len() as u64 <= room);
    let mut disk = SureDisk::new(alloc, bytes, &[], room)?;
    Ok(Store::load(alloc, &mut disk).err())
}

#[test]
fn what_is_no_store_is_refused(rt: HostRuntime) -> Result<(), Fail> {
    let alloc = rt.alloc();
    let side = Side::Left;
    let text = refusal(alloc, &rt, b"this is not a store of datasets", 64)?;
    assert!(rt; text == Some(StoreRefusal::Foreign { side, len: 31 }));
    let open = refusal(alloc, &rt, b"\xa5LDPSTORE\0\0\0\0\0\0\0\x01\xa5", 64)?;
    assert!(rt; open == Some(StoreRefusal::Damaged { side, at: 17 }));
    // A record with one byte, which is no payload.
    let body = refusal(
        alloc,
        &rt,
        b"\xa5LDPSTORE\0\0\0\0\0\0\0\x01\xa5\0\0\0\0\0\0\0\x01\x01\0",
        64,
    )?;
    assert!(rt; body == Some(StoreRefusal::Damaged { side, at: 17 }));
    assert!(rt; refusal(alloc, &rt, &[], 17)? == Some(StoreRefusal::Full { end: 18, room: 17 }));
    assert!(rt; refusal(alloc, &rt, &[], 18)?.is_none());
    Ok(())
}

#[test]
fn a_record_without_room_is_not_written(rt: HostRuntime) -> Result<(), Fail> {
    let alloc = rt.alloc();
    let mut disk = SureDisk::new(alloc, &[], &[], 126)?;
    let mut store = Store::load(alloc, &mut disk)?;
    let define = next(&rt, alloc, &store, &DEFINE)?;
    let end = store.commit(&mut disk, define);
    assert!(rt;
        matches!(
            &end,
            Err(CommitEnd::Full {
                end: 127,
                room: 126
            })
        )
    );
    assert!(rt; store.definitions().is_empty());
    Ok(())
}
