// A pair over disks in memory, with a crash at each moment of a switch.
use crate::*;
use commit_gate::Framed;
use disk_model::{MemDisk, Pick, Side, SureDisk};
use std::alloc::Global;
use std::process::Abort;
use std::test::Fail;

// A new log of epoch 1.
const NEW: &[u8] = b"\xa5LDPSTORE\0\0\0\0\0\0\0\x01\0";

// The same, but the gate of its first record is open with nothing behind it.
const DAMAGED: &[u8] = b"\xa5LDPSTORE\0\0\0\0\0\0\0\x01\xa5";

// No log of ours, 31 bytes long.
const TEXT: &[u8] = b"a text that someone put there..";

// Two files that are refused.
fn refuses(
    rt: &impl Abort,
    alloc: Global,
    left: &[u8],
    right: &[u8],
    room: u64,
    want: PairRefusal,
) -> Result<(), Fail> {
    assert!(rt; room <= 64);
    assert!(rt; left.len() as u64 <= room);
    assert!(rt; right.len() as u64 <= room);
    let mut disk = SureDisk::new(alloc, left, right, room)?;
    match Pair::load(alloc, &mut disk) {
        Ok(_) => assert!(rt; false, "{want:?}"),
        Err(refusal) => assert_eq!(rt; refusal, want),
    }
    Ok(())
}

#[test]
fn each_refusal_has_its_cause(rt: HostRuntime) -> Result<(), Fail> {
    let alloc = rt.alloc();
    let (left, right) = (Side::Left, Side::Right);
    refuses(
        &rt,
        alloc,
        TEXT,
        &[],
        64,
        PairRefusal::Foreign {
            side: left,
            len: 31,
        },
    )?;
    refuses(
        &rt,
        alloc,
        &[],
        TEXT,
        64,
        PairRefusal::Foreign {
            side: right,
            len: 31,
        },
    )?;
    refuses(
        &rt,
        alloc,
        NEW,
        NEW,
        64,
        PairRefusal::SameEpoch { epoch: 1 },
    )?;
    refuses(
        &rt,
        alloc,
        DAMAGED,
        DAMAGED,
        64,
        PairRefusal::SameEpoch { epoch: 1 },
    )?;
    refuses(
        &rt,
        alloc,
        DAMAGED,
        &[],
        64,
        PairRefusal::Damaged { side: left, at: 17 },
    )?;
    refuses(
        &rt,
        alloc,
        &[],
        &[],
        17,
        PairRefusal::Full { end: 18, room: 17 },
    )
}

#[test]
fn a_log_beside_an_empty_file_is_read_as_it_is(rt: HostRuntime) -> Result<(), Fail> {
    let alloc = rt.alloc();
    let mut disk = SureDisk::new(alloc, NEW, &[], 64)?;
    let (mut pair, bodies) = Pair::load(alloc, &mut disk)?;
    assert_eq!(rt; (pair.side(), bodies.len()), (Side::Left, 0));
    pair.append(&mut disk, &Framed::new(alloc, b"one")?)?;
    let (pair, bodies) = Pair::load(alloc, &mut disk)?;
    assert_eq!(rt; (pair.side(), bodies.len()), (Side::Left, 1));
    a_lone_log_is_read();
    a_load_keeps_the_bodies();
    two_files_have_one_answer();
    Ok(())
}

// The file of the log that a crash at this moment leaves, and how many bodies it has.
fn left_by(
    rt: &impl Abort,
    alloc: Global,
    disk: &MemDisk,
    moment: u64,
    pick: Pick,
) -> Result<(Side, usize), Fail> {
    let calls = disk.calls();
    assert!(rt; moment <= calls);
    let left = disk.image(alloc, moment, Side::Left, pick)?;
    let right = disk.image(alloc, moment, Side::Right, pick)?;
    assert!(rt; left.len() <= 64);
    assert!(rt; right.len() <= 64);
    let mut again = SureDisk::new(alloc, &left, &right, 64)?;
    let (pair, bodies) = Pair::load(alloc, &mut again)?;
    Ok((pair.side(), bodies.len()))
}

// What a crash after so many calls leaves: with what wasn't synced old, new, and filled with 00 and with A5.
fn crash_leaves(
    rt: &impl Abort,
    alloc: Global,
    disk: &MemDisk,
    moment: u64,
    want: [(Side, usize); 4],
) -> Result<(), Fail> {
    let picks = [Pick::Old, Pick::New, Pick::Filled(0), Pick::Filled(0xA5)];
    for i in 0..4 {
        assert_eq!(rt;
            left_by(rt, alloc, disk, moment, picks[i])?,
            want[i],
            "at {moment}"
        );
    }
    Ok(())
}

// A pair with two bodies that was switched to a base, and how many calls it made before and in all.
fn switched(rt: &impl Abort, alloc: Global) -> Result<(MemDisk, u64, u64), Fail> {
    let mut disk = MemDisk::new(alloc, &[], &[], 64, 1000, Vec::new(alloc))?;
    let (mut pair, _) = Pair::load(alloc, &mut disk)?;
    pair.append(&mut disk, &Framed::new(alloc, b"one")?)?;
    pair.append(&mut disk, &Framed::new(alloc, b"two")?)?;
    let before = disk.calls();
    assert_eq!(rt; pair.switch(&mut disk, &Framed::new(alloc, b"base")?)?, 2);
    let after = disk.calls();
    Ok((disk, before, after))
}

#[test]
fn a_crash_in_a_switch_leaves_the_old_bodies_or_the_base(rt: HostRuntime) -> Result<(), Fail> {
    let alloc = rt.alloc();
    let (disk, before, after) = switched(&rt, alloc)?;
    // Four calls shut the empty file, and the fourth of five more writes the header gate.
    assert_eq!(rt; (before, after), (21, 30));
    let (old, base) = ((Side::Left, 2), (Side::Right, 1));
    for moment in 21..29 {
        crash_leaves(&rt, alloc, &disk, moment, [old, old, old, old])?;
    }
    crash_leaves(&rt, alloc, &disk, 29, [old, base, old, base])?;
    crash_leaves(&rt, alloc, &disk, 30, [base, base, base, base])
}
