// What a crash leaves of small files, worked out by hand.
use crate::*;
use std::alloc::Global;
use std::process::Abort;
use std::test::Fail;

const FIRST: &[u8] = b"abcdef";

// A disk of which both files are the same.
fn first_disk(alloc: Global, failing: Vec<u64>) -> Result<MemDisk, Fail> {
    Ok(MemDisk::new(alloc, FIRST, FIRST, 64, 64, failing)?)
}

// Writes a short piece, where it has its place.
fn write(
    rt: &impl Abort,
    disk: &mut MemDisk,
    side: Side,
    at: u64,
    piece: &[u8],
) -> Result<(), Failed> {
    let len = disk.len(side)?;
    let room = disk.room();
    assert!(rt; at <= len && piece.len() < 32);
    assert!(rt; at + piece.len() as u64 <= room);
    disk.write_at(side, at, piece)
}

// The three images of a file now.
fn images_are(
    rt: &impl Abort,
    alloc: Global,
    disk: &MemDisk,
    side: Side,
    old: &[u8],
    new: &[u8],
    filled: &[u8],
) -> Result<(), Fail> {
    let now = disk.calls();
    for (pick, want) in [
        (Pick::Old, old),
        (Pick::New, new),
        (Pick::Filled(0xA5), filled),
    ] {
        assert_eq!(rt; disk.image(alloc, now, side, pick)?.as_slice(), want);
    }
    Ok(())
}

// What a crash leaves of a file with one write that was not synced.
fn one_write_leaves(
    rt: &impl Abort,
    alloc: Global,
    (side, at, piece): (Side, u64, &[u8]),
    new: &[u8],
    filled: &[u8],
) -> Result<(), Fail> {
    let mut disk = first_disk(alloc, Vec::new(alloc))?;
    write(rt, &mut disk, side, at, piece)?;
    images_are(rt, alloc, &disk, side, FIRST, new, filled)
}

#[test]
fn a_write_that_was_not_synced_is_old_new_or_filled(rt: HostRuntime) -> Result<(), Fail> {
    let alloc = rt.alloc();
    for side in [Side::Left, Side::Right] {
        one_write_leaves(&rt, alloc, (side, 1, b"XY"), b"aXYdef", b"a\xa5\xa5def")?;
        one_write_leaves(
            &rt,
            alloc,
            (side, 4, b"XYZ"),
            b"abcdXYZ",
            b"abcd\xa5\xa5\xa5",
        )?;
    }
    Ok(())
}

#[test]
fn a_cut_that_was_not_synced_is_old_new_or_filled(rt: HostRuntime) -> Result<(), Fail> {
    let alloc = rt.alloc();
    for side in [Side::Left, Side::Right] {
        let mut disk = first_disk(alloc, Vec::new(alloc))?;
        let len = disk.len(side)?;
        assert!(rt; 2 <= len);
        disk.cut(side, 2)?;
        images_are(&rt, alloc, &disk, side, FIRST, b"ab", b"ab\xa5\xa5\xa5\xa5")?;
    }
    Ok(())
}

#[test]
fn two_writes_with_no_sync_between(rt: HostRuntime) -> Result<(), Fail> {
    let alloc = rt.alloc();
    let mut disk = first_disk(alloc, Vec::new(alloc))?;
    write(&rt, &mut disk, Side::Left, 0, b"X")?;
    write(&rt, &mut disk, Side::Left, 5, b"YZ")?;
    disk.sync(Side::Right)?;
    images_are(
        &rt,
        alloc,
        &disk,
        Side::Left,
        FIRST,
        b"XbcdeYZ",
        b"\xa5bcde\xa5\xa5",
    )?;
    disk.sync(Side::Left)?;
    images_are(
        &rt,
        alloc,
        &disk,
        Side::Left,
        b"XbcdeYZ",
        b"XbcdeYZ",
        b"XbcdeYZ",
    )
}

#[test]
fn a_call_fails_where_it_is_listed_or_the_tape_is_full(rt: HostRuntime) -> Result<(), Fail> {
    let alloc = rt.alloc();
    // The second call, a write, fails. The file is as it was, but a crash may leave what was written.
    let mut disk = first_disk(alloc, vec![in alloc; 2]?)?;
    assert!(rt; write(&rt, &mut disk, Side::Left, 1, b"XY").is_err());
    assert_eq!(rt; disk.faults(), 1);
    images_are(
        &rt,
        alloc,
        &disk,
        Side::Left,
        FIRST,
        b"aXYdef",
        b"a\xa5\xa5def",
    )?;
    disk.sync(Side::Left)?;
    images_are(&rt, alloc, &disk, Side::Left, FIRST, FIRST, FIRST)?;

    // A look takes 1 byte of the tape, and a write of 3 bytes takes 4.
    for (tape, fits) in [(4, false), (5, true)] {
        let mut disk = MemDisk::new(alloc, FIRST, FIRST, 64, tape, Vec::new(alloc))?;
        assert_eq!(rt; write(&rt, &mut disk, Side::Right, 0, b"XYZ").is_ok(), fits);
    }
    Ok(())
}

#[test]
fn streams_in_memory_fail_where_they_are_told_to(rt: HostRuntime) -> Result<(), Fail> {
    let alloc = rt.alloc();
    let mut source = MemSource::new(alloc, b"abc", vec![in alloc; 2]?)?;
    let mut into = [0; 2];
    assert_eq!(rt; source.read(&mut into)?, 2);
    assert!(rt; source.read(&mut into).is_err());
    assert_eq!(rt; source.read(&mut into)?, 1);
    assert_eq!(rt; into, *b"cb");
    let mut sink = MemSink::new(alloc, vec![in alloc; 2]?);
    assert!(rt; sink.write(b"one").is_ok());
    assert!(rt; sink.write(b"two").is_err());
    assert!(rt; sink.write(b"three").is_ok());
    assert_eq!(rt; sink.bytes(), b"onethree".as_slice());
    Ok(())
}
