// Runs over devices in memory: what is stored, printed and answered.
ghost use Rattle.disk_model.specs.Disk.{IsHonest};
ghost use Rattle.disk_model.specs.MemDisk.{mem_state};

use crate::test_devices::{left, ran_over, shown, words};
use crate::{Status, run, run_in_memory};
use disk_model::{MemDisk, MemSink, MemSource, SureDisk, SureSink, SureSource};
use landing_core::{MemLanding, SureLanding};
use std::alloc::{AllocError, Global};
use std::test::Fail;

const PIPELINE: &str =
    "CREATE OR REFRESH STREAMING TABLE t AS SELECT a FROM STREAM read_files('in', format => 'json', schema => 'a BIGINT')";

/// Two lines, of 8 and 11 bytes.
const LINES: &[u8] = b"{\"a\":5}\n{\"a\":null}\n";

/// What the store shows once these lines are taken from `a.json`.
const TAKEN: &str = "+-|;5|;read a.json 19";

/// Runs one update, and gives its status and what it printed.
fn update(
    alloc: Global,
    disk: &mut SureDisk,
    landing: &mut SureLanding,
) -> Result<(Status, SureSink), AllocError> {
    ran_over(alloc, "update", PIPELINE, disk, landing)
}

#[test]
fn the_first_update_writes_two_rows(rt: HostRuntime) -> Result<(), Fail> {
    let alloc = rt.alloc();
    let mut disk = SureDisk::new(alloc, b"", b"", 1024)?;
    let mut landing = SureLanding::new(alloc);
    landing.put("in", "a.json", LINES)?;
    let (status, out) = update(alloc, &mut disk, &mut landing)?;
    assert!(rt; status == Status::Ok);
    assert!(rt; out.bytes() == b"flow t into t: completed, 2 rows read, version 1\n".as_slice());
    assert!(rt; shown(alloc, &mut disk, "t")?.as_str() == TAKEN);
    Ok(())
}

/// A file that is set, or grows, and what the next update answers and prints.
struct Step {
    grows: bool,
    file: &'static str,
    bytes: &'static [u8],
    status: Status,
    line: &'static [u8],
}

const STEPS: [Step; 6] = [
    Step {
        grows: false,
        file: "a.json",
        bytes: LINES,
        status: Status::Ok,
        line: b"flow t into t: completed, 2 rows read, version 1\n",
    },
    Step {
        grows: true,
        file: "a.json",
        bytes: b"",
        status: Status::Ok,
        line: b"flow t into t: current\n",
    },
    Step {
        grows: true,
        file: "a.json",
        bytes: b"{\"a\":7}",
        status: Status::Ok,
        line: b"flow t into t: current\n",
    },
    Step {
        grows: true,
        file: "a.json",
        bytes: b"\n",
        status: Status::Ok,
        line: b"flow t into t: completed, 1 rows read, version 2\n",
    },
    Step {
        grows: false,
        file: "b.json",
        bytes: b"{\"a\":2}\n",
        status: Status::Ok,
        line: b"flow t into t: completed, 1 rows read, version 3\n",
    },
    Step {
        grows: false,
        file: "a.json",
        bytes: b"abc",
        status: Status::Stopped,
        line: b"flow t into t: stopped: file a.json shrunk: cursor 27, size 3\n",
    },
];

#[test]
fn updates_go_on_from_the_places(rt: HostRuntime) -> Result<(), Fail> {
    let alloc = rt.alloc();
    let mut disk = SureDisk::new(alloc, b"", b"", 1024)?;
    let mut landing = SureLanding::new(alloc);
    for step in &STEPS {
        if step.grows {
            landing.grow("in", step.file, step.bytes)?;
        } else {
            landing.put("in", step.file, step.bytes)?;
        }
        let (status, out) = update(alloc, &mut disk, &mut landing)?;
        assert!(rt; status == step.status);
        assert!(rt; out.bytes() == step.line);
    }
    landing.remove("in", "a.json");
    let (status, out) = update(alloc, &mut disk, &mut landing)?;
    assert!(rt; status == Status::Ok);
    assert!(rt; out.bytes() == b"flow t into t: current\n".as_slice());
    Ok(())
}

/// Words and a text and a store's file, and what the run answers and prints.
struct Refusal {
    words: &'static [&'static str],
    text: &'static str,
    left: &'static [u8],
    room: u64,
    status: Status,
    line: &'static [u8],
}

const UPDATE: &[&str] = &["pipeline.sql", "store", "landing", "update"];

const USAGE: &[u8] = b"usage: PIPELINE STORE LANDING COMMAND [then COMMAND]...\n";

const REFUSALS: [Refusal; 7] = [
    Refusal {
        words: &[],
        text: PIPELINE,
        left: b"",
        room: 64,
        status: Status::Usage,
        line: USAGE,
    },
    Refusal {
        words: &["pipeline.sql", "", "landing", "update"],
        text: PIPELINE,
        left: b"",
        room: 64,
        status: Status::Usage,
        line: USAGE,
    },
    Refusal {
        words: &["pipeline.sql", "store", "landing", "update", "update"],
        text: PIPELINE,
        left: b"",
        room: 64,
        status: Status::Usage,
        line: USAGE,
    },
    Refusal {
        words: UPDATE,
        text: "CREATE STREAMING TABLE t",
        left: b"",
        room: 64,
        status: Status::Pipeline,
        line: b"pipeline refused: statement 1: not yet supported\n",
    },
    Refusal {
        words: UPDATE,
        text: PIPELINE,
        left: b"another program's file",
        room: 64,
        status: Status::Store,
        line: b"store refused: foreign left 22\n",
    },
    Refusal {
        words: UPDATE,
        text: PIPELINE,
        left: b"\xa5LDPSTORE\x00\x00\x00\x00\x00\x00\x00\x01\xa5",
        room: 64,
        status: Status::Store,
        line: b"store refused: damaged left at 17\n",
    },
    Refusal {
        words: UPDATE,
        text: PIPELINE,
        left: b"",
        room: 17,
        status: Status::Store,
        line: b"store refused: full: end 18, room 17\n",
    },
];

#[test]
fn what_is_refused_is_said(rt: HostRuntime) -> Result<(), Fail> {
    let alloc = rt.alloc();
    for refusal in &REFUSALS {
        assert!(rt; refusal.room <= 64 && refusal.left.len() as u64 <= refusal.room);
        let mut disk = SureDisk::new(alloc, refusal.left, b"", refusal.room)?;
        let mut landing = SureLanding::new(alloc);
        landing.put("in", "a.json", LINES)?;
        let words = words(alloc, refusal.words)?;
        let mut text = SureSource::new(alloc, refusal.text.as_bytes())?;
        let mut out = SureSink::new(alloc);
        let status = run_in_memory(
            alloc,
            words.as_slice(),
            &mut text,
            &mut disk,
            &mut landing,
            &mut out,
        );
        assert!(rt; status == refusal.status);
        assert!(rt; out.bytes() == refusal.line);
        let left = left(alloc, &mut disk).ok().ok_or("the file is read")?;
        assert!(rt; left.as_slice() == refusal.left);
    }
    Ok(())
}

/// The definition, and the batch of two lines behind it, with the closed gate behind each.
#[test]
fn each_commit_wants_its_room(rt: HostRuntime) -> Result<(), Fail> {
    let alloc = rt.alloc();
    let mut landing = SureLanding::new(alloc);
    landing.put("in", "a.json", LINES)?;
    let mut disk = SureDisk::new(alloc, b"", b"", 247 - 1)?;
    let (status, out) = update(alloc, &mut disk, &mut landing)?;
    assert!(rt; status == Status::Store);
    assert!(rt; out.bytes() == b"store refused: full: end 247, room 246\n".as_slice());
    let mut disk = SureDisk::new(alloc, b"", b"", 365 - 1)?;
    let (status, out) = update(alloc, &mut disk, &mut landing)?;
    assert!(rt; status == Status::Store);
    assert!(rt; out.bytes() == b"store refused: full: end 365, room 364\n".as_slice());
    assert!(rt; shown(alloc, &mut disk, "t")?.as_str() == "read");
    Ok(())
}

/// What an update prints over the store of another pipeline.
fn updated_over(alloc: Global, other: &str) -> Result<(Status, SureSink), Fail> {
    let mut disk = SureDisk::new(alloc, b"", b"", 1024)?;
    let mut landing = SureLanding::new(alloc);
    let (status, _out) = ran_over(alloc, "update", other, &mut disk, &mut landing)?;
    if status != Status::Ok {
        return Err("the other pipeline is updated".into());
    }
    Ok(update(alloc, &mut disk, &mut landing)?)
}

/// The same pipeline in another spelling.
const RESPELLED: &str =
    "create streaming table `t` as select (`a`) from stream Read_Files(\"in\", format => \"json\", schema => 'a BIGINT');";

/// A table of another name, and one of the same name but for case whose output has a name of its own.
const OTHERS: [&str; 2] = [
    "CREATE STREAMING TABLE `u|\\` AS SELECT a FROM STREAM read_files('in', format => 'json', schema => 'a BIGINT')",
    "CREATE STREAMING TABLE T AS SELECT a AS `|\\` FROM STREAM read_files('in', format => 'json', schema => 'a BIGINT')",
];

#[test]
fn a_store_of_another_table_is_refused(rt: HostRuntime) -> Result<(), Fail> {
    let alloc = rt.alloc();
    let (status, out) = updated_over(alloc, RESPELLED)?;
    assert!(rt; status == Status::Ok);
    assert!(rt; out.bytes() == b"flow t into t: current\n".as_slice());
    let (status, out) = updated_over(alloc, OTHERS[0])?;
    assert!(rt; status == Status::Store);
    assert!(rt; out.bytes() == b"store refused: removed u\\|\\\\\n".as_slice());
    Ok(())
}

#[test]
fn a_store_of_another_text_is_refused(rt: HostRuntime) -> Result<(), Fail> {
    let alloc = rt.alloc();
    let (status, out) = updated_over(alloc, OTHERS[1])?;
    assert!(rt; status == Status::Store);
    assert!(rt;
        out.bytes()
            == b"store refused: changed T: stored CREATE OR REFRESH STREAMING TABLE T AS SELECT a AS `\\|\\\\` FROM STREAM read_files ( 'in' , format => 'json' , schema => 'a BIGINT' ), given CREATE OR REFRESH STREAMING TABLE t AS SELECT a FROM STREAM read_files ( 'in' , format => 'json' , schema => 'a BIGINT' )\n".as_slice()
    );
    Ok(())
}

/// A device, the status that blames it, what is printed then, and how many of its calls an update makes.
struct Blame {
    status: Status,
    line: &'static [u8],
    calls: u64,
}

/// The disk, the landing, the source and the sink.
const BLAMES: [Blame; 4] = [
    Blame {
        status: Status::Disk,
        line: b"disk failed\n",
        calls: 19,
    },
    Blame {
        status: Status::Stopped,
        line: b"flow t into t: stopped: landing failed\n",
        calls: 2,
    },
    Blame {
        status: Status::Text,
        line: b"text failed\n",
        calls: 2,
    },
    Blame {
        status: Status::Sink,
        line: b"",
        calls: 1,
    },
];

/// The calls of one device that fail: this one of the device that is meant, and none of the others.
fn failing(alloc: Global, is_meant: bool, call: u64) -> Result<Vec<u64>, AllocError> {
    let mut calls = Vec::new(alloc);
    if is_meant {
        calls.push(call)?;
    }
    Ok(calls)
}

/// Runs the first update with this call of this device failing, and then another one whose disk doesn't fail.
fn update_failing(
    alloc: Global,
    device: usize,
    call: u64,
) -> Result<(Status, MemSink, String), Fail> {
    let words = words(alloc, UPDATE)?;
    let calls = failing(alloc, device == 0, call)?;
    let mut disk = MemDisk::new(alloc, b"", b"", 1024, 4096, calls)?;
    let mut landing = MemLanding::new(alloc, failing(alloc, device == 1, call)?);
    landing.put("in", "a.json", LINES)?;
    let mut text = MemSource::new(
        alloc,
        PIPELINE.as_bytes(),
        failing(alloc, device == 2, call)?,
    )?;
    let mut out = MemSink::new(alloc, failing(alloc, device == 3, call)?);
    let status = run(
        alloc,
        words.as_slice(),
        &mut text,
        &mut disk,
        &mut landing,
        &mut out,
    );
    Ok((status, out, updated_again(alloc, &mut disk)?))
}

/// What the store shows after one more update.
fn updated_again(alloc: Global, disk: &mut MemDisk) -> Result<String, Fail>
    requires { IsHonest (mem_state disk.old) }
{
    let words = words(alloc, UPDATE)?;
    let mut landing = SureLanding::new(alloc);
    landing.put("in", "a.json", LINES)?;
    let mut text = SureSource::new(alloc, PIPELINE.as_bytes())?;
    let mut out = SureSink::new(alloc);
    let _status = run(
        alloc,
        words.as_slice(),
        &mut text,
        disk,
        &mut landing,
        &mut out,
    );
    shown(alloc, disk, "t")
}

#[test]
fn each_call_of_a_device_may_fail(rt: HostRuntime) -> Result<(), Fail> {
    let alloc = rt.alloc();
    for (device, blame) in BLAMES.iter().enumerate() {
        for call in 1..=blame.calls {
            let (status, out, again) = update_failing(alloc, device, call)?;
            assert!(rt; status == blame.status, "device {device}, call {call}");
            assert!(rt; out.bytes() == blame.line);
            assert!(rt; again.as_str() == TAKEN);
        }
        let (status, _out, _again) = update_failing(alloc, device, blame.calls + 1)?;
        assert!(rt; status == Status::Ok, "device {device} makes more calls");
    }
    Ok(())
}
