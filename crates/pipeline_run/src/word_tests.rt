use crate::command::{Command, commands};
use crate::test_devices::{left, words};
use crate::{Status, run_in_memory};
use disk_model::{SureDisk, SureSink, SureSource};
use landing_core::SureLanding;
use std::alloc::{AllocError, Global};
use std::test::Fail;

const UPDATE: &[Command] = &[Command::Update];

const VALIDATE: &[Command] = &[Command::Validate];

/// Words, and the commands that they ask for, where they are of the form.
const ASKED: [(&[&str], Option<&[Command]>); 22] = [
    (&["p", "s", "l", "update"], Some(UPDATE)),
    (&["p", "s", "l", "validate"], Some(VALIDATE)),
    (&["then", "then", "then", "update"], Some(UPDATE)),
    (
        &["p", "s", "l", "validate", "then", "update"],
        Some(&[Command::Validate, Command::Update]),
    ),
    (
        &[
            "p", "s", "l", "update", "then", "update", "then", "validate",
        ],
        Some(&[Command::Update, Command::Update, Command::Validate]),
    ),
    (&[], None),
    (&["p", "s", "update"], None),
    (&["p", "s", "l"], None),
    (&["", "s", "l", "update"], None),
    (&["p", "", "l", "update"], None),
    (&["p", "s", "", "update"], None),
    (&["p", "s", "l", "update", "then"], None),
    (&["p", "s", "l", "then", "update"], None),
    (&["p", "s", "l", "update", "then", "then", "update"], None),
    (&["p", "s", "l", "update", "update"], None),
    (&["p", "s", "l", "--"], None),
    (&["p", "s", "l", "update", "--workers", "0"], None),
    (&["p", "s", "l", "show"], None),
    (&["p", "s", "l", "validate="], None),
    (&["p", "s", "l", "Update"], None),
    (&["p", "s", "l", ""], None),
    (&["p", "s", "l", "update", "then", "show"], None),
];

fn are_same(found: &Option<Vec<Command>>, expected: Option<&[Command]>) -> bool {
    match (found, expected) {
        (Some(found), Some(expected)) => found.as_slice() == expected,
        (None, None) => true,
        _ => false,
    }
}

#[test]
fn words_ask_for_commands(rt: HostRuntime) -> Result<(), Fail> {
    let alloc = rt.alloc();
    for (list, expected) in ASKED {
        let words = words(alloc, list)?;
        let found = commands(alloc, words.as_slice())?;
        assert!(rt; are_same(&found, expected));
    }
    Ok(())
}

/// The status, the output and the store's file of a run over a landing folder with one file of two lines.
fn ran(alloc: Global, list: &[&str], text: &[u8]) -> Result<(Status, SureSink, Vec<u8>), Fail> {
    let words = words(alloc, list)?;
    let mut disk = SureDisk::new(alloc, b"", b"", 1024)?;
    let mut landing = SureLanding::new(alloc);
    landing.put("in", "a.json", b"{\"a\":5}\n{\"a\":null}\n")?;
    let mut text = SureSource::new(alloc, text)?;
    let mut out = SureSink::new(alloc);
    let status = run_in_memory(
        alloc,
        words.as_slice(),
        &mut text,
        &mut disk,
        &mut landing,
        &mut out,
    );
    let left = left(alloc, &mut disk).ok().ok_or("the file is read")?;
    Ok((status, out, left))
}

/// Commands, a text, and what the run answers and prints.
struct Case {
    commands: &'static [&'static str],
    text: &'static [u8],
    status: Status,
    lines: &'static [u8],
}

const ONE_UPDATE: &[&str] = &["p", "s", "l", "update"];

const ONE_VALIDATE: &[&str] = &["p", "s", "l", "validate"];

const TWO_UPDATES: &[&str] = &["p", "s", "l", "update", "then", "update"];

const BOTH: &[&str] = &["p", "s", "l", "validate", "then", "update"];

/// The pipeline that an update is built for, as it is printed.
const PRINTED: &[u8] =
    b"CREATE OR REFRESH STREAMING TABLE t AS SELECT a FROM STREAM read_files ( 'in' , format => 'json' , schema => 'a BIGINT' )";

/// The same pipeline in another spelling.
const RESPELLED: &[u8] =
    b"-- one table\ncreate streaming /* a /* nested */ one */ table `t`\r\n\tcomment 'none'\n\
as select (`a`) from stream Read_Files(\"in\",format=>\"json\",schema=>'a BIGINT');\n";

/// Runs that store two rows.
const STORING: [Case; 4] = [
    Case {
        commands: ONE_UPDATE,
        text: PRINTED,
        status: Status::Ok,
        lines: b"flow t into t: completed, 2 rows read, version 1\n",
    },
    Case {
        commands: ONE_UPDATE,
        text: RESPELLED,
        status: Status::Ok,
        lines: b"flow t into t: completed, 2 rows read, version 1\n",
    },
    Case {
        commands: TWO_UPDATES,
        text: PRINTED,
        status: Status::Ok,
        lines: b"flow t into t: completed, 2 rows read, version 1\nflow t into t: current\n",
    },
    Case {
        commands: BOTH,
        text: PRINTED,
        status: Status::Ok,
        lines: b"streaming table t level 0: a BIGINT\nflow t into t: completed, 2 rows read, version 1\n",
    },
];

/// Runs that store nothing.
const IDLE: [Case; 8] = [
    Case {
        commands: ONE_VALIDATE,
        text: PRINTED,
        status: Status::Ok,
        lines: b"streaming table t level 0: a BIGINT\n",
    },
    Case {
        commands: ONE_VALIDATE,
        text: b"",
        status: Status::Ok,
        lines: b"",
    },
    Case {
        commands: BOTH,
        text: b"CREATE STREAMING TABLE u",
        status: Status::Pipeline,
        lines: b"pipeline refused: statement 1: not yet supported\n",
    },
    Case {
        commands: BOTH,
        text: b"SELECT 'x",
        status: Status::Pipeline,
        lines: b"pipeline refused: bad token at 7\n",
    },
    Case {
        commands: TWO_UPDATES,
        text: b"SELECT 1",
        status: Status::Pipeline,
        lines: b"pipeline refused: unexpected at 0\n",
    },
    Case {
        commands: ONE_VALIDATE,
        text: b"CREATE STREAMING TABLE",
        status: Status::Pipeline,
        lines: b"pipeline refused: unexpected at 22\n",
    },
    Case {
        commands: ONE_VALIDATE,
        text: b"CREATE STREAMING TABLE t AS SELECT 9223372036854775808 FROM u",
        status: Status::Pipeline,
        lines: b"pipeline refused: literal too large at 35\n",
    },
    Case {
        commands: &["p", "s", "l", "update", "now"],
        text: b"SELECT 'x",
        status: Status::Usage,
        lines: b"usage: PIPELINE STORE LANDING COMMAND [then COMMAND]...\n",
    },
];

#[test]
fn commands_run_in_order_and_a_refused_one_ends_the_run(rt: HostRuntime) -> Result<(), Fail> {
    let alloc = rt.alloc();
    for case in &STORING {
        let (status, out, left) = ran(alloc, case.commands, case.text)?;
        assert!(rt; status == case.status);
        assert!(rt; out.bytes() == case.lines);
        assert!(rt; !left.is_empty());
    }
    for case in &IDLE {
        let (status, out, left) = ran(alloc, case.commands, case.text)?;
        assert!(rt; status == case.status);
        assert!(rt; out.bytes() == case.lines);
        assert!(rt; left.is_empty());
    }
    Ok(())
}

/// A text and then one piece many times.
fn repeated(alloc: Global, front: &[u8], piece: &[u8], count: u64) -> Result<Vec<u8>, AllocError> {
    let mut text = Vec::from_slice(alloc, front)?;
    for _ in 0..count {
        text.extend_from_slice(piece)?;
    }
    Ok(text)
}

#[test]
fn a_long_text_is_refused(rt: HostRuntime) -> Result<(), Fail> {
    let alloc = rt.alloc();
    let text = repeated(alloc, b"\xff", b" ", 1_048_576)?;
    let (status, out, _left) = ran(alloc, BOTH, text.as_slice())?;
    assert!(rt; status == Status::Pipeline);
    assert!(rt; out.bytes() == b"pipeline refused: text too long\n".as_slice());
    let text = repeated(alloc, b"", b"\n", 1_048_576)?;
    let (status, _out, _left) = ran(alloc, ONE_VALIDATE, text.as_slice())?;
    assert!(rt; status == Status::Ok);
    Ok(())
}

#[test]
fn a_long_expression_is_refused(rt: HostRuntime) -> Result<(), Fail> {
    let alloc = rt.alloc();
    let text = repeated(alloc, b"CREATE STREAMING TABLE t AS SELECT -", b"1+", 256)?;
    let (status, out, _left) = ran(alloc, BOTH, text.as_slice())?;
    assert!(rt; status == Status::Pipeline);
    assert!(rt; out.bytes() == b"pipeline refused: expression too long at 547\n".as_slice());
    Ok(())
}
