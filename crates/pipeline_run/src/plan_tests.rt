// What is printed of plans and of broken checks, and pipelines without a table.
use crate::Status;
use crate::test_devices::{left, ran_over, shown};
use disk_model::{SureDisk, SureSink};
use landing_core::SureLanding;
use std::alloc::{AllocError, Global};
use std::process::Abort;
use std::test::Fail;

const TABLE: &str =
    "CREATE STREAMING TABLE t AS SELECT a FROM STREAM read_files('in', format => 'json', schema => 'a BIGINT')";

/// What `validate` answers and prints of a text.
fn validated(alloc: Global, text: &str) -> Result<(Status, SureSink), AllocError> {
    let mut disk = SureDisk::new(alloc, b"", b"", 64)?;
    let mut landing = SureLanding::new(alloc);
    ran_over(alloc, "validate", text, &mut disk, &mut landing)
}

/// A text, and what `validate` prints of it.
type Line = (&'static str, &'static [u8]);

const PLANS: [Line; 4] = [
    ("", b""),
    (TABLE, b"streaming table t level 0: a BIGINT\n"),
    (
        "CREATE STREAMING TABLE t (C STRING, a boolean) AS SELECT c, A FROM STREAM read_files('in', format => 'csv', schema => 'A BOOLEAN, b INT, c STRING')",
        b"streaming table t level 0: c STRING, A BOOLEAN\n",
    ),
    (
        "CREATE STREAMING TABLE `t|\\` AS SELECT *, b AS `|\\` FROM STREAM read_files('in', format => 'json', schema => 'b INT, a BIGINT', rescuedDataColumn => '\t\n')",
        b"streaming table t\\|\\\\ level 0: b INT, a BIGINT, \\t\\n STRING, \\|\\\\ INT\n",
    ),
];

/// Files with these options, or with these outputs.
const CHECKS: [Line; 9] = [
    (
        "CREATE STREAMING TABLE u",
        b"pipeline refused: statement 1: not yet supported\n",
    ),
    (
        "CREATE STREAMING TABLE t AS SELECT a FROM STREAM read_files('in', format => 'json', schema => 'a BIGINT'); CREATE STREAMING TABLE u",
        b"pipeline refused: statement 2: not yet supported\n",
    ),
    (
        "CREATE STREAMING TABLE u; CREATE STREAMING TABLE t AS SELECT a FROM STREAM read_files('in', format => 'json', schema => 'a BIGINT')",
        b"pipeline refused: statement 1: not yet supported\n",
    ),
    (
        "CREATE STREAMING TABLE t (`a|` INT, `A|` INT) AS SELECT a FROM read_files('in')",
        b"pipeline refused: statement 1: duplicate A\\|\n",
    ),
    (
        "CREATE STREAMING TABLE t AS SELECT b FROM read_files('in', format => 'json', schema => 'a BIGINT') GROUP BY a",
        b"pipeline refused: statement 1: not streaming read_files\n",
    ),
    (
        "CREATE STREAMING TABLE t AS SELECT b FROM STREAM read_files('in', format => 'json', schema => 'a BIGINT') GROUP BY a",
        b"pipeline refused: statement 1: aggregate in stream\n",
    ),
    (
        "CREATE STREAMING TABLE t AS SELECT a, `b|` FROM STREAM read_files('in', format => 'json', schema => 'a BIGINT')",
        b"pipeline refused: statement 1: unknown name b\\|\n",
    ),
    (
        "CREATE STREAMING TABLE t AS SELECT *, A FROM STREAM read_files('in', format => 'json', schema => 'a BIGINT')",
        b"pipeline refused: statement 1: duplicate a\n",
    ),
    (
        "CREATE STREAMING TABLE t (a BIGINT, b INT) AS SELECT a, a AS `b|` FROM STREAM read_files('in', format => 'json', schema => 'a BIGINT')",
        b"pipeline refused: statement 1: schema differs at b\\|\n",
    ),
];

const OPTIONS: [Line; 9] = [
    (
        "CREATE STREAMING TABLE t AS SELECT a FROM STREAM read_files('..', format => 'json', schema => 'a BIGINT')",
        b"pipeline refused: statement 1: bad option path\n",
    ),
    (
        "CREATE STREAMING TABLE t AS SELECT a FROM STREAM read_files('in', formats => 'json', schema => 'a BIGINT')",
        b"pipeline refused: statement 1: bad option formats\n",
    ),
    (
        "CREATE STREAMING TABLE t AS SELECT a FROM STREAM read_files('in', schema => 'a BIGINT')",
        b"pipeline refused: statement 1: bad option format\n",
    ),
    (
        "CREATE STREAMING TABLE t AS SELECT a FROM STREAM read_files('in', format => 'csv', schema => 'a FLOAT')",
        b"pipeline refused: statement 1: bad option schema\n",
    ),
    (
        "CREATE STREAMING TABLE t AS SELECT a FROM STREAM read_files('in', format => 'csv', schema => 'a INT', sep => '::')",
        b"pipeline refused: statement 1: bad option sep\n",
    ),
    (
        "CREATE STREAMING TABLE t AS SELECT a FROM STREAM read_files('in', format => 'csv', schema => 'a INT', header => 'yes')",
        b"pipeline refused: statement 1: bad option header\n",
    ),
    (
        "CREATE STREAMING TABLE t AS SELECT a FROM STREAM read_files('in', format => 'json', schema => 'a INT', sep => ';')",
        b"pipeline refused: statement 1: bad option sep\n",
    ),
    (
        "CREATE STREAMING TABLE t AS SELECT a FROM STREAM read_files('in', format => 'csv', schema => 'a INT', rescuedDataColumn => 'A')",
        b"pipeline refused: statement 1: bad option rescuedDataColumn\n",
    ),
    (
        "CREATE STREAMING TABLE t AS SELECT a FROM STREAM read_files('in', format => 'json', schema => 'a INT', format => 'json')",
        b"pipeline refused: statement 1: bad option format\n",
    ),
];

/// Each text is answered by this status and this line.
fn are_told(
    rt: &impl Abort,
    alloc: Global,
    lines: &[Line],
    wanted: Status,
) -> Result<(), AllocError> {
    for (text, line) in lines {
        let (status, out) = validated(alloc, text)?;
        assert!(rt; out.bytes() == *line, "{text}");
        assert!(rt; status == wanted, "{text}");
    }
    Ok(())
}

#[test]
fn a_plan_is_printed(rt: HostRuntime) -> Result<(), Fail> {
    are_told(&rt, rt.alloc(), &PLANS, Status::Ok)?;
    Ok(())
}

#[test]
fn a_broken_check_is_told_with_its_statement(rt: HostRuntime) -> Result<(), Fail> {
    are_told(&rt, rt.alloc(), &CHECKS, Status::Pipeline)?;
    are_told(&rt, rt.alloc(), &OPTIONS, Status::Pipeline)?;
    Ok(())
}

/// A table that declares so many columns.
fn wide(alloc: Global, count: u32) -> Result<String, AllocError> {
    let mut text = String::from_str(alloc, "CREATE STREAMING TABLE t (c0 INT")?;
    for number in 1..count {
        text.push_str(format!(in alloc; ", c{number} INT")?.as_str())?;
    }
    text.push_str(
        ") AS SELECT * FROM STREAM read_files('in', format => 'json', schema => 'c0 INT')",
    )?;
    Ok(text)
}

#[test]
fn too_many_columns_are_told(rt: HostRuntime) -> Result<(), Fail> {
    let alloc = rt.alloc();
    let (status, out) = validated(alloc, wide(alloc, 257)?.as_str())?;
    assert!(rt; status == Status::Pipeline);
    assert!(rt; out.bytes() == b"pipeline refused: statement 1: too many: 257\n".as_slice());
    let (_status, out) = validated(alloc, wide(alloc, 256)?.as_str())?;
    assert!(rt; out.bytes() == b"pipeline refused: statement 1: schema differs at c1\n".as_slice());
    Ok(())
}

#[test]
fn without_a_table_a_store_is_made(rt: HostRuntime) -> Result<(), Fail> {
    let alloc = rt.alloc();
    let mut disk = SureDisk::new(alloc, b"", b"", 64)?;
    let mut landing = SureLanding::new(alloc);
    let (status, out) = ran_over(alloc, "update", "", &mut disk, &mut landing)?;
    assert!(rt; status == Status::Ok && out.bytes().is_empty());
    let left = left(alloc, &mut disk).ok().ok_or("the file is read")?;
    assert!(rt; !left.is_empty());
    Ok(())
}

#[test]
fn without_a_table_a_stored_one_is_removed(rt: HostRuntime) -> Result<(), Fail> {
    let alloc = rt.alloc();
    let mut disk = SureDisk::new(alloc, b"", b"", 1024)?;
    let mut landing = SureLanding::new(alloc);
    let (_status, _out) = ran_over(alloc, "update", TABLE, &mut disk, &mut landing)?;
    let (status, out) = ran_over(alloc, "update", "", &mut disk, &mut landing)?;
    assert!(rt; status == Status::Store);
    assert!(rt; out.bytes() == b"store refused: removed t\n".as_slice());
    assert!(rt; shown(alloc, &mut disk, "t")?.as_str() == "read");
    Ok(())
}
