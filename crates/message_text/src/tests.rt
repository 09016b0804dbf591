use crate::{Refusal, Status, compacted_line, message_line, plan_lines, status_of};
use disk_model::Side;
use pair_store::{CommitEnd, StoreRefusal};
use plan_check::CheckRefusal;
use plan_core::{Body, Dataset, Plan};
use sql_tokens::SqlRefusal;
use sqlite_items::Boxed;
use statement_checks::{Break, CheckFault};
use std::alloc::{AllocError, Global};
use std::process::Abort;
use std::test::Fail;
use update_plan::PlanEnd;
use value_core::{Column, Kind, ListOf, Name, Names, Text};

/// A run that ends so has this status, and this is printed.
fn says(
    rt: &impl Abort,
    alloc: Global,
    refusal: Result<Boxed<Refusal>, AllocError>,
    status: Status,
    wanted: &[u8],
) -> Result<(), Fail> {
    let refusal = refusal?;
    let line = message_line(alloc, refusal.get())?;
    assert!(rt; line.as_slice() == wanted);
    assert!(rt; status_of(refusal.get()) == status);
    Ok(())
}

fn boxed(alloc: Global, refusal: Refusal) -> Result<Boxed<Refusal>, AllocError> {
    Boxed::new(alloc, refusal)
}

// ---- the words of a run, and its text

fn plain_rows(rt: &impl Abort, alloc: Global) -> Result<(), Fail> {
    let usage = b"usage: PIPELINE STORE LANDING COMMAND [then COMMAND]...\n".as_slice();
    says(
        rt,
        alloc,
        boxed(alloc, Refusal::Usage),
        Status::Usage,
        usage,
    )?;
    let text = b"text failed\n".as_slice();
    says(
        rt,
        alloc,
        boxed(alloc, Refusal::TextFailed),
        Status::Text,
        text,
    )?;
    says(
        rt,
        alloc,
        boxed(alloc, Refusal::SinkFailed),
        Status::Sink,
        b"",
    )?;
    says(
        rt,
        alloc,
        boxed(alloc, Refusal::Memory),
        Status::Memory,
        b"",
    )
}

#[derive(Clone, Copy)]
struct Reading {
    refusal: SqlRefusal,
    status: Status,
    line: &'static [u8],
}

const READINGS: [Reading; 6] = [
    Reading {
        refusal: SqlRefusal::TextTooLong,
        status: Status::Pipeline,
        line: b"pipeline refused: text too long\n",
    },
    Reading {
        refusal: SqlRefusal::BadToken { at: 0 },
        status: Status::Pipeline,
        line: b"pipeline refused: bad token at 0\n",
    },
    Reading {
        refusal: SqlRefusal::LiteralTooLarge { at: 41 },
        status: Status::Pipeline,
        line: b"pipeline refused: literal too large at 41\n",
    },
    Reading {
        refusal: SqlRefusal::Unexpected { at: 7 },
        status: Status::Pipeline,
        line: b"pipeline refused: unexpected at 7\n",
    },
    Reading {
        refusal: SqlRefusal::ExprTooLong { at: 1024 },
        status: Status::Pipeline,
        line: b"pipeline refused: expression too long at 1024\n",
    },
    Reading {
        refusal: SqlRefusal::Memory,
        status: Status::Memory,
        line: b"",
    },
];

fn reading_rows(rt: &impl Abort, alloc: Global) -> Result<(), Fail> {
    for row in READINGS {
        let refusal = boxed(alloc, Refusal::Unread(row.refusal));
        says(rt, alloc, refusal, row.status, row.line)?;
    }
    Ok(())
}

// ---- checks

/// The third statement breaks a check.
fn breaks(rt: &impl Abort, alloc: Global, fault: CheckFault, wanted: &[u8]) -> Result<(), Fail> {
    let found = Break {
        statement: 3,
        fault,
    };
    let refusal = boxed(alloc, Refusal::Unchecked(CheckRefusal::Refused(found)));
    says(rt, alloc, refusal, Status::Pipeline, wanted)
}

fn counted_rows(rt: &impl Abort, alloc: Global) -> Result<(), Fail> {
    let many = CheckFault::TooMany { count: 257 };
    breaks(
        rt,
        alloc,
        many,
        b"pipeline refused: statement 3: too many: 257\n",
    )?;
    let group = CheckFault::NotGrouped { item: 2 };
    breaks(
        rt,
        alloc,
        group,
        b"pipeline refused: statement 3: not grouped: output 2\n",
    )?;
    let nameless = CheckFault::NoName { item: 1 };
    breaks(
        rt,
        alloc,
        nameless,
        b"pipeline refused: statement 3: no name: output 1\n",
    )
}

fn flow_rows(rt: &impl Abort, alloc: Global) -> Result<(), Fail> {
    let batch = b"pipeline refused: statement 3: not batch\n".as_slice();
    breaks(rt, alloc, CheckFault::NotBatch, batch)?;
    let changing = b"pipeline refused: statement 3: stream of changing target\n".as_slice();
    breaks(rt, alloc, CheckFault::StreamOfChanging, changing)?;
    let mixed = b"pipeline refused: statement 3: mixed flows\n".as_slice();
    breaks(rt, alloc, CheckFault::MixedFlows, mixed)?;
    let aggregate = b"pipeline refused: statement 3: aggregate in stream\n".as_slice();
    breaks(rt, alloc, CheckFault::AggregateInStream, aggregate)
}

fn feed_rows(rt: &impl Abort, alloc: Global) -> Result<(), Fail> {
    let kinds = b"pipeline refused: statement 3: type mismatch\n".as_slice();
    breaks(rt, alloc, CheckFault::TypeMismatch, kinds)?;
    let truncate = b"pipeline refused: statement 3: truncate with scd type 2\n".as_slice();
    breaks(rt, alloc, CheckFault::TruncateScd2, truncate)?;
    let parts = b"pipeline refused: statement 3: struct sequence with scd type 2\n".as_slice();
    breaks(rt, alloc, CheckFault::StructSequence, parts)
}

/// A check of a name.
#[derive(Clone, Copy)]
enum Named {
    Duplicate,
    Unknown,
    NotStreaming,
    Key,
    Schema,
    NoFlow,
}

fn named_fault(named: Named, name: Name) -> CheckFault {
    match named {
        Named::Duplicate => CheckFault::Duplicate { name },
        Named::Unknown => CheckFault::UnknownName { name },
        Named::NotStreaming => CheckFault::NotStreaming { name },
        Named::Key => CheckFault::KeyNotOutput { name },
        Named::Schema => CheckFault::SchemaDiffers { name },
        Named::NoFlow => CheckFault::NoFlow { name },
    }
}

#[derive(Clone, Copy)]
struct NamedRow {
    named: Named,
    line: &'static [u8],
}

const NAMED_ROWS: [NamedRow; 6] = [
    NamedRow {
        named: Named::Duplicate,
        line: b"pipeline refused: statement 3: duplicate a\\|b\n",
    },
    NamedRow {
        named: Named::Unknown,
        line: b"pipeline refused: statement 3: unknown name a\\|b\n",
    },
    NamedRow {
        named: Named::NotStreaming,
        line: b"pipeline refused: statement 3: not streaming a\\|b\n",
    },
    NamedRow {
        named: Named::Key,
        line: b"pipeline refused: statement 3: key not output a\\|b\n",
    },
    NamedRow {
        named: Named::Schema,
        line: b"pipeline refused: statement 3: schema differs at a\\|b\n",
    },
    NamedRow {
        named: Named::NoFlow,
        line: b"pipeline refused: statement 3: no flow a\\|b\n",
    },
];

fn named_rows(rt: &impl Abort, alloc: Global) -> Result<(), Fail> {
    for row in NAMED_ROWS {
        let name = Name::new(alloc, "a|b")?;
        breaks(rt, alloc, named_fault(row.named, name), row.line)?;
    }
    let word = Text::new(alloc, "sep")?;
    let line = b"pipeline refused: statement 3: bad option sep\n".as_slice();
    breaks(rt, alloc, CheckFault::BadOption { word }, line)
}

fn path(alloc: Global) -> Result<Names, AllocError> {
    let mut path = ListOf::new(alloc);
    path.push(Name::new(alloc, "A")?)?;
    path.push(Name::new(alloc, "B")?)?;
    path.push(Name::new(alloc, "A")?)?;
    Ok(path)
}

fn plan_rows(rt: &impl Abort, alloc: Global) -> Result<(), Fail> {
    let path = path(alloc)?;
    let cycle = boxed(alloc, Refusal::Unchecked(CheckRefusal::Cycle { path }));
    let line = b"pipeline refused: cycle A -> B -> A\n".as_slice();
    says(rt, alloc, cycle, Status::Pipeline, line)?;
    let unbuilt = boxed(alloc, Refusal::NotBuilt { statement: 2 });
    let line = b"pipeline refused: statement 2: not yet supported\n".as_slice();
    says(rt, alloc, unbuilt, Status::Pipeline, line)
}

// ---- stores

fn refuses(
    rt: &impl Abort,
    alloc: Global,
    refusal: StoreRefusal,
    status: Status,
    wanted: &[u8],
) -> Result<(), Fail> {
    says(
        rt,
        alloc,
        boxed(alloc, Refusal::Unloaded(refusal)),
        status,
        wanted,
    )
}

fn side_rows(rt: &impl Abort, alloc: Global) -> Result<(), Fail> {
    let foreign = StoreRefusal::Foreign {
        side: Side::Left,
        len: 19,
    };
    let line = b"store refused: foreign left 19\n".as_slice();
    refuses(rt, alloc, foreign, Status::Store, line)?;
    let damaged = StoreRefusal::Damaged {
        side: Side::Right,
        at: 17,
    };
    let line = b"store refused: damaged right at 17\n".as_slice();
    refuses(rt, alloc, damaged, Status::Store, line)
}

fn log_rows(rt: &impl Abort, alloc: Global) -> Result<(), Fail> {
    let same = StoreRefusal::SameEpoch { epoch: 4 };
    let line = b"store refused: both logs have epoch 4\n".as_slice();
    refuses(rt, alloc, same, Status::Store, line)?;
    let full = StoreRefusal::Full { end: 30, room: 20 };
    let line = b"store refused: full: end 30, room 20\n".as_slice();
    refuses(rt, alloc, full, Status::Store, line)?;
    refuses(
        rt,
        alloc,
        StoreRefusal::Failed,
        Status::Disk,
        b"disk failed\n",
    )?;
    refuses(rt, alloc, StoreRefusal::Memory, Status::Memory, b"")
}

fn commits(
    rt: &impl Abort,
    alloc: Global,
    end: CommitEnd,
    status: Status,
    wanted: &[u8],
) -> Result<(), Fail> {
    says(
        rt,
        alloc,
        boxed(alloc, Refusal::Uncommitted(end)),
        status,
        wanted,
    )
}

fn commit_rows(rt: &impl Abort, alloc: Global) -> Result<(), Fail> {
    let name = Name::new(alloc, "t")?;
    let line = b"store refused: versions of t are full\n".as_slice();
    commits(
        rt,
        alloc,
        CommitEnd::VersionFull { name },
        Status::Store,
        line,
    )?;
    let line = b"store refused: epochs are full\n".as_slice();
    commits(
        rt,
        alloc,
        CommitEnd::EpochFull { epoch: 9 },
        Status::Store,
        line,
    )?;
    let line = b"store refused: full: end 3, room 2\n".as_slice();
    commits(
        rt,
        alloc,
        CommitEnd::Full { end: 3, room: 2 },
        Status::Store,
        line,
    )?;
    commits(
        rt,
        alloc,
        CommitEnd::Failed { count: 1 },
        Status::Disk,
        b"disk failed\n",
    )
}

fn changed(alloc: Global) -> Result<Boxed<Refusal>, AllocError> {
    let name = Name::new(alloc, "t")?;
    let stored = Text::new(alloc, "one\ttext")?;
    let given = Text::new(alloc, "other")?;
    let end = PlanEnd::Changed {
        name,
        stored,
        given,
    };
    boxed(alloc, Refusal::Unplanned(end))
}

fn removed(alloc: Global) -> Result<Boxed<Refusal>, AllocError> {
    let name = Name::new(alloc, "t")?;
    boxed(alloc, Refusal::Unplanned(PlanEnd::Removed { name }))
}

fn unknown(alloc: Global) -> Result<Boxed<Refusal>, AllocError> {
    let name = Name::new(alloc, "t")?;
    boxed(alloc, Refusal::Unplanned(PlanEnd::UnknownTable { name }))
}

fn update_rows(rt: &impl Abort, alloc: Global) -> Result<(), Fail> {
    let line = b"store refused: changed t: stored one\\ttext, given other\n".as_slice();
    says(rt, alloc, changed(alloc), Status::Store, line)?;
    let line = b"store refused: removed t\n".as_slice();
    says(rt, alloc, removed(alloc), Status::Store, line)?;
    let line = b"store refused: unknown table t\n".as_slice();
    says(rt, alloc, unknown(alloc), Status::Store, line)
}

fn asked(alloc: Global, name: Name) -> Result<Boxed<Refusal>, AllocError> {
    let refusal = Refusal::NoVersion {
        name,
        asked: 9,
        base: 2,
        now: 5,
    };
    boxed(alloc, refusal)
}

fn table_rows(rt: &impl Abort, alloc: Global) -> Result<(), Fail> {
    let name = Name::new(alloc, "t")?;
    let line = b"store refused: unfit t\n".as_slice();
    says(
        rt,
        alloc,
        boxed(alloc, Refusal::Unfit { name }),
        Status::Store,
        line,
    )?;
    let name = Name::new(alloc, "t")?;
    let line = b"store refused: unknown table t\n".as_slice();
    says(
        rt,
        alloc,
        boxed(alloc, Refusal::UnknownTable { name }),
        Status::Store,
        line,
    )
}

fn version_row(rt: &impl Abort, alloc: Global) -> Result<(), Fail> {
    let name = Name::new(alloc, "t")?;
    let line = b"store refused: no version 9 of t, kept 2 to 5\n".as_slice();
    says(rt, alloc, asked(alloc, name), Status::Store, line)
}

#[test]
fn texts_are_refused_in_words(rt: HostRuntime) -> Result<(), Fail> {
    let alloc = rt.alloc();
    plain_rows(&rt, alloc)?;
    reading_rows(&rt, alloc)?;
    counted_rows(&rt, alloc)?;
    flow_rows(&rt, alloc)?;
    feed_rows(&rt, alloc)?;
    named_rows(&rt, alloc)?;
    plan_rows(&rt, alloc)
}

#[test]
fn stores_are_refused_in_words(rt: HostRuntime) -> Result<(), Fail> {
    let alloc = rt.alloc();
    side_rows(&rt, alloc)?;
    log_rows(&rt, alloc)?;
    commit_rows(&rt, alloc)?;
    update_rows(&rt, alloc)?;
    table_rows(&rt, alloc)?;
    version_row(&rt, alloc)
}

#[test]
fn a_compaction_tells_its_epoch(rt: HostRuntime) -> Result<(), Fail> {
    let line = compacted_line(rt.alloc(), 12)?;
    assert!(&rt; line.as_slice() == b"compacted: epoch 12\n".as_slice());
    Ok(())
}

// ---- plans

fn dataset(
    alloc: Global,
    name: Name,
    text: Text,
    level: u32,
    column: Column,
) -> Result<Boxed<Dataset>, AllocError> {
    let mut columns = ListOf::new(alloc);
    columns.push(column)?;
    Boxed::new(
        alloc,
        Dataset {
            name,
            text,
            body: Body::Append(ListOf::new(alloc)),
            columns,
            expectations: ListOf::new(alloc),
            level,
        },
    )
}

/// A table of this name and level, with one column.
fn table(alloc: Global, name: &str, level: u32, kind: Kind) -> Result<Boxed<Dataset>, AllocError> {
    let column = Column {
        name: Name::new(alloc, "a")?,
        kind,
    };
    let text = Text::new(alloc, "")?;
    dataset(alloc, Name::new(alloc, name)?, text, level, column)
}

/// A plan whose first dataset has a greater level than the others.
fn plan(alloc: Global) -> Result<Plan, AllocError> {
    let mut plan = Plan::new(alloc);
    let last = table(alloc, "last", 1, Kind::Str)?;
    plan.add(alloc, last.into_inner())?;
    let first = table(alloc, "first", 0, Kind::Int)?;
    plan.add(alloc, first.into_inner())?;
    Ok(plan)
}

#[test]
fn a_plan_is_told_by_level(rt: HostRuntime) -> Result<(), Fail> {
    let alloc = rt.alloc();
    let lines = plan_lines(alloc, &plan(alloc)?)?;
    let wanted =
        b"streaming table first level 0: a INT\nstreaming table last level 1: a STRING\n".as_slice();
    assert!(&rt; lines.as_slice() == wanted);
    Ok(())
}
