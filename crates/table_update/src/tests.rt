// Updates over devices in memory: what is taken, what is refused, and what a crash leaves.
ghost use Rattle.std.specs.Prelude.{◌≡◌, true, IfOk, slice_get};
ghost use Rattle.disk_model.specs.Disk.{IsHonest};
ghost use Rattle.disk_model.specs.MemDisk.{mem_state};
ghost use Rattle.line_rows.specs.Lines.{keeps_text};
ghost use Rattle.table_update.specs.Table.{is_of_kind, is_sound};

use crate::{AppendTable, Output, Outputs, UpdateEnd, update};
use disk_model::{MemDisk, Pick, Side, SureDisk};
use landing_core::{MemLanding, SureLanding};
use std::alloc::{AllocError, Global};
use std::process::Abort;
use std::test::Fail;
use store_core::Store;
use value_core::{Column, Cursor, Format, Kind, Name, Rows, Schema, Shape, Text, Value};

/// The room of a disk where it doesn't matter.
const ROOM: u64 = 1024;

/// A column of a name and a kind.
fn column(alloc: Global, name: &str, kind: Kind) -> Result<Column, AllocError>
    ensures { IfOk result (λ column. column.kind ≡ kind) }
{
    Ok(Column {
        name: Name::new(alloc, name)?,
        kind,
    })
}

/// An output that takes the column at a place, under a name.
fn output(alloc: Global, place: usize, name: &str, kind: Kind) -> Result<Output, AllocError>
    ensures { IfOk result (λ output. (output.place ≡ place) × (output.column.kind ≡ kind)) }
{
    Ok(Output {
        place,
        column: column(alloc, name, kind)?,
    })
}

/// A line of JSON has one member, `a`.
#[tactic(auto, using(crate::proofs::RowLemmas::same_kind_itself))]
fn numbers(alloc: Global, kind: Kind) -> Result<Shape, AllocError>
    ensures text { IfOk result (λ shape. keeps_text shape ≡ true) }
    ensures kind { IfOk result (λ shape. is_of_kind (slice_get shape.columns 0) kind ≡ true) }
{
    let mut columns = Schema::new(alloc);
    columns.push(column(alloc, "a", kind)?)?;
    Ok(Shape {
        format: Format::Json,
        columns,
        rescued: false,
        header: false,
        sep: b',',
    })
}

/// A table of the folder `in`.
fn table(
    alloc: Global,
    name: &str,
    text: &str,
    shape: Shape,
    outputs: Outputs,
) -> Result<AppendTable, AllocError>
    ensures { IfOk result (λ table. (table.shape ≡ shape) × (table.outputs ≡ outputs)) }
{
    Ok(AppendTable {
        name: Name::new(alloc, name)?,
        text: Text::new(alloc, text)?,
        folder: Text::new(alloc, "in")?,
        shape,
        outputs,
    })
}

/// A table with one column of this kind, `a`.
fn one_column(alloc: Global, name: &str, text: &str, kind: Kind) -> Result<AppendTable, AllocError>
    ensures { IfOk result (λ table. is_sound table ≡ true) }
{
    let mut outputs = Outputs::new(alloc);
    outputs.push(output(alloc, 0, "a", kind)?)?;
    table(alloc, name, text, numbers(alloc, kind)?, outputs)
}

/// The table `t` with the text `x` and one column, a BIGINT.
fn t(alloc: Global) -> Result<AppendTable, AllocError>
    ensures { IfOk result (λ table. is_sound table ≡ true) }
{
    one_column(alloc, "t", "x", Kind::Big)
}

/// How an update ended, as a text.
fn said(alloc: Global, end: &UpdateEnd) -> Result<String, AllocError> {
    match end {
        UpdateEnd::LoadFailed => String::from_str(alloc, "load failed"),
        UpdateEnd::Foreign { len } => format!(in alloc; "foreign {len}"),
        UpdateEnd::Damaged { at } => format!(in alloc; "damaged at {at}"),
        UpdateEnd::Removed { name } => format!(in alloc; "removed {}", name.as_str()),
        UpdateEnd::Changed {
            name,
            stored,
            given,
        } => {
            format!(in alloc;
                "changed {}: {}, {}",
                name.as_str(),
                stored.as_str(),
                given.as_str()
            )
        }
        UpdateEnd::Unfit { name } => format!(in alloc; "unfit {}", name.as_str()),
        UpdateEnd::Full { end, room } => format!(in alloc; "full: {end} of {room}"),
        UpdateEnd::VersionFull { name } => format!(in alloc; "no version of {}", name.as_str()),
        UpdateEnd::CommitFailed => String::from_str(alloc, "commit failed"),
        UpdateEnd::LandingFailed => String::from_str(alloc, "landing failed"),
        UpdateEnd::Shrunk { file, cursor, size } => {
            format!(in alloc; "{} shrunk: {cursor}, {size}", file.as_str())
        }
        UpdateEnd::Current => String::from_str(alloc, "current"),
        UpdateEnd::Completed { read, version } => {
            format!(in alloc; "completed {read}, version {version}")
        }
        UpdateEnd::Memory => String::from_str(alloc, "memory"),
    }
}

/// A value: `-` for NULL, `L` behind a BIGINT, and `'` before a STRING.
fn value_text(alloc: Global, value: &Value) -> Result<String, AllocError> {
    match value {
        Value::Null => String::from_str(alloc, "-"),
        Value::Bool(truth) => truth.to_string(alloc),
        Value::Int(number) => number.to_string(alloc),
        Value::Big(number) => format!(in alloc; "{number}L"),
        Value::Str(text) => format!(in alloc; "'{}", text.as_str()),
    }
}

/// Rows: each value with `|` behind it, and each row with `;` behind it.
fn put_rows(alloc: Global, text: &mut String, rows: &Rows) -> Result<(), AllocError> {
    for row in rows.as_slice() {
        for value in row.as_slice() {
            text.push_str(value_text(alloc, value)?.as_str())?;
            text.push_str("|")?;
        }
        text.push_str(";")?;
    }
    Ok(())
}

/// How far a flow has read each file.
fn put_places(alloc: Global, text: &mut String, cursor: &Cursor) -> Result<(), AllocError> {
    if let Cursor::Files(places) = cursor {
        for place in places.as_slice() {
            let shown = format!(in alloc; " {} {}", place.file.as_str(), place.place)?;
            text.push_str(shown.as_str())?;
        }
    }
    Ok(())
}

/// What a store holds of `t`: the rows that each version adds, and how far its flow has read.
fn shown(alloc: Global, store: &Store) -> Result<String, AllocError> {
    let name = Name::new(alloc, "t")?;
    let mut text = String::new(alloc);
    if let Some(versions) = store.table(&name) {
        for change in versions.changes() {
            text.push_str("+")?;
            put_rows(alloc, &mut text, &change.added)?;
        }
    }
    if let Some(cursor) = store.cursor(&name, &name) {
        text.push_str("read")?;
        put_places(alloc, &mut text, cursor)?;
    }
    Ok(text)
}

/// The store of a disk that never fails.
fn shown_on(alloc: Global, disk: &mut SureDisk) -> Result<String, Fail> {
    let store = Store::load(alloc, disk).ok().ok_or("the store is loaded")?;
    Ok(shown(alloc, &store)?)
}

/// A file that is set, or grows, and what the next update says and leaves.
struct Step {
    grows: bool,
    file: &'static str,
    bytes: &'static [u8],
    said: &'static str,
    shown: &'static str,
}

/// Takes a step of a table.
fn take_step(
    rt: &impl Abort,
    alloc: Global,
    disk: &mut SureDisk,
    landing: &mut SureLanding,
    table: &AppendTable,
    step: &Step,
) -> Result<(), Fail>
    requires { is_sound table.now ≡ true }
{
    if step.grows {
        landing.grow("in", step.file, step.bytes)?;
    } else {
        landing.put("in", step.file, step.bytes)?;
    }
    let end = update(alloc, disk, landing, Some(table));
    assert_eq!(rt; said(alloc, &end)?.as_str(), step.said);
    assert_eq!(rt; shown_on(alloc, disk)?.as_str(), step.shown);
    Ok(())
}

const STEPS: [Step; 6] = [
    Step {
        grows: false,
        file: "a.json",
        bytes: b"{\"a\":6}\n",
        said: "completed 3, version 1",
        shown: "+5L|;6L|;7L|;read a.json 8 b.json 16",
    },
    Step {
        grows: true,
        file: "a.json",
        bytes: b"",
        said: "current",
        shown: "+5L|;6L|;7L|;read a.json 8 b.json 16",
    },
    Step {
        grows: true,
        file: "a.json",
        bytes: b"{\"a\":9",
        said: "current",
        shown: "+5L|;6L|;7L|;read a.json 8 b.json 16",
    },
    Step {
        grows: true,
        file: "a.json",
        bytes: b"}\n{\"a\":null}\n",
        said: "completed 2, version 2",
        shown: "+5L|;6L|;7L|;+-|;9L|;read a.json 27 b.json 16",
    },
    Step {
        grows: false,
        file: "b.json",
        bytes: b"{\"a\":7}\n{\"a\":5}",
        said: "b.json shrunk: 16, 15",
        shown: "+5L|;6L|;7L|;+-|;9L|;read a.json 27 b.json 16",
    },
    Step {
        grows: true,
        file: "b.json",
        bytes: b"\n{\"a\":4}\n",
        said: "completed 1, version 3",
        shown: "+5L|;6L|;7L|;+-|;9L|;+4L|;read a.json 27 b.json 24",
    },
];

#[test]
fn what_is_new_is_taken_once(rt: HostRuntime) -> Result<(), Fail> {
    let alloc = rt.alloc();
    let mut disk = SureDisk::new(alloc, &[], &[], ROOM)?;
    let mut landing = SureLanding::new(alloc);
    let table = t(alloc)?;
    landing.put("in", "b.json", b"{\"a\":7}\n{\"a\":5}\n")?;
    for next in &STEPS {
        take_step(&rt, alloc, &mut disk, &mut landing, &table, next)?;
    }
    Ok(())
}

/// `id INT, name STRING` and a rescued column, of CSV files with a header.
fn people(alloc: Global) -> Result<Shape, AllocError>
    ensures text { IfOk result (λ shape. keeps_text shape ≡ true) }
    ensures id { IfOk result (λ shape. is_of_kind (slice_get shape.columns 0) Kind.Int ≡ true) }
    ensures name { IfOk result (λ shape. is_of_kind (slice_get shape.columns 1) Kind.Str ≡ true) }
    ensures rescued { IfOk result (λ shape. is_of_kind (slice_get shape.columns 2) Kind.Str ≡ true) }
{
    let mut columns = Schema::new(alloc);
    columns.push(column(alloc, "id", Kind::Int)?)?;
    columns.push(column(alloc, "name", Kind::Str)?)?;
    columns.push(column(alloc, "_rescued_data", Kind::Str)?)?;
    Ok(Shape {
        format: Format::Csv,
        columns,
        rescued: true,
        header: true,
        sep: b',',
    })
}

/// Its columns in order.
fn all_of_people(alloc: Global) -> Result<AppendTable, AllocError>
    ensures { IfOk result (λ table. is_sound table ≡ true) }
{
    let mut outputs = Outputs::new(alloc);
    outputs.push(output(alloc, 0, "id", Kind::Int)?)?;
    outputs.push(output(alloc, 1, "name", Kind::Str)?)?;
    outputs.push(output(alloc, 2, "_rescued_data", Kind::Str)?)?;
    table(alloc, "t", "x", people(alloc)?, outputs)
}

const CSV_STEPS: [Step; 3] = [
    Step {
        grows: false,
        file: "p.csv",
        bytes: b"name,id\nAnn,2\nBob,x\n",
        said: "completed 2, version 1",
        shown: "+-|'Bob|'Bob,x|;2|'Ann|-|;read p.csv 20",
    },
    Step {
        grows: false,
        file: "q.csv",
        bytes: b"id,name\n",
        said: "completed 0, version 2",
        shown: "+-|'Bob|'Bob,x|;2|'Ann|-|;+read p.csv 20 q.csv 8",
    },
    Step {
        grows: true,
        file: "p.csv",
        bytes: b"Eve,1,more\n",
        said: "completed 1, version 3",
        shown: "+-|'Bob|'Bob,x|;2|'Ann|-|;++1|'Eve|'Eve,1,more|;read p.csv 31 q.csv 8",
    },
];

#[test]
fn lines_stand_under_the_head_of_their_file(rt: HostRuntime) -> Result<(), Fail> {
    let alloc = rt.alloc();
    let mut disk = SureDisk::new(alloc, &[], &[], ROOM)?;
    let mut landing = SureLanding::new(alloc);
    let table = all_of_people(alloc)?;
    for next in &CSV_STEPS {
        take_step(&rt, alloc, &mut disk, &mut landing, &table, next)?;
    }
    Ok(())
}

/// The rescued line and `id`, and `id` once more as `key`; `name` is left out.
fn some_of_people(alloc: Global) -> Result<AppendTable, AllocError>
    ensures { IfOk result (λ table. is_sound table ≡ true) }
{
    let mut outputs = Outputs::new(alloc);
    outputs.push(output(alloc, 2, "_rescued_data", Kind::Str)?)?;
    outputs.push(output(alloc, 0, "id", Kind::Int)?)?;
    outputs.push(output(alloc, 0, "key", Kind::Int)?)?;
    table(alloc, "t", "x", people(alloc)?, outputs)
}

const OUTPUT_STEPS: [Step; 3] = [
    Step {
        grows: false,
        file: "p.csv",
        bytes: b"name,id\nAnn,2\nBob,x\n",
        said: "completed 2, version 1",
        shown: "+-|2|2|;'Bob,x|-|-|;read p.csv 20",
    },
    Step {
        grows: true,
        file: "p.csv",
        bytes: b"Eve,1,more\n",
        said: "completed 1, version 2",
        shown: "+-|2|2|;'Bob,x|-|-|;+'Eve,1,more|1|1|;read p.csv 31",
    },
    Step {
        grows: true,
        file: "p.csv",
        bytes: b"Dan,7\nCid,3\n",
        said: "completed 2, version 3",
        shown: "+-|2|2|;'Bob,x|-|-|;+'Eve,1,more|1|1|;+-|3|3|;-|7|7|;read p.csv 43",
    },
];

#[test]
fn outputs_take_their_columns(rt: HostRuntime) -> Result<(), Fail> {
    let alloc = rt.alloc();
    let mut disk = SureDisk::new(alloc, &[], &[], ROOM)?;
    let mut landing = SureLanding::new(alloc);
    let table = some_of_people(alloc)?;
    for next in &OUTPUT_STEPS {
        take_step(&rt, alloc, &mut disk, &mut landing, &table, next)?;
    }
    Ok(())
}

/// What another table's update says of a store that has `t`, and leaves of it.
fn said_of(
    alloc: Global,
    disk: &mut SureDisk,
    landing: &mut SureLanding,
    name: &str,
    text: &str,
    kind: Kind,
) -> Result<String, AllocError> {
    let other = one_column(alloc, name, text, kind)?;
    let end = update(alloc, disk, landing, Some(&other));
    said(alloc, &end)
}

const OTHERS: [(&str, &str, Kind, &str); 5] = [
    ("u", "x", Kind::Big, "removed t"),
    ("t", "y", Kind::Big, "changed t: x, y"),
    ("T", "y", Kind::Big, "changed t: x, y"),
    ("t", "x", Kind::Int, "unfit t"),
    ("t", "x", Kind::Big, "current"),
];

#[test]
fn another_definition_is_refused(rt: HostRuntime) -> Result<(), Fail> {
    let alloc = rt.alloc();
    let mut disk = SureDisk::new(alloc, &[], &[], ROOM)?;
    let mut landing = SureLanding::new(alloc);
    assert_eq!(rt;
        said_of(alloc, &mut disk, &mut landing, "t", "x", Kind::Big)?.as_str(),
        "current"
    );
    landing.put("in", "a.json", b"{\"a\":6}")?;
    for (name, text, kind, wanted) in OTHERS {
        let found = said_of(alloc, &mut disk, &mut landing, name, text, kind)?;
        assert_eq!(rt; found.as_str(), wanted);
    }
    assert_eq!(rt; shown_on(alloc, &mut disk)?.as_str(), "read");
    Ok(())
}

/// What an update of a pipeline without a table says.
fn said_without(
    alloc: Global,
    disk: &mut SureDisk,
    landing: &mut SureLanding,
) -> Result<String, AllocError> {
    let end = update(alloc, disk, landing, None);
    said(alloc, &end)
}

#[test]
fn without_a_table_a_stored_dataset_is_removed(rt: HostRuntime) -> Result<(), Fail> {
    let alloc = rt.alloc();
    let mut disk = SureDisk::new(alloc, &[], &[], ROOM)?;
    let mut landing = SureLanding::new(alloc);
    assert_eq!(rt;
        said_without(alloc, &mut disk, &mut landing)?.as_str(),
        "current"
    );
    assert_eq!(rt; shown_on(alloc, &mut disk)?.as_str(), "");
    let _end = update(alloc, &mut disk, &mut landing, Some(&t(alloc)?));
    assert_eq!(rt;
        said_without(alloc, &mut disk, &mut landing)?.as_str(),
        "removed t"
    );
    assert_eq!(rt; shown_on(alloc, &mut disk)?.as_str(), "read");
    Ok(())
}

/// A file of 19 bytes with one line.
const LINE: &[u8] = b"{\"a\":           7}\n";

/// What the first update says over a store's file in this room.
fn first_said(rt: &impl Abort, alloc: Global, left: &[u8], room: u64) -> Result<String, Fail> {
    assert!(rt; room <= ROOM && left.len() as u64 <= room);
    let mut disk = SureDisk::new(alloc, left, &[], room)?;
    let mut landing = SureLanding::new(alloc);
    landing.put("in", "f", LINE)?;
    let end = update(alloc, &mut disk, &mut landing, Some(&t(alloc)?));
    Ok(said(alloc, &end)?)
}

/// A file, its room, and what is said. The table's definition has 100 bytes and the batch 95, each
/// with 9 before it; a log begins with 17, and ends with a gate.
const FIRST: [(&[u8], u64, &str); 8] = [
    (b"this is no store of datasets", 64, "foreign 28"),
    (b"\xa5LDPSTORE\0\0\0\0\0\0\0\x01\xa5", 64, "damaged at 17"),
    (b"", 17, "full: 18 of 17"),
    (b"", 18, "full: 127 of 18"),
    (b"", 126, "full: 127 of 126"),
    (b"", 127, "full: 231 of 127"),
    (b"", 230, "full: 231 of 230"),
    (b"", 231, "completed 1, version 1"),
];

#[test]
fn a_store_without_room_is_full(rt: HostRuntime) -> Result<(), Fail> {
    let alloc = rt.alloc();
    for (left, room, wanted) in FIRST {
        assert_eq!(rt; first_said(&rt, alloc, left, room)?.as_str(), wanted);
    }
    Ok(())
}

/// A disk for a whole update, one call of which fails.
fn failing_disk(alloc: Global, call: u64) -> Result<MemDisk, AllocError>
    ensures { IfOk result (λ disk. IsHonest (mem_state disk)) }
{
    let failing = vec![in alloc; call]?;
    MemDisk::new(alloc, &[], &[], ROOM, ROOM, failing)
}

/// A landing with one file, one call of which fails.
fn failing_landing(alloc: Global, call: u64) -> Result<MemLanding, AllocError> {
    let failing = vec![in alloc; call]?;
    let mut landing = MemLanding::new(alloc, failing);
    landing.put("in", "f", LINE)?;
    Ok(landing)
}

/// What the first update says where one call fails of the disk or of the landing, and what the next
/// one says.
fn said_failing(
    alloc: Global,
    disk_call: u64,
    landing_call: u64,
) -> Result<(String, String), Fail> {
    let mut disk = failing_disk(alloc, disk_call)?;
    let mut landing = failing_landing(alloc, landing_call)?;
    let table = t(alloc)?;
    let first = update(alloc, &mut disk, &mut landing, Some(&table));
    let second = update(alloc, &mut disk, &mut landing, Some(&table));
    Ok((said(alloc, &first)?, said(alloc, &second)?))
}

/// What is said where this call of the disk fails: eleven make a new store, and each commit has four.
fn said_of_disk(call: u64) -> (&'static str, &'static str) {
    match call {
        1..=11 => ("load failed", "completed 1, version 1"),
        12..=18 => ("commit failed", "completed 1, version 1"),
        // The gate was written, and its sync failed.
        19 => ("commit failed", "current"),
        _ => ("completed 1, version 1", "load failed"),
    }
}

#[test]
fn each_call_of_a_disk_may_fail(rt: HostRuntime) -> Result<(), Fail> {
    let alloc = rt.alloc();
    for call in 1..=20 {
        let (first, second) = said_failing(alloc, call, 0)?;
        let wanted = said_of_disk(call);
        assert_eq!(rt; first.as_str(), wanted.0);
        assert_eq!(rt; second.as_str(), wanted.1);
    }
    Ok(())
}

#[test]
fn each_call_of_a_landing_may_fail(rt: HostRuntime) -> Result<(), Fail> {
    let alloc = rt.alloc();
    for call in 1..=2 {
        let (first, second) = said_failing(alloc, 0, call)?;
        assert_eq!(rt; first.as_str(), "landing failed");
        assert_eq!(rt; second.as_str(), "completed 1, version 1");
    }
    Ok(())
}

/// What a crash after so many calls of the first update leaves, where what was not synced is new or
/// filled with open gates, or else.
fn left_after(moment: u64, is_new: bool) -> &'static str {
    match (moment, is_new) {
        (0..=13, _) => "",
        (14, false) => "",
        (18, true) => "+7L|;read f 19",
        (14..=18, _) => "read",
        _ => "+7L|;read f 19",
    }
}

/// Loads an image of the first update, and updates from it.
fn goes_on_from(
    rt: &impl Abort,
    alloc: Global,
    image: &[u8],
    landing: &mut SureLanding,
    wanted: &str,
) -> Result<(), Fail> {
    assert!(rt; image.len() as u64 <= ROOM);
    let mut disk = SureDisk::new(alloc, image, &[], ROOM)?;
    assert_eq!(rt; shown_on(alloc, &mut disk)?.as_str(), wanted);
    let _end = update(alloc, &mut disk, landing, Some(&t(alloc)?));
    assert_eq!(rt; shown_on(alloc, &mut disk)?.as_str(), "+7L|;read f 19");
    Ok(())
}

/// The same of the image of a moment, with what was not synced as picked.
fn goes_on_after(
    rt: &impl Abort,
    alloc: Global,
    disk: &MemDisk,
    landing: &mut SureLanding,
    moment: u64,
    pick: Pick,
) -> Result<(), Fail> {
    assert!(rt; moment <= disk.calls());
    let image = disk.image(alloc, moment, Side::Left, pick)?;
    let is_new = matches!(pick, Pick::New | Pick::Filled(0xA5));
    goes_on_from(
        rt,
        alloc,
        image.as_slice(),
        landing,
        left_after(moment, is_new),
    )
}

#[test]
fn a_crash_leaves_a_front_of_the_commits(rt: HostRuntime) -> Result<(), Fail> {
    let alloc = rt.alloc();
    let mut disk = failing_disk(alloc, 0)?;
    let mut landing = SureLanding::new(alloc);
    landing.put("in", "f", LINE)?;
    let _end = update(alloc, &mut disk, &mut landing, Some(&t(alloc)?));
    assert!(rt; disk.calls() == 19);
    for moment in 0..=19 {
        for pick in [Pick::Old, Pick::New, Pick::Filled(0), Pick::Filled(0xA5)] {
            goes_on_after(&rt, alloc, &disk, &mut landing, moment, pick)?;
        }
    }
    Ok(())
}
