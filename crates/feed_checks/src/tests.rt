use crate::{FeedEnd, FeedParts, check_feed, feeds_are_sound, targets_have_kinds, track_fault};
use sql_tree::{CdcTree, SqlExpr, SqlOrigin, SqlSequence, SqlSome};
use sqlite_items::Boxed;
use statement_checks::CheckFault;
use std::alloc::{AllocError, Global};
use std::test::Fail;
use value_core::{Column, Kind, ListOf, Name, Names, Places, Schema};

// ---- feeds

/// The names of COLUMNS or TRACK HISTORY ON.
#[derive(Clone, Copy)]
enum Listed<'a> {
    All,
    Only(&'a [&'a str]),
    Except(&'a [&'a str]),
}

/// The clauses of a feed. A condition is the name of a column, and a sequence of one name stands
/// without STRUCT.
#[derive(Clone, Copy)]
struct Clauses<'a> {
    keys: &'a [&'a str],
    delete: Option<&'a str>,
    truncate: Option<&'a str>,
    sequence: &'a [&'a str],
    columns: Listed<'a>,
    scd: u8,
    track: Listed<'a>,
}

fn names(alloc: Global, texts: &[&str]) -> Result<Names, AllocError> {
    let mut names = ListOf::new(alloc);
    for text in texts {
        let name = Name::new(alloc, *text)?;
        names.push(name)?;
    }
    Ok(names)
}

fn condition(alloc: Global, name: Option<&str>) -> Result<Option<Boxed<SqlExpr>>, AllocError> {
    let Some(name) = name else {
        return Ok(None);
    };
    let name = Name::new(alloc, name)?;
    let tree = Boxed::new(alloc, SqlExpr::Name(name))?;
    Ok(Some(tree))
}

fn some(alloc: Global, listed: Listed<'_>) -> Result<Option<SqlSome>, AllocError> {
    match listed {
        Listed::All => Ok(None),
        Listed::Only(texts) => Ok(Some(SqlSome::Only(names(alloc, texts)?))),
        Listed::Except(texts) => Ok(Some(SqlSome::Except(names(alloc, texts)?))),
    }
}

fn sequence(alloc: Global, texts: &[&str]) -> Result<SqlSequence, AllocError> {
    match texts {
        [text] => Ok(SqlSequence::One(Name::new(alloc, *text)?)),
        _ => Ok(SqlSequence::Struct(names(alloc, texts)?)),
    }
}

#[derive(Drop)]
struct FeedLists {
    keys: Names,
    sequence: SqlSequence,
    columns: Option<SqlSome>,
    track: Option<SqlSome>,
}

fn lists(alloc: Global, clauses: &Clauses<'_>) -> Result<FeedLists, AllocError> {
    let keys = names(alloc, clauses.keys)?;
    let sequence = sequence(alloc, clauses.sequence)?;
    let columns = some(alloc, clauses.columns)?;
    let track = some(alloc, clauses.track)?;
    Ok(FeedLists {
        keys,
        sequence,
        columns,
        track,
    })
}

fn unboxed(tree: Option<Boxed<SqlExpr>>) -> Option<SqlExpr> {
    match tree {
        Some(tree) => Some(tree.into_inner()),
        None => None,
    }
}

fn tree(
    target: Name,
    source: Name,
    lists: FeedLists,
    delete: Option<Boxed<SqlExpr>>,
    truncate: Option<Boxed<SqlExpr>>,
    scd: u8,
) -> CdcTree {
    CdcTree {
        target,
        origin: SqlOrigin::Table {
            stream: true,
            name: source,
        },
        keys: lists.keys,
        ignore_null: true,
        delete_when: unboxed(delete),
        truncate_when: unboxed(truncate),
        sequence: lists.sequence,
        columns: lists.columns,
        scd: Some(scd),
        track: lists.track,
    }
}

fn feed(alloc: Global, clauses: &Clauses<'_>) -> Result<Boxed<CdcTree>, AllocError> {
    let target = Name::new(alloc, "users")?;
    let source = Name::new(alloc, "events")?;
    let lists = lists(alloc, clauses)?;
    let delete = condition(alloc, clauses.delete)?;
    let truncate = condition(alloc, clauses.truncate)?;
    Boxed::new(
        alloc,
        tree(target, source, lists, delete, truncate, clauses.scd),
    )
}

fn add(alloc: Global, columns: &mut Schema, name: &str, kind: Kind) -> Result<(), AllocError> {
    let name = Name::new(alloc, name)?;
    columns.push(Column { name, kind })?;
    Ok(())
}

/// `id INT, Name STRING, op BOOLEAN, seq BIGINT, __Start_At STRING`
fn source(alloc: Global) -> Result<Schema, AllocError> {
    let mut columns = ListOf::new(alloc);
    add(alloc, &mut columns, "id", Kind::Int)?;
    add(alloc, &mut columns, "Name", Kind::Str)?;
    add(alloc, &mut columns, "op", Kind::Bool)?;
    add(alloc, &mut columns, "seq", Kind::Big)?;
    add(alloc, &mut columns, "__Start_At", Kind::Str)?;
    Ok(columns)
}

// ---- answers

/// A fault by a word, with its name if it has one.
fn told(fault: &CheckFault) -> (&str, &str) {
    match fault {
        CheckFault::UnknownName { name } => ("unknown", name.as_str()),
        CheckFault::TypeMismatch => ("mismatch", ""),
        CheckFault::KeyNotOutput { name } => ("key", name.as_str()),
        CheckFault::TruncateScd2 => ("truncate", ""),
        CheckFault::StructSequence => ("struct", ""),
        CheckFault::Duplicate { name } => ("duplicate", name.as_str()),
        CheckFault::BadOption { word } => ("option", word.as_str()),
        _ => ("another", ""),
    }
}

fn is_told(fault: &CheckFault, word: &str, name: &str) -> bool {
    let (given, spelled) = told(fault);
    given == word && spelled == name
}

/// Whether the feed over the source breaks this check first.
fn breaks(alloc: Global, clauses: &Clauses<'_>, word: &str, name: &str) -> bool {
    match (feed(alloc, clauses), source(alloc)) {
        (Ok(feed), Ok(source)) => match check_feed(alloc, feed.get(), &source) {
            Err(FeedEnd::Fault(fault)) => is_told(&fault, word, name),
            _ => false,
        },
        _ => false,
    }
}

fn is_tracked(alloc: Global, clauses: &Clauses<'_>) -> bool {
    let Ok(feed) = feed(alloc, clauses) else {
        return false;
    };
    match track_fault(alloc, feed.get()) {
        Ok(Some(fault)) => is_told(&fault, "option", "TRACK"),
        _ => false,
    }
}

fn are(places: &Places, wanted: &[u32]) -> bool {
    places.as_slice() == wanted
}

/// The places that a feed gives: keys, sequence, outputs, tracked.
#[derive(Clone, Copy)]
struct Wanted<'a> {
    keys: &'a [u32],
    sequence: &'a [u32],
    outputs: &'a [u32],
    tracked: &'a [u32],
}

fn gives_places(parts: &FeedParts, wanted: &Wanted<'_>) -> bool {
    are(&parts.keys, wanted.keys)
        && are(&parts.sequence, wanted.sequence)
        && are(&parts.outputs, wanted.outputs)
        && are(&parts.tracked, wanted.tracked)
}

fn are_named(columns: &[Column], wanted: &[&str]) -> bool {
    for at in 0..columns.len() {
        match wanted.get(at) {
            Some(name) => {
                if columns[at].name.as_str() != *name {
                    return false;
                }
            }
            None => return false,
        }
    }
    columns.len() == wanted.len()
}

fn gives(alloc: Global, clauses: &Clauses<'_>, wanted: &Wanted<'_>, columns: &[&str]) -> bool {
    match (feed(alloc, clauses), source(alloc)) {
        (Ok(feed), Ok(source)) => match check_feed(alloc, feed.get(), &source) {
            Ok(parts) => {
                gives_places(&parts, wanted) && are_named(parts.columns.as_slice(), columns)
            }
            Err(_) => false,
        },
        _ => false,
    }
}

// ---- tests

/// `KEYS (id) SEQUENCE BY seq COLUMNS (name, ID)`
fn plain() -> Clauses<'static> {
    Clauses {
        keys: &["id"],
        delete: None,
        truncate: None,
        sequence: &["seq"],
        columns: Listed::Only(&["name", "ID"]),
        scd: 2,
        track: Listed::All,
    }
}

#[test]
fn feeds_give_columns(rt: HostRuntime) -> Result<(), Fail> {
    let alloc = rt.alloc();
    feeds_are_sound();
    targets_have_kinds();
    let mut clauses = plain();
    let mut wanted = Wanted {
        keys: &[1],
        sequence: &[3],
        outputs: &[1, 0],
        tracked: &[0, 1],
    };
    let history = ["Name", "id", "__START_AT", "__END_AT"];
    assert!(rt; gives(alloc, &clauses, &wanted, &history));
    clauses.track = Listed::Except(&["NAME"]);
    wanted.tracked = &[1];
    assert!(rt; gives(alloc, &clauses, &wanted, &history));
    Ok(())
}

#[test]
fn type_1_takes_truncates_and_structs(rt: HostRuntime) -> Result<(), Fail> {
    let alloc = rt.alloc();
    let clauses = Clauses {
        delete: Some("op"),
        truncate: Some("OP"),
        sequence: &["seq", "id"],
        columns: Listed::Except(&["op", "seq"]),
        scd: 1,
        ..plain()
    };
    let wanted = Wanted {
        keys: &[0],
        sequence: &[3, 0],
        outputs: &[0, 1, 4],
        tracked: &[0, 1, 2],
    };
    assert!(rt; gives(alloc, &clauses, &wanted, &["id", "Name", "__Start_At"]));
    Ok(())
}

#[test]
fn track_history_wants_type_2(rt: HostRuntime) -> Result<(), Fail> {
    let alloc = rt.alloc();
    let mut clauses = plain();
    clauses.track = Listed::Only(&["id"]);
    assert!(rt; !is_tracked(alloc, &clauses));
    clauses.scd = 1;
    assert!(rt; is_tracked(alloc, &clauses));
    Ok(())
}

// ---- feeds that break a check before others

/// A name in each clause that no column has.
fn strays() -> Clauses<'static> {
    Clauses {
        keys: &["id", "k"],
        delete: Some("d"),
        truncate: Some("t"),
        sequence: &["s"],
        columns: Listed::Except(&["c"]),
        scd: 2,
        track: Listed::Only(&["seq"]),
    }
}

fn stray_delete() -> Clauses<'static> {
    Clauses {
        keys: &["id"],
        ..strays()
    }
}

fn stray_truncate() -> Clauses<'static> {
    Clauses {
        delete: None,
        ..stray_delete()
    }
}

fn stray_sequence() -> Clauses<'static> {
    Clauses {
        truncate: None,
        ..stray_truncate()
    }
}

// Each name is told before those behind it in the text.
#[test]
fn the_first_unknown_name_is_told(rt: HostRuntime) -> Result<(), Fail> {
    let alloc = rt.alloc();
    assert!(rt; breaks(alloc, &strays(), "unknown", "k"));
    assert!(rt; breaks(alloc, &stray_delete(), "unknown", "d"));
    assert!(rt; breaks(alloc, &stray_truncate(), "unknown", "t"));
    assert!(rt; breaks(alloc, &stray_sequence(), "unknown", "s"));
    Ok(())
}

/// A condition that is a STRING, and a key that is no output.
fn mismatch() -> Clauses<'static> {
    Clauses {
        keys: &["OP"],
        delete: Some("name"),
        columns: Listed::Only(&["id"]),
        ..plain()
    }
}

fn stray_column() -> Clauses<'static> {
    Clauses {
        columns: Listed::Only(&["id", "c"]),
        track: Listed::Only(&["seq"]),
        ..mismatch()
    }
}

fn stray_history() -> Clauses<'static> {
    Clauses {
        track: Listed::Only(&["seq"]),
        ..mismatch()
    }
}

// TRACK HISTORY ON names outputs.
#[test]
fn names_are_told_before_kinds(rt: HostRuntime) -> Result<(), Fail> {
    let alloc = rt.alloc();
    assert!(rt; breaks(alloc, &stray_column(), "unknown", "c"));
    assert!(rt; breaks(alloc, &stray_history(), "unknown", "seq"));
    assert!(rt; breaks(alloc, &mismatch(), "mismatch", ""));
    Ok(())
}

/// A key that is no output, a truncate condition, STRUCT, and all columns where COLUMNS is left out.
fn stray_key() -> Clauses<'static> {
    Clauses {
        keys: &["OP"],
        truncate: Some("op"),
        sequence: &["seq", "id"],
        ..plain()
    }
}

fn with_truncate() -> Clauses<'static> {
    Clauses {
        columns: Listed::All,
        ..stray_key()
    }
}

fn with_struct() -> Clauses<'static> {
    Clauses {
        truncate: None,
        ..with_truncate()
    }
}

fn with_start() -> Clauses<'static> {
    Clauses {
        columns: Listed::All,
        ..plain()
    }
}

#[test]
fn type_2_is_told_in_order(rt: HostRuntime) -> Result<(), Fail> {
    let alloc = rt.alloc();
    assert!(rt; breaks(alloc, &stray_key(), "key", "OP"));
    assert!(rt; breaks(alloc, &with_truncate(), "truncate", ""));
    assert!(rt; breaks(alloc, &with_struct(), "struct", ""));
    assert!(rt; breaks(alloc, &with_start(), "duplicate", "__Start_At"));
    Ok(())
}

fn with_repeat() -> Clauses<'static> {
    Clauses {
        columns: Listed::Only(&["id", "seq", "ID"]),
        ..plain()
    }
}

fn without_keys() -> Clauses<'static> {
    Clauses {
        keys: &[],
        ..plain()
    }
}

// No text has such a feed.
#[test]
fn parts_are_wanted(rt: HostRuntime) -> Result<(), Fail> {
    let alloc = rt.alloc();
    assert!(rt; breaks(alloc, &with_repeat(), "duplicate", "id"));
    assert!(rt; breaks(alloc, &without_keys(), "mismatch", ""));
    Ok(())
}
