// What the devices of a test hold after a run.
use crate::pipeline::Fault;
use crate::{Status, run_in_memory};
use disk_model::{Disk, Side, SureDisk, SureSink, SureSource};
use landing_core::SureLanding;
use std::alloc::{AllocError, Global};
use std::test::Fail;
use store_core::Store;
use value_core::{Cursor, Name, Rows, Value};

/// The bytes of the store's file.
pub(crate) fn left<D: Disk>(alloc: Global, disk: &mut D) -> Result<Vec<u8>, Fault> {
    let len = disk.len(Side::Left)?;
    let mut bytes = vec![in alloc; 0u8; len as usize]?;
    disk.read_at(Side::Left, 0, bytes.as_mut_slice())?;
    Ok(bytes)
}

/// A value: `-` for NULL.
fn put_value(alloc: Global, text: &mut String, value: &Value) -> Result<(), AllocError> {
    match value {
        Value::Null => text.push_str("-|"),
        Value::Bool(truth) => text.push_str(format!(in alloc; "{truth}|")?.as_str()),
        Value::Int(number) => text.push_str(format!(in alloc; "{number}|")?.as_str()),
        Value::Big(number) => text.push_str(format!(in alloc; "{number}|")?.as_str()),
        Value::Str(given) => text.push_str(format!(in alloc; "{}|", given.as_str())?.as_str()),
    }
}

/// Rows: each value with `|` behind it, and each row with `;` behind it.
fn put_rows(alloc: Global, text: &mut String, rows: &Rows) -> Result<(), AllocError> {
    for row in rows.as_slice() {
        for value in row.as_slice() {
            put_value(alloc, text, value)?;
        }
        text.push_str(";")?;
    }
    Ok(())
}

/// How far a flow has read each file.
fn put_places(alloc: Global, text: &mut String, cursor: &Cursor) -> Result<(), AllocError> {
    if let Cursor::Files(places) = cursor {
        for place in places.as_slice() {
            let shown = format!(in alloc; " {} {}", place.file.as_str(), place.place)?;
            text.push_str(shown.as_str())?;
        }
    }
    Ok(())
}

/// What a store holds of a table: the rows that each version adds, and how far its flow has read.
fn shown_of(alloc: Global, store: &Store, name: &str) -> Result<String, AllocError> {
    let name = Name::new(alloc, name)?;
    let mut text = String::new(alloc);
    if let Some(versions) = store.table(&name) {
        for change in versions.changes() {
            text.push_str("+")?;
            put_rows(alloc, &mut text, &change.added)?;
        }
    }
    if let Some(cursor) = store.cursor(&name, &name) {
        text.push_str("read")?;
        put_places(alloc, &mut text, cursor)?;
    }
    Ok(text)
}

/// The same of the store of a disk.
pub(crate) fn shown<D: Disk>(alloc: Global, disk: &mut D, name: &str) -> Result<String, Fail> {
    let store = Store::load(alloc, disk).ok().ok_or("the store is loaded")?;
    Ok(shown_of(alloc, &store, name)?)
}

/// Words of a command line.
pub(crate) fn words(alloc: Global, list: &[&str]) -> Result<Vec<String>, AllocError> {
    let mut words = Vec::new(alloc);
    for word in list {
        words.push(String::from_str(alloc, word)?)?;
    }
    Ok(words)
}

/// Runs one command of this name over a text, and gives its status and what it printed.
pub(crate) fn ran_over(
    alloc: Global,
    command: &str,
    text: &str,
    disk: &mut SureDisk,
    landing: &mut SureLanding,
) -> Result<(Status, SureSink), AllocError> {
    let words = words(alloc, &["pipeline.sql", "store", "landing", command])?;
    let mut text = SureSource::new(alloc, text.as_bytes())?;
    let mut out = SureSink::new(alloc);
    let status = run_in_memory(alloc, words.as_slice(), &mut text, disk, landing, &mut out);
    Ok((status, out))
}
