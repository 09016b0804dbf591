ghost use Rattle.std.specs.Prelude.{◌≡◌, true, IfOk};
ghost use Rattle.commit_payloads.specs.Forms.{fits_its_body};

use crate::{Definition, Payload, StoredBody, StoredFlow, StoredOrigin, read, write};
use segment_rows::put_number;
use std::alloc::Global;
use std::test::Fail;
use value_core::{Column, Kind, ListOf, Name, Text};

/// A fresh table `t` with the text `x`, one BIGINT column `a` and a flow of its own name over the folder `in`.
const DEFINE: [u8; 100] = [
    1, 1, 1, 0, 0, 0, 0, 0, 0, 0, 1, 0, 0, 0, 0, 0, 0, 0, 1, b't', 0, 0, 0, 0, 0, 0, 0, 1, b'x', 0,
    0, 0, 0, 0, 0, 0, 0, 1, 0, 0, 0, 0, 0, 0, 0, 1, b'a', 3, 0, 0, 0, 0, 0, 0, 0, 0, 0, 0, 0, 0, 0,
    0, 0, 1, 0, 0, 0, 0, 0, 0, 0, 1, b't', 0, 0, 0, 0, 0, 0, 0, 0, 2, b'i', b'n', 0, 0, 0, 0, 0, 0,
    0, 0, 0, 0, 0, 0, 0, 0, 0, 0,
];

/// What stands before the places of a batch into `t` by its flow `t`.
const HEAD: [u8; 21] = [
    1, 2, 0, 0, 0, 0, 0, 0, 0, 1, b't', 0, 0, 0, 0, 0, 0, 0, 1, b't', 0,
];

fn name(alloc: Global, text: &str) -> Result<Name, Fail> {
    Ok(Name::new(alloc, text)?)
}

fn table(alloc: Global) -> Result<Definition, Fail>
    ensures { IfOk result (λ table. fits_its_body table ≡ true) }
{
    let mut columns = ListOf::new(alloc);
    columns.push(Column {
        name: name(alloc, "a")?,
        kind: Kind::Big,
    })?;
    let mut flows = ListOf::new(alloc);
    flows.push(StoredFlow {
        name: name(alloc, "t")?,
        origin: StoredOrigin::Folder(Text::new(alloc, "in")?),
    })?;
    Ok(Definition {
        name: name(alloc, "t")?,
        text: Text::new(alloc, "x")?,
        body: StoredBody::Append,
        columns,
        expectations: ListOf::new(alloc),
        flows,
        keys: ListOf::new(alloc),
        sequence: ListOf::new(alloc),
    })
}

#[test]
fn a_definition_has_its_bytes(rt: HostRuntime) -> Result<(), Fail> {
    let alloc = rt.alloc();
    let mut list = ListOf::new(alloc);
    list.push(table(alloc)?)?;
    let bytes = write(alloc, &Payload::Define { fresh: true, list })?;
    assert!(rt; bytes.as_slice() == DEFINE.as_slice());
    assert!(rt; is_spelling(alloc, &bytes)?);
    Ok(())
}

/// The places of a batch, its removed and its added values, of one column each, and no counts and events.
fn batch(alloc: Global, places: &[u8], removed: &[u64], added: &[u64]) -> Result<Vec<u8>, Fail> {
    let mut out = Vec::new(alloc);
    out.extend_from_slice(&HEAD)?;
    out.extend_from_slice(places)?;
    put_rows(&mut out, removed)?;
    put_rows(&mut out, added)?;
    out.extend_from_slice(&[0; 16])?;
    Ok(out)
}

fn put_rows(out: &mut Vec<u8>, values: &[u64]) -> Result<(), Fail> {
    put_number(out, values.len() as u64)?;
    for value in values {
        put_number(out, 1)?;
        out.push(4)?;
        put_number(out, *value)?;
    }
    Ok(())
}

const PLACE: [u8; 25] = [
    0, 0, 0, 0, 0, 0, 0, 1, 0, 0, 0, 0, 0, 0, 0, 1, b'f', 0, 0, 0, 0, 0, 0, 0, 19,
];

const AT_ZERO: [u8; 25] = [
    0, 0, 0, 0, 0, 0, 0, 1, 0, 0, 0, 0, 0, 0, 0, 1, b'f', 0, 0, 0, 0, 0, 0, 0, 0,
];

const TWICE: [u8; 42] = [
    0, 0, 0, 0, 0, 0, 0, 2, 0, 0, 0, 0, 0, 0, 0, 1, b'f', 0, 0, 0, 0, 0, 0, 0, 19, 0, 0, 0, 0, 0,
    0, 0, 1, b'f', 0, 0, 0, 0, 0, 0, 0, 19,
];

fn is_spelling(alloc: Global, bytes: &[u8]) -> Result<bool, Fail> {
    Ok(read(alloc, bytes)?.is_some())
}

/// The byte of a payload, and 0 of none.
fn tag_of(payload: &Option<Payload>) -> u8 {
    match payload {
        Some(Payload::Define { .. }) => 1,
        Some(Payload::Take(_)) => 2,
        Some(Payload::Refresh(_)) => 3,
        Some(Payload::Reset { .. }) => 4,
        Some(Payload::Base(_)) => 5,
        None => 0,
    }
}

fn read_tag(alloc: Global, bytes: &[u8]) -> Result<u8, Fail> {
    Ok(tag_of(&read(alloc, bytes)?))
}

/// Whether what is read of bytes is written as these bytes.
fn is_written_again(alloc: Global, bytes: &[u8]) -> Result<bool, Fail> {
    match read(alloc, bytes)? {
        Some(payload) => Ok(write(alloc, &payload)?.as_slice() == bytes),
        None => Ok(false),
    }
}

#[test]
fn what_is_malformed_is_no_spelling(rt: HostRuntime) -> Result<(), Fail> {
    let alloc = rt.alloc();
    let cases: [(&[u8], &[u64], &[u64]); 4] = [
        (&AT_ZERO, &[4], &[5]),
        (&TWICE, &[4], &[5]),
        (&PLACE, &[5], &[5]),
        (&PLACE, &[], &[5, 4]),
    ];
    for (places, removed, added) in &cases {
        let bytes = batch(alloc, places, removed, added)?;
        assert!(rt; !is_spelling(alloc, &bytes)?);
    }
    Ok(())
}

/// A batch with another byte at one place.
fn changed(alloc: Global, at: usize, byte: u8) -> Result<Vec<u8>, Fail> {
    let mut bytes = batch(alloc, &PLACE, &[4], &[5, 5])?;
    if let Some(place) = bytes.get_mut(at) {
        *place = byte;
    }
    Ok(bytes)
}

#[test]
fn one_wrong_byte_is_no_spelling(rt: HostRuntime) -> Result<(), Fail> {
    let alloc = rt.alloc();
    // The format, which payload, a name that is no UTF-8, and a count of 2 ^ 63 places.
    for (at, byte) in &[(0, 2), (1, 3), (10, 0x80), (21, 0x80)] {
        let bytes = changed(alloc, *at, *byte)?;
        assert!(rt; !is_spelling(alloc, &bytes)?);
    }
    Ok(())
}

#[test]
fn a_byte_too_many_or_too_few_is_no_spelling(rt: HostRuntime) -> Result<(), Fail> {
    let alloc = rt.alloc();
    let mut bytes = batch(alloc, &PLACE, &[4], &[5, 5])?;
    assert_eq!(rt; read_tag(alloc, &bytes)?, 2);
    bytes.push(0)?;
    assert!(rt; !is_spelling(alloc, &bytes)?);
    bytes.pop();
    bytes.pop();
    assert!(rt; !is_spelling(alloc, &bytes)?);
    Ok(())
}

/// The reset of `t`.
const RESET: [u8; 19] = [1, 4, 0, 0, 0, 0, 0, 0, 0, 1, 0, 0, 0, 0, 0, 0, 0, 1, b't'];

#[test]
fn a_reset_has_its_bytes(rt: HostRuntime) -> Result<(), Fail> {
    let alloc = rt.alloc();
    let mut names = ListOf::new(alloc);
    names.push(name(alloc, "t")?)?;
    let bytes = write(alloc, &Payload::Reset { names })?;
    assert!(rt; bytes.as_slice() == RESET.as_slice());
    assert!(rt; is_spelling(alloc, &bytes)?);
    Ok(())
}

/// A refresh of the view `v` at version 7 of its source, with a row of one value removed and no counts.
const REFRESH: [u8; 61] = [
    1, 3, 0, 0, 0, 0, 0, 0, 0, 1, b'v', 1, 0, 0, 0, 0, 0, 0, 0, 7, 0, 0, 0, 0, 0, 0, 0, 1, 0, 0, 0,
    0, 0, 0, 0, 1, 4, 0, 0, 0, 0, 0, 0, 0, 5, 0, 0, 0, 0, 0, 0, 0, 0, 0, 0, 0, 0, 0, 0, 0, 0,
];

#[test]
fn a_refresh_is_read(rt: HostRuntime) -> Result<(), Fail> {
    let alloc = rt.alloc();
    assert_eq!(rt; read_tag(alloc, &REFRESH)?, 3);
    assert!(rt; is_written_again(alloc, &REFRESH)?);
    Ok(())
}

/// What is kept of `t`: a row of the value 5 at version 2, no change after it, its flow behind byte 19
/// of the file `f`, and no counts and events.
const KEPT: [u8; 91] = [
    0, 0, 0, 0, 0, 0, 0, 2, 0, 0, 0, 0, 0, 0, 0, 1, 0, 0, 0, 0, 0, 0, 0, 1, 4, 0, 0, 0, 0, 0, 0, 0,
    5, 0, 0, 0, 0, 0, 0, 0, 0, 0, 0, 0, 0, 0, 0, 0, 1, 0, 0, 0, 0, 0, 0, 0, 0, 1, 0, 0, 0, 0, 0, 0,
    0, 1, b'f', 0, 0, 0, 0, 0, 0, 0, 19, 0, 0, 0, 0, 0, 0, 0, 0, 0, 0, 0, 0, 0, 0, 0, 0,
];

/// A base of `t` with what is kept of it.
fn base(alloc: Global) -> Result<Vec<u8>, Fail> {
    let mut out = Vec::new(alloc);
    out.extend_from_slice(&[1, 5])?;
    let (_, list) = DEFINE.as_slice().split_at(3);
    out.extend_from_slice(list)?;
    out.extend_from_slice(&KEPT)?;
    Ok(out)
}

#[test]
fn a_base_has_its_bytes(rt: HostRuntime) -> Result<(), Fail> {
    let alloc = rt.alloc();
    let mut bytes = base(alloc)?;
    assert_eq!(rt; read_tag(alloc, &bytes)?, 5);
    assert!(rt; is_written_again(alloc, &bytes)?);
    bytes.push(0)?;
    assert!(rt; !is_spelling(alloc, &bytes)?);
    Ok(())
}
