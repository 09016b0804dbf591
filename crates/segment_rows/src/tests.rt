use crate::{
    Field, put_event, put_number, put_row, put_text, read_rows, read_whole, take_event,
    take_number, take_row, take_text, write_rows, write_whole,
};
use std::alloc::Global;
use std::test::Fail;
use value_core::{
    Change, Cursor, Event, EventKind, FilePlace, ListOf, Name, Row, Rows, Text, Value,
};

/// The row (INT 7, NULL, STRING `é`).
const ROW: [u8; 25] = [
    0, 0, 0, 0, 0, 0, 0, 3, 3, 0, 0, 0, 7, 0, 5, 0, 0, 0, 0, 0, 0, 0, 2, 0xc3, 0xa9,
];

fn seven(alloc: Global) -> Result<Row, Fail> {
    let mut row = ListOf::new(alloc);
    row.push(Value::Int(7))?;
    row.push(Value::Null)?;
    row.push(Value::Str(Text::new(alloc, "é")?))?;
    Ok(row)
}

#[test]
fn a_row_has_its_bytes(rt: HostRuntime) -> Result<(), Fail> {
    let alloc = rt.alloc();
    let mut out = Vec::new(alloc);
    put_row(&mut out, &seven(alloc)?)?;
    assert!(rt; out.as_slice() == ROW.as_slice());
    let (row, end) = take_row(alloc, &out, 0)?.ok_or("a row stands there")?;
    assert!(rt; row == seven(alloc)?);
    assert!(rt; end == 25);
    let mut rows: Rows = ListOf::new(alloc);
    rows.push(row)?;
    let bytes = write_rows(alloc, &rows)?;
    assert!(rt; bytes.len() == 33);
    assert!(rt; &bytes[8..] == ROW.as_slice());
    let again = read_rows(alloc, &bytes)?.ok_or("they are rows")?;
    assert!(rt; again.as_slice()[0] == rows.as_slice()[0]);
    Ok(())
}

#[test]
fn fields_are_read_where_they_stand(rt: HostRuntime) -> Result<(), Fail> {
    let alloc = rt.alloc();
    let mut out = Vec::new(alloc);
    put_number(&mut out, 258)?;
    put_text(&mut out, &Text::new(alloc, "t")?)?;
    let event = Event {
        kind: EventKind::Delete,
        sequence: ListOf::new(alloc),
        key: seven(alloc)?,
        columns: ListOf::new(alloc),
    };
    put_event(&mut out, &event)?;
    assert!(rt;
        out.as_slice()
            .starts_with(&[0, 0, 0, 0, 0, 0, 1, 2, 0, 0, 0, 0, 0, 0, 0, 1, 116, 2])
    );
    assert!(rt; take_number(&out, 0) == Some((258, 8)));
    let (text, end) = take_text(alloc, &out, 8)?.ok_or("a text stands there")?;
    assert!(rt; text.as_str() == "t");
    assert!(rt; end == 17);
    let (event, end) = take_event(alloc, &out, 17)?.ok_or("an event stands there")?;
    assert!(rt; event.key == seven(alloc)?);
    assert!(rt; end == out.len());
    Ok(())
}

/// One row of one value, or what should be one.
fn one_value(alloc: Global, value: &[u8]) -> Result<Vec<u8>, Fail> {
    let mut out = Vec::new(alloc);
    put_number(&mut out, 1)?;
    put_number(&mut out, 1)?;
    out.extend_from_slice(value)?;
    Ok(out)
}

#[test]
fn what_is_malformed_is_no_spelling(rt: HostRuntime) -> Result<(), Fail> {
    let alloc = rt.alloc();
    let wrong: [&[u8]; 8] = [
        &[],
        &[6],
        &[3, 0, 0, 0],
        &[0, 0],
        &[5, 0, 0, 0, 0, 0, 0, 0, 1],
        &[5, 0, 0, 0, 0, 0, 0, 0, 1, 0xc3],
        &[5, 0x80, 0, 0, 0, 0, 0, 0, 0, 97],
        &[4, 0, 0, 0, 0, 0, 0, 0],
    ];
    for value in &wrong {
        assert!(rt; read_rows(alloc, &one_value(alloc, value)?)?.is_none());
    }
    assert!(rt; read_rows(alloc, &one_value(alloc, &[2])?)?.is_some());
    assert!(rt; read_rows(alloc, &[0x80, 0, 0, 0, 0, 0, 0, 0])?.is_none());
    assert!(rt; read_rows(alloc, &ROW[..7])?.is_none());
    assert!(rt; take_number(&ROW[..7], 0) == None);
    Ok(())
}

#[test]
fn what_commits_carry_is_read_again(rt: HostRuntime) -> Result<(), Fail> {
    let alloc = rt.alloc();
    let mut places = ListOf::new(alloc);
    places.push(FilePlace {
        file: Text::new(alloc, "a")?,
        place: 19,
    })?;
    let bytes = write_whole(alloc, &Cursor::Files(places))?;
    assert!(rt;
        bytes.as_slice()
            == [
                0, 0, 0, 0, 0, 0, 0, 0, 1, 0, 0, 0, 0, 0, 0, 0, 1, 97, 0, 0, 0, 0, 0, 0, 0, 19
            ]
            .as_slice()
    );
    assert!(rt; matches!(read_whole(alloc, &bytes)?, Some(Cursor::Files(_))));
    assert!(rt; matches!(read_whole(alloc, &[2])?, Some(Cursor::Never)));
    Ok(())
}
