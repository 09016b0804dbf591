use crate::{
    Fresh, Landing, LineEnd, Listing, MemLanding, SureLanding, fresh_lines, is_same_places,
};
use std::alloc::Global;
use std::process::Abort;
use std::test::Fail;
use value_core::{Format, ListOf};

/// A file that is read, grows, and is read again.
#[derive(Drop)]
struct Case<'a> {
    first: &'a [u8],
    more: &'a [u8],
    format: Format,
    header: bool,
    head: &'a [u8],
    /// The rows of both reads, each ended by `|`.
    rows: &'a [u8],
    place: u64,
}

fn push_rows(rows: &mut Vec<u8>, fresh: &Fresh) -> Result<(), Fail> {
    for row in fresh.lines.as_slice() {
        rows.extend_from_slice(row.line.as_slice())?;
        rows.push(b'|')?;
    }
    Ok(())
}

fn check_case(rt: &impl Abort, alloc: Global, case: &Case) -> Result<(), Fail> {
    let mut landing = SureLanding::new(alloc);
    let mut rows = Vec::new(alloc);
    landing.put("in", "f", case.first)?;
    let listing = landing.list(alloc, "in").ok().ok_or("no listing")?;
    let none = ListOf::new(alloc);
    let first = fresh_lines(
        alloc,
        &mut landing,
        "in",
        &listing,
        &none,
        case.format,
        case.header,
    );
    let first = first.ok().ok_or("not read")?;
    push_rows(&mut rows, &first)?;
    landing.grow("in", "f", case.more)?;
    let listing = landing.list(alloc, "in").ok().ok_or("no listing")?;
    let again = fresh_lines(
        alloc,
        &mut landing,
        "in",
        &listing,
        &first.cursor,
        case.format,
        case.header,
    );
    let again = again.ok().ok_or("not read")?;
    push_rows(&mut rows, &again)?;
    assert_eq!(rt; rows.as_slice(), case.rows);
    for head in again.heads.as_slice() {
        assert_eq!(rt; head.as_slice(), case.head);
    }
    for known in again.cursor.as_slice() {
        assert_eq!(rt; known.place, case.place);
    }
    Ok(())
}

fn written<'a>(
    format: Format,
    header: bool,
    parts: (&'a [u8], &'a [u8]),
    head: &'a [u8],
    rows: &'a [u8],
    place: u64,
) -> Case<'a> {
    Case {
        first: parts.0,
        more: parts.1,
        format,
        header,
        head,
        rows,
        place,
    }
}

#[test]
fn odd_files_are_cut_into_lines(rt: HostRuntime) -> Result<(), Fail> {
    let alloc = rt.alloc();
    let json = Format::Json;
    let csv = Format::Csv;
    let cases = [
        written(
            json,
            false,
            (b"\xef\xbb\xbf{}\r\n \t\n{\"a\":1}\n", b""),
            b"",
            b"{}|{\"a\":1}|",
            18,
        ),
        written(json, false, (b"{}\n[1", b",2]\nx"), b"", b"{}|[1,2]|", 9),
        written(
            json,
            true,
            (b"a\r\r\n\r\n", b"\xef\xbb\xbf\n"),
            b"",
            b"a\r|\xef\xbb\xbf|",
            10,
        ),
        written(
            csv,
            true,
            (b"\xef\xbb\xbf\r\n\na,b\r\n1,2\n", b"3,4\n"),
            b"a,b",
            b"1,2|3,4|",
            19,
        ),
        written(csv, true, (b"\n", b"\na\n \n"), b"a", b" |", 6),
        written(csv, false, (b"a\n", b"a\n"), b"", b"a|a|", 4),
    ];
    for case in &cases {
        check_case(&rt, alloc, case)?;
    }
    Ok(())
}

#[test]
fn files_shrink_fail_and_go(rt: HostRuntime) -> Result<(), Fail> {
    let alloc = rt.alloc();
    let mut landing = MemLanding::new(alloc, vec![in alloc; 4]?);
    landing.put("in", "f", b"ab\n")?;
    landing.grow("in", "f", b"c\n")?;
    let listing = landing.list(alloc, "in").ok().ok_or("no listing")?;
    let none = ListOf::new(alloc);
    let fresh = fresh_lines(
        alloc,
        &mut landing,
        "in",
        &listing,
        &none,
        Format::Json,
        false,
    );
    let fresh = fresh.ok().ok_or("not read")?;
    assert!(rt; !is_same_places(fresh.cursor.as_slice(), none.as_slice()));
    landing.put("in", "f", b"x\n")?;
    let listing = landing.list(alloc, "in").ok().ok_or("no listing")?;
    let shrunk = fresh_lines(
        alloc,
        &mut landing,
        "in",
        &listing,
        &fresh.cursor,
        Format::Json,
        false,
    );
    assert!(rt;
        matches!(
            shrunk,
            Err(LineEnd::Shrunk {
                cursor: 5,
                size: 2,
                ..
            })
        )
    );
    assert_eq!(rt; landing.faults(), 0);
    let failed = fresh_lines(
        alloc,
        &mut landing,
        "in",
        &listing,
        &none,
        Format::Json,
        false,
    );
    assert!(rt; matches!(failed, Err(LineEnd::Failed)));
    assert_eq!(rt; landing.faults(), 1);
    landing.remove("in", "f");
    let listing: Listing = landing.list(alloc, "in").ok().ok_or("no listing")?;
    assert!(rt; listing.is_empty());
    Ok(())
}
