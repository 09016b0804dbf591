use crate::row_of;
use std::alloc::{AllocError, Global};
use std::process::Abort;
use std::test::Fail;
use value_core::{Column, Format, Kind, Name, Row, Schema, Shape, Value};

/// A column of a name and a kind.
fn column(alloc: Global, name: &str, kind: Kind) -> Result<Column, AllocError> {
    Ok(Column {
        name: Name::new(alloc, name)?,
        kind,
    })
}

/// `id INT, name STRING` and a rescued column.
fn people(alloc: Global) -> Result<Schema, AllocError> {
    let mut columns = Schema::new(alloc);
    columns.push(column(alloc, "id", Kind::Int)?)?;
    columns.push(column(alloc, "name", Kind::Str)?)?;
    columns.push(column(alloc, "_rescued_data", Kind::Str)?)?;
    Ok(columns)
}

/// `id INT, name STRING, vip BOOLEAN` and a rescued column.
fn customers(alloc: Global) -> Result<Schema, AllocError> {
    let mut columns = Schema::new(alloc);
    columns.push(column(alloc, "id", Kind::Int)?)?;
    columns.push(column(alloc, "name", Kind::Str)?)?;
    columns.push(column(alloc, "vip", Kind::Bool)?)?;
    columns.push(column(alloc, "_rescued_data", Kind::Str)?)?;
    Ok(columns)
}

/// `n BIGINT, b BOOLEAN`.
fn numbers(alloc: Global) -> Result<Schema, AllocError> {
    let mut columns = Schema::new(alloc);
    columns.push(column(alloc, "n", Kind::Big)?)?;
    columns.push(column(alloc, "b", Kind::Bool)?)?;
    Ok(columns)
}

fn json(columns: Schema, rescued: bool) -> Shape {
    Shape {
        format: Format::Json,
        columns,
        rescued,
        header: false,
        sep: b',',
    }
}

fn csv(columns: Schema, header: bool, sep: u8) -> Shape {
    Shape {
        format: Format::Csv,
        columns,
        rescued: true,
        header,
        sep,
    }
}

/// A value as a text: `-` for NULL, `L` behind a BIGINT, and `'` before a STRING.
fn shown(alloc: Global, value: &Value) -> Result<String, AllocError> {
    match value {
        Value::Null => String::from_str(alloc, "-"),
        Value::Bool(truth) => truth.to_string(alloc),
        Value::Int(number) => number.to_string(alloc),
        Value::Big(number) => format!(in alloc; "{number}L"),
        Value::Str(text) => format!(in alloc; "'{}", text.as_str()),
    }
}

/// A row as a text: each value with `|` behind it.
fn shown_row(alloc: Global, row: &Row) -> Result<String, AllocError> {
    let mut text = String::new(alloc);
    for value in row.as_slice() {
        text.push_str(shown(alloc, value)?.as_str())?;
        text.push_str("|")?;
    }
    Ok(text)
}

/// Tries a table of lines and their rows.
fn check(
    rt: &impl Abort,
    alloc: Global,
    shape: &Shape,
    head: Option<&[u8]>,
    table: &[(&[u8], &str)],
) -> Result<(), AllocError> {
    for (line, wanted) in table {
        let row = row_of(alloc, shape, head, *line)?;
        let found = shown_row(alloc, &row)?;
        assert_eq!(rt; found.as_str(), *wanted);
    }
    Ok(())
}

#[test]
fn a_header_names_the_fields_of_csv_lines(rt: HostRuntime) -> Result<(), Fail> {
    let alloc = rt.alloc();
    let shape = csv(customers(alloc)?, true, b',');
    let table: [(&[u8], &str); 14] = [
        (b"1,\"Lee, Ann\",TRUE", "1|'Lee, Ann|true|-|"),
        (b"x,Bob,", "-|'Bob|-|'x,Bob,|"),
        (b"2,,false,extra", "2|-|false|'2,,false,extra|"),
        (b"2,,false,", "2|-|false|'2,,false,|"),
        (b"3,Eve", "3|'Eve|-|'3,Eve|"),
        (b"4,\"say \"\"hi\"\"\",no", "4|'say \"hi\"|false|-|"),
        (b"5,\"a\"b,yes", "5|'ab|true|-|"),
        (b"6,\"open,yes", "6|'open,yes|-|'6,\"open,yes|"),
        (b"7,a\"b\",1", "7|'a\"b\"|true|-|"),
        (b" 8 ,\" \",maybe", "8|' |-|' 8 ,\" \",maybe|"),
        (b"9,\xC3\xA9,0", "9|'é|false|-|"),
        (b"9,\xC3,0", "-|-|-|'hex:392cc32c30|"),
        (b"9,a\r,0", "-|-|-|'9,a\r,0|"),
        (b"", "-|-|-|'|"),
    ];
    check(&rt, alloc, &shape, Some(b"id,name,vip"), &table)?;
    Ok(())
}

#[test]
fn odd_headers_leave_fields_over(rt: HostRuntime) -> Result<(), Fail> {
    let alloc = rt.alloc();
    let shape = csv(customers(alloc)?, true, b',');
    let swapped: [(&[u8], &str); 3] = [
        (b"A,1,,", "1|'A|-|-|"),
        (b"A,1,B,", "1|'A|-|'A,1,B,|"),
        (b"A,1,,x", "1|'A|-|'A,1,,x|"),
    ];
    let header: &[u8] = b"name,id,name,_rescued_data";
    check(&rt, alloc, &shape, Some(header), &swapped)?;
    let upper: [(&[u8], &str); 1] = [(b"7,A,1", "-|'A|true|'7,A,1|")];
    check(&rt, alloc, &shape, Some(b"ID,name,vip"), &upper)?;
    let malformed: [(&[u8], &str); 1] = [(b"1,A,1", "-|-|-|'1,A,1|")];
    check(&rt, alloc, &shape, Some(b"id,name,vip\xFF"), &malformed)?;
    Ok(())
}

#[test]
fn without_a_header_fields_stand_in_order(rt: HostRuntime) -> Result<(), Fail> {
    let alloc = rt.alloc();
    let shape = csv(customers(alloc)?, false, b'\t');
    let table: [(&[u8], &str); 7] = [
        (b"1\tLee, Ann\ttrue", "1|'Lee, Ann|true|-|"),
        (b"1\tA", "1|'A|-|'1\tA|"),
        (b"1\tA\tno\tx", "1|'A|false|'1\tA\tno\tx|"),
        (b"1\tA\tno\t", "1|'A|false|'1\tA\tno\t|"),
        (b"\t\t", "-|-|-|-|"),
        (b"\"\"\t\"\"\"\"\t0", "-|'\"|false|-|"),
        (b"\xEF\xBB\xBF1\tA\t1", "-|-|-|'\u{feff}1\tA\t1|"),
    ];
    check(&rt, alloc, &shape, None, &table)?;
    Ok(())
}

#[test]
fn members_of_json_lines_are_columns(rt: HostRuntime) -> Result<(), Fail> {
    let alloc = rt.alloc();
    let shape = json(people(alloc)?, true);
    let table: [(&[u8], &str); 12] = [
        (
            br#"{"id":1.5,"name":"A"}"#,
            r#"-|'A|'{"id":1.5,"name":"A"}|"#,
        ),
        (
            br#"{"id":7,"extra":true}"#,
            r#"7|-|'{"id":7,"extra":true}|"#,
        ),
        (b"[1]", "-|-|'[1]|"),
        (br#"{"id":8,"name":5}"#, "8|'5|-|"),
        (br#"{"id":1,"name":"a","id":2}"#, "2|'a|-|"),
        (br#"{"id":1,"id":null}"#, "-|-|-|"),
        (
            br#"{"_rescued_data":"x"}"#,
            r#"-|-|'{"_rescued_data":"x"}|"#,
        ),
        (br#"{"x":null}"#, "-|-|-|"),
        (br#"{"ID":3}"#, r#"-|-|'{"ID":3}|"#),
        (b" {} ", "-|-|-|"),
        (br#"{"id":1} x"#, r#"-|-|'{"id":1} x|"#),
        (b"\xFF{}", "-|-|'hex:ff7b7d|"),
    ];
    check(&rt, alloc, &shape, None, &table)?;
    Ok(())
}

#[test]
fn json_values_have_kinds(rt: HostRuntime) -> Result<(), Fail> {
    let alloc = rt.alloc();
    let shape = json(people(alloc)?, true);
    let table: [(&[u8], &str); 8] = [
        (br#"{"id":-0}"#, r#"-|-|'{"id":-0}|"#),
        (br#"{"id":1e3}"#, r#"-|-|'{"id":1e3}|"#),
        (br#"{"id":2147483648}"#, r#"-|-|'{"id":2147483648}|"#),
        (
            br#"{"id":-2147483648,"name":false}"#,
            "-2147483648|'false|-|",
        ),
        (
            br#"{"name":-9223372036854775808}"#,
            "-|'-9223372036854775808|-|",
        ),
        (br#"{"name":1.5}"#, r#"-|-|'{"name":1.5}|"#),
        (br#"{"name":{"a":1}}"#, r#"-|-|'{"name":{"a":1}}|"#),
        (
            br#"{"id":1234567890123456789012345678901234567890123456789012345678901234567890}"#,
            r#"-|-|'{"id":1234567890123456789012345678901234567890123456789012345678901234567890}|"#,
        ),
    ];
    check(&rt, alloc, &shape, None, &table)?;
    Ok(())
}

#[test]
fn a_shape_may_keep_no_rescued_text(rt: HostRuntime) -> Result<(), Fail> {
    let alloc = rt.alloc();
    let shape = json(numbers(alloc)?, false);
    let table: [(&[u8], &str); 4] = [
        (
            br#"{"n":-9223372036854775808,"b":false}"#,
            "-9223372036854775808L|false|",
        ),
        (br#"{"n":9223372036854775808,"b":0}"#, "-|-|"),
        (br#"{"n":"7","b":"true"}"#, "-|-|"),
        (b"7", "-|-|"),
    ];
    check(&rt, alloc, &shape, None, &table)?;
    Ok(())
}
