use crate::{FilesRead, OptionEnd, files_of};
use sql_tree::{OptionValue, SqlOption, SqlOptions};
use std::alloc::{AllocError, Global};
use std::test::Fail;
use value_core::{Column, Format, Kind, Name, Text};

fn text_option(alloc: Global, word: &str, text: &str) -> Result<SqlOption, AllocError> {
    Ok(SqlOption {
        word: Name::new(alloc, word)?,
        value: OptionValue::Str(Text::new(alloc, text)?),
    })
}

/// Options that are all set to strings.
fn text_options(alloc: Global, pairs: &[(&str, &str)]) -> Result<SqlOptions, AllocError> {
    let mut options = SqlOptions::new(alloc);
    for (word, text) in pairs {
        options.push(text_option(alloc, word, text)?)?;
    }
    Ok(options)
}

/// The word of the first rule that is broken, and nothing where none is.
fn word_of(alloc: Global, answer: Result<FilesRead, OptionEnd>) -> Result<Text, AllocError> {
    match answer {
        Ok(_) => Text::new(alloc, ""),
        Err(OptionEnd::Bad { word }) => Ok(word),
        Err(OptionEnd::Memory) => Err(AllocError),
    }
}

fn broken(alloc: Global, path: &str, pairs: &[(&str, &str)]) -> Result<Text, AllocError> {
    let path = Text::new(alloc, path)?;
    let options = text_options(alloc, pairs)?;
    word_of(alloc, files_of(alloc, &path, &options))
}

#[test]
fn the_path_is_a_folder(rt: HostRuntime) -> Result<(), Fail> {
    let options = [("format", "json"), ("schema", "a INT")];
    let cases: [(&str, &str); 12] = [
        ("in", ""),
        ("/in/", ""),
        ("a/b.c", ""),
        ("//A-9/_x..", ""),
        ("a//b", "path"),
        ("", "path"),
        ("//", "path"),
        ("..", "path"),
        ("a/./b", "path"),
        ("a/../b", "path"),
        ("a b", "path"),
        ("é", "path"),
    ];
    for (path, wanted) in cases {
        let word = broken(rt.alloc(), path, &options)?;
        assert!(rt; word.as_str() == wanted, "{path}");
    }
    Ok(())
}

#[test]
fn the_schema_lists_columns(rt: HostRuntime) -> Result<(), Fail> {
    let cases: [(&str, &str); 15] = [
        ("a INT", ""),
        ("`a b` int, `select` Boolean", ""),
        ("`é` bigint,int/* a name */STRING,`,` long,x integer", ""),
        ("", "schema"),
        ("-- nothing", "schema"),
        ("a", "schema"),
        ("a INT,", "schema"),
        ("a INT b INT", "schema"),
        ("a FLOAT", "schema"),
        ("a `INT`", "schema"),
        ("select INT", "schema"),
        ("'a' INT", "schema"),
        ("a INT, A STRING", "schema"),
        ("a INT ?", "schema"),
        ("a INT, 9223372036854775808", "schema"),
    ];
    for (schema, wanted) in cases {
        let options = [("format", "csv"), ("schema", schema)];
        let word = broken(rt.alloc(), "in", &options)?;
        assert!(rt; word.as_str() == wanted, "{schema}");
    }
    Ok(())
}

/// Whether this is the word of the first rule that is broken.
fn tells(alloc: Global, path: &str, pairs: &[(&str, &str)], wanted: &str) -> bool {
    match broken(alloc, path, pairs) {
        Ok(word) => word.as_str() == wanted,
        Err(AllocError) => false,
    }
}

#[test]
fn options_have_their_words(rt: HostRuntime) -> Result<(), Fail> {
    let m = rt.alloc();
    let json = ("format", "json");
    let csv = ("format", "csv");
    let schema = ("schema", "a INT");
    assert!(rt; tells(m, "in", &[("Format", "json"), schema], "Format"));
    assert!(rt;
        tells(
            m,
            "in",
            &[json, schema, ("mode", "x"), ("size", "1")],
            "mode"
        )
    );
    assert!(rt; tells(m, "in", &[json, schema, csv], "format"));
    assert!(rt; tells(m, "in", &[schema], "format"));
    assert!(rt; tells(m, "in", &[("format", "JSON"), schema], "format"));
    assert!(rt; tells(m, "in", &[json], "schema"));
    Ok(())
}

#[test]
fn a_separator_is_one_character(rt: HostRuntime) -> Result<(), Fail> {
    let cases: [(&str, &str); 6] = [
        (";", ""),
        ("", "sep"),
        (";;", "sep"),
        ("\"", "sep"),
        ("\n", "sep"),
        ("é", "sep"),
    ];
    for (sep, wanted) in cases {
        let options = [("format", "csv"), ("schema", "a INT"), ("sep", sep)];
        let word = broken(rt.alloc(), "in", &options)?;
        assert!(rt; word.as_str() == wanted, "{sep}");
    }
    Ok(())
}

#[test]
fn json_has_neither_header_nor_separator(rt: HostRuntime) -> Result<(), Fail> {
    let m = rt.alloc();
    let json = ("format", "json");
    let csv = ("format", "csv");
    let schema = ("schema", "a INT");
    let header = ("header", "false");
    assert!(rt; tells(m, "in", &[csv, schema, header], ""));
    assert!(rt; tells(m, "in", &[csv, schema, ("header", "TRUE")], "header"));
    assert!(rt; tells(m, "in", &[json, schema, header], "header"));
    assert!(rt; tells(m, "in", &[json, schema, ("sep", ";"), header], "sep"));
    Ok(())
}

#[test]
fn a_rescued_name_is_new(rt: HostRuntime) -> Result<(), Fail> {
    let cases: [(&str, &str); 3] = [
        ("b", ""),
        ("", "rescuedDataColumn"),
        ("A", "rescuedDataColumn"),
    ];
    for (name, wanted) in cases {
        let options = [
            ("format", "json"),
            ("schema", "a INT"),
            ("rescuedDataColumn", name),
        ];
        let word = broken(rt.alloc(), "in", &options)?;
        assert!(rt; word.as_str() == wanted, "{name}");
    }
    Ok(())
}

#[test]
fn the_first_rule_is_told(rt: HostRuntime) -> Result<(), Fail> {
    let m = rt.alloc();
    let json = ("format", "json");
    let csv = ("format", "csv");
    let bad = ("schema", "a");
    let schema = ("schema", "a INT");
    let rescued = ("rescuedDataColumn", "a");
    assert!(rt; tells(m, "..", &[("x", ""), json, schema], "path"));
    assert!(rt; tells(m, "in", &[("x", ""), schema], "x"));
    assert!(rt; tells(m, "in", &[("format", "xml"), bad], "format"));
    assert!(rt; tells(m, "in", &[csv, ("sep", ""), bad], "schema"));
    assert!(rt; tells(m, "in", &[csv, ("header", "x"), ("sep", ""), schema], "sep"));
    assert!(rt;
        tells(
            m,
            "in",
            &[json, ("sep", ";"), ("header", "x"), schema],
            "header"
        )
    );
    assert!(rt; tells(m, "in", &[json, rescued, ("sep", ";"), schema], "sep"));
    Ok(())
}

/// A schema of so many columns of distinct names.
fn wide_schema(alloc: Global, count: usize) -> Result<String, AllocError> {
    let mut name = String::from_str(alloc, "c")?;
    let mut schema = String::new(alloc);
    for at in 0..count {
        if at > 0 {
            schema.push_str(",")?;
        }
        schema.push_str(name.as_str())?;
        schema.push_str(" INT")?;
        name.push_str("c")?;
    }
    Ok(schema)
}

#[test]
fn a_schema_has_at_most_256_columns(rt: HostRuntime) -> Result<(), Fail> {
    let alloc = rt.alloc();
    let most = wide_schema(alloc, 256)?;
    let word = broken(alloc, "in", &[("format", "csv"), ("schema", most.as_str())])?;
    assert!(rt; word.as_str() == "");
    let more = wide_schema(alloc, 257)?;
    let word = broken(alloc, "in", &[("format", "csv"), ("schema", more.as_str())])?;
    assert!(rt; word.as_str() == "schema");
    Ok(())
}

/// The word that is broken where one option is a boolean.
fn truth_broken(alloc: Global, word: &str) -> Result<Text, AllocError> {
    let path = Text::new(alloc, "in")?;
    let mut options = SqlOptions::new(alloc);
    options.push(SqlOption {
        word: Name::new(alloc, word)?,
        value: OptionValue::Bool(true),
    })?;
    if word != "format" {
        options.push(text_option(alloc, "format", "csv")?)?;
    }
    if word != "schema" {
        options.push(text_option(alloc, "schema", "a INT")?)?;
    }
    word_of(alloc, files_of(alloc, &path, &options))
}

#[test]
fn only_the_header_is_a_boolean(rt: HostRuntime) -> Result<(), Fail> {
    let cases: [(&str, &str); 5] = [
        ("header", ""),
        ("format", "format"),
        ("schema", "schema"),
        ("sep", "sep"),
        ("rescuedDataColumn", "rescuedDataColumn"),
    ];
    for (word, wanted) in cases {
        let found = truth_broken(rt.alloc(), word)?;
        assert!(rt; found.as_str() == wanted, "{word}");
    }
    Ok(())
}

fn is_column(column: &Column, name: &str, kind: Kind) -> bool {
    column.name.as_str() == name && column.kind == kind
}

/// The columns `a` and `B c`, and then `_rescued`.
fn are_wanted(columns: &[Column]) -> bool {
    match columns {
        [a, b, last] => {
            is_column(a, "a", Kind::Big)
                && is_column(b, "B c", Kind::Bool)
                && is_column(last, "_rescued", Kind::Str)
        }
        _ => false,
    }
}

#[test]
fn options_give_a_shape(rt: HostRuntime) -> Result<(), Fail> {
    let alloc = rt.alloc();
    let path = Text::new(alloc, "/landing/in/")?;
    let options = text_options(
        alloc,
        &[
            ("schema", "a LONG, `B c` boolean"),
            ("sep", "\t"),
            ("rescuedDataColumn", "_rescued"),
            ("header", "false"),
            ("format", "csv"),
        ],
    )?;
    match files_of(alloc, &path, &options) {
        Ok(files) => {
            assert!(rt; files.dir.as_str() == "landing/in");
            assert!(rt; files.shape.format == Format::Csv && files.shape.sep == b'\t');
            assert!(rt; !files.shape.header && files.shape.rescued);
            assert!(rt; are_wanted(files.shape.columns.as_slice()));
        }
        Err(_) => assert!(rt; false),
    }
    Ok(())
}

#[test]
fn a_separator_and_a_header_need_not_be_said(rt: HostRuntime) -> Result<(), Fail> {
    let alloc = rt.alloc();
    let path = Text::new(alloc, "in")?;
    let options = text_options(alloc, &[("format", "csv"), ("schema", "a INT")])?;
    match files_of(alloc, &path, &options) {
        Ok(files) => {
            assert!(rt; files.shape.format == Format::Csv && files.shape.sep == b',');
            assert!(rt; files.shape.header && !files.shape.rescued);
            assert!(rt; files.shape.columns.len() == 1);
        }
        Err(_) => assert!(rt; false),
    }
    Ok(())
}
