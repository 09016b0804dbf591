use crate::{Command, commands};
use std::alloc::{AllocError, Global};
use update_plan::Refresh;

/// The commands of these words behind three paths.
fn read(alloc: Global, words: &[&str]) -> Result<Option<Vec<Command>>, AllocError> {
    let mut list = Vec::new(alloc);
    for word in ["pipeline.sql", "store", "landing"] {
        list.push(String::from_str(alloc, word)?)?;
    }
    for word in words {
        list.push(String::from_str(alloc, word)?)?;
    }
    commands(alloc, list.as_slice())
}

fn is_usage(alloc: Global, words: &[&str]) -> Result<bool, AllocError> {
    Ok(read(alloc, words)?.is_none())
}

#[test]
fn other_words_are_refused(rt: HostRuntime) -> Result<(), AllocError> {
    let alloc = rt.alloc();
    let refused: [&[&str]; 22] = [
        &[],
        &["update", "then"],
        &["then", "update"],
        &["update", "--workers", "0"],
        &["update", "--workers", "65"],
        &["update", "--workers"],
        &["update", "--workers="],
        &["update", "--workers", "4", "--workers=4"],
        &["update", "--worker", "4"],
        &["update", "--full-refresh", "a,,b"],
        &["update", "--full-refresh", "-a"],
        &["update", "t"],
        &["update", "--version", "1"],
        &["show"],
        &["show", "t", "u"],
        &["show", ""],
        &["show", "--version", "18446744073709551616", "t"],
        &["show", "t", "--"],
        &["validate", "t"],
        &["generate", "200001"],
        &["generate", "+4"],
        &["Update"],
    ];
    for words in refused {
        assert!(rt; is_usage(alloc, words)?);
    }
    Ok(())
}

/// Whether these words ask for one update with so many workers of these names.
fn updates(alloc: Global, words: &[&str], count: u32, names: &[&str]) -> Result<bool, AllocError> {
    let Some(list) = read(alloc, words)? else {
        return Ok(false);
    };
    let [
        Command::Update {
            refresh: Refresh::Only(found),
            workers,
        },
    ] = list.as_slice()
    else {
        return Ok(false);
    };
    Ok(
        *workers == count
            && found.len() == names.len()
            && found
                .as_slice()
                .iter()
                .zip(names)
                .all(|(one, other)| one.as_str() == *other),
    )
}

#[test]
fn options_stand_in_any_order(rt: HostRuntime) -> Result<(), AllocError> {
    let alloc = rt.alloc();
    assert!(rt;
        updates(
            alloc,
            &["update", "--workers", "64", "--full-refresh=a,b"],
            64,
            &["a", "b"]
        )?
    );
    assert!(rt; updates(alloc, &["update", "--full-refresh", "a"], 1, &["a"])?);
    assert!(rt;
        updates(
            alloc,
            &["update", "--workers=04", "--full-refresh", "all,b"],
            4,
            &["all", "b"]
        )?
    );
    Ok(())
}

fn is_third_version(command: &Command) -> bool {
    match command {
        Command::Show { name, version } => name.as_str() == "t" && *version == Some(3),
        _ => false,
    }
}

fn is_four(command: &Command) -> bool {
    matches!(command, Command::Generate { count: 4 })
}

/// Whether these words ask for two commands, the first of which shows a version.
fn shows_and_generates(alloc: Global, words: &[&str]) -> Result<bool, AllocError> {
    match read(alloc, words)? {
        Some(list) => match list.as_slice() {
            [first, second] => Ok(is_third_version(first) && is_four(second)),
            _ => Ok(false),
        },
        None => Ok(false),
    }
}

#[test]
fn commands_stand_in_order(rt: HostRuntime) -> Result<(), AllocError> {
    let alloc = rt.alloc();
    let words = ["show", "--version", "3", "t", "then", "generate", "4"];
    assert!(rt; shows_and_generates(alloc, &words)?);
    Ok(())
}

/// How many commands these words ask for.
fn count(alloc: Global, words: &[&str]) -> Result<usize, AllocError> {
    match read(alloc, words)? {
        Some(list) => Ok(list.len()),
        None => Ok(0),
    }
}

#[test]
fn bare_commands_are_read(rt: HostRuntime) -> Result<(), AllocError> {
    let alloc = rt.alloc();
    let words = [
        "validate", "then", "update", "then", "metrics", "then", "compact",
    ];
    assert_eq!(rt; count(alloc, &words)?, 4);
    Ok(())
}
