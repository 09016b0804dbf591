// A store in files of the operating system, which is opened by one run after another.
use crate::run_words;
use pipeline_run::Status;
use std::alloc::AllocError;
use std::fs;
use std::test::Fail;

const PIPELINE: &str =
    "CREATE STREAMING TABLE t AS SELECT a FROM STREAM read_files('in', format => 'json', schema => 'a BIGINT')";

/// Runs one update over the files below `cli_here`.
fn updated(rt: &HostRuntime) -> Result<Status, AllocError> {
    let alloc = rt.alloc();
    let mut words = Vec::new(alloc);
    words.push(String::from_str(alloc, "cli_here/t.sql")?)?;
    words.push(String::from_str(alloc, "cli_here/store")?)?;
    words.push(String::from_str(alloc, "cli_here/landing")?)?;
    words.push(String::from_str(alloc, "update")?)?;
    run_words(rt, words.as_slice())
}

#[test]
fn a_store_is_opened_a_second_time(rt: HostRuntime) -> Result<(), Fail> {
    fs::create_dir_all(&rt, "cli_here/landing/in")?;
    fs::write(&rt, "cli_here/t.sql", PIPELINE)?;
    fs::write(&rt, "cli_here/landing/in/a.json", "{\"a\":5}\n")?;
    assert!(rt; updated(&rt)? == Status::Ok);
    let first = fs::read(&rt, "cli_here/store.left")?;
    assert!(rt; updated(&rt)? == Status::Ok);
    assert!(rt; fs::read(&rt, "cli_here/store.left")?.as_slice() == first.as_slice());
    fs::write(&rt, "cli_here/landing/in/a.json", "{\"a\":5}\n{\"a\":7}\n")?;
    assert!(rt; updated(&rt)? == Status::Ok);
    assert!(rt; fs::read(&rt, "cli_here/store.left")?.len() > first.len());
    fs::remove_dir_all(&rt, "cli_here")?;
    Ok(())
}
