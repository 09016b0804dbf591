// One command, by its name and its arguments.
ghost use Rattle.std.specs.Prelude.{◌≡◌, ◌∷◌, map, string_bytes, IfOk, Option, Some, None, option_map, option_and_then};
ghost use Rattle.std.specs.Option.{option_copied};
ghost use Rattle.command_words.specs.Commands as spec;
ghost use Rattle.command_words.specs.Refreshes.{refresh_given};

use crate::arguments::{Argument, CommandOption, arguments};
use crate::number::{number, number_within};
use crate::refresh::refresh_of;
use crate::values::{lacks, lacks_operand, sole_operand, sole_value};
use std::alloc::{AllocError, Global};
use update_plan::Refresh;
use value_core::{Name, Text};

/// What a run is asked for.
#[derive(Debug, Drop)]
pub enum Command {
    /// Prints what the pipeline asks for, a line a dataset.
    Validate,
    /// Takes what is new in the landing folder into the store, with 1 to 64 workers, one where the
    /// words name no number.
    Update { refresh: Refresh, workers: u32 },
    /// Prints a table as of a version, the last one where the words name none.
    Show { name: Name, version: Option<u64> },
    /// Prints the counts of expectations.
    Metrics,
    /// Folds the store into its other file.
    Compact,
    /// Makes 1 to 200,000 events, and runs two updates over them in memory.
    Generate { count: u32 },
}

fn bare(command: Command, list: &[Argument]) -> Option<Command>
    ensures { result ≡ spec.bare command list.now }
{
    if list.is_empty() { Some(command) } else { None }
}

/// What `--full-refresh` asks for, where it is given.
fn refresh_given(alloc: Global, value: Option<&Text>) -> Result<Option<Refresh>, AllocError>
    ensures { IfOk result (λ found. found ≡ refresh_given (option_copied value.entry)) }
{
    match value {
        Some(value) => refresh_of(alloc, value.as_str()),
        None => Ok(Some(Refresh::Nothing)),
    }
}

fn workers_given(value: Option<&Text>) -> Option<u32>
    ensures { result ≡ spec.workers_given (option_copied value.entry) }
{
    match value {
        Some(value) => number_within(1, 64, value.as_str()).map(|n| n as u32),
        None => Some(1),
    }
}

fn update_of(alloc: Global, list: &[Argument]) -> Result<Option<Command>, AllocError>
    ensures { IfOk result (λ found. found ≡ spec.update_of list.now) }
{
    if !lacks_operand(list) || !lacks(CommandOption::Version, list) {
        return Ok(None);
    }
    let Some(refresh) = sole_value(CommandOption::FullRefresh, list) else {
        return Ok(None);
    };
    let Some(workers) = sole_value(CommandOption::Workers, list).and_then(workers_given) else {
        return Ok(None);
    };
    let Some(refresh) = refresh_given(alloc, refresh)? else {
        return Ok(None);
    };
    Ok(Some(Command::Update { refresh, workers }))
}

/// The version that is asked for, if one is: `None` where the word is no number.
fn version_given(value: Option<&Text>) -> Option<Option<u64>>
    ensures { result ≡ spec.version_given (option_copied value.entry) }
{
    match value {
        Some(value) => match number(value.as_str()) {
            Some(version) => Some(Some(version)),
            None => None,
        },
        None => Some(None),
    }
}

/// The one operand.
fn one_operand(list: &[Argument]) -> Option<&Text>
    ensures { option_copied result ≡ spec.one_operand list.now }
{
    match sole_operand(list) {
        Some(Some(word)) => Some(word),
        _ => None,
    }
}

fn show_of(alloc: Global, list: &[Argument]) -> Result<Option<Command>, AllocError>
    ensures { IfOk result (λ found. found ≡ spec.show_of list.now) }
{
    if !lacks(CommandOption::FullRefresh, list) || !lacks(CommandOption::Workers, list) {
        return Ok(None);
    }
    let Some(name) = one_operand(list) else {
        return Ok(None);
    };
    let Some(version) = sole_value(CommandOption::Version, list).and_then(version_given) else {
        return Ok(None);
    };
    let name = Name::new(alloc, name.as_str())?;
    Ok(Some(Command::Show { name, version }))
}

fn generate_of(list: &[Argument]) -> Option<Command>
    ensures { result ≡ spec.generate_of list.now }
{
    if !lacks(CommandOption::FullRefresh, list)
        || !lacks(CommandOption::Workers, list)
        || !lacks(CommandOption::Version, list)
    {
        return None;
    }
    let count = number_within(1, 200_000, one_operand(list)?.as_str())?;
    Some(Command::Generate {
        count: count as u32,
    })
}

fn command_with(alloc: Global, word: &str, list: &[Argument]) -> Result<Option<Command>, AllocError>
    ensures { IfOk result (λ found. found ≡ spec.command_with word.now list.now) }
{
    match word {
        "validate" => Ok(bare(Command::Validate, list)),
        "update" => update_of(alloc, list),
        "show" => show_of(alloc, list),
        "metrics" => Ok(bare(Command::Metrics, list)),
        "compact" => Ok(bare(Command::Compact, list)),
        "generate" => Ok(generate_of(list)),
        _ => Ok(None),
    }
}

/// The command that words ask for: its name and then its arguments.
pub(crate) fn command_of(alloc: Global, words: &[String]) -> Result<Option<Command>, AllocError>
    ensures { IfOk result (λ found. found ≡ spec.command_of (map string_bytes words.now)) }
{
    let Some((word, behind)) = words.split_first() else {
        return Ok(None);
    };
    let Some(list) = arguments(alloc, behind)? else {
        return Ok(None);
    };
    command_with(alloc, word.as_str(), list.as_slice())
}
