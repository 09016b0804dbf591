// The arguments of a command.
ghost use Rattle.std.specs.Prelude.{◌≡◌, ◌∷◌, map, string_bytes, IfOk, option_map, is_some, drop, if◌then◌else◌};
ghost use Rattle.std.specs.List.{list_any};
ghost use Rattle.command_words.specs.Arguments as spec;

use std::alloc::{AllocError, Global};
use value_core::Text;

/// An option of a command.
#[derive(Clone, Copy, Debug, PartialEq, Eq)]
pub(crate) enum CommandOption {
    /// `--full-refresh`
    FullRefresh,
    /// `--workers`
    Workers,
    /// `--version`
    Version,
}

/// What stands behind the name of a command.
#[derive(Debug, Drop)]
pub(crate) enum Argument {
    Operand(Text),
    Valued { option: CommandOption, value: Text },
}

/// The option that a word spells in full.
fn option_named(word: &str) -> Option<CommandOption>
    ensures { result ≡ spec.option_named word.now }
{
    match word {
        "--full-refresh" => Some(CommandOption::FullRefresh),
        "--workers" => Some(CommandOption::Workers),
        "--version" => Some(CommandOption::Version),
        _ => None,
    }
}

fn is_dashed(word: &str) -> bool
    ensures { result ≡ spec.is_dashed word.now }
{
    matches!(word.as_bytes(), [b'-', ..])
}

fn operand(alloc: Global, word: &str) -> Result<Option<Argument>, AllocError>
    ensures { IfOk result (λ found. found ≡ spec.operand word.now) }
{
    if word.is_empty() {
        return Ok(None);
    }
    let word = Text::new(alloc, word)?;
    Ok(Some(Argument::Operand(word)))
}

/// An option with a value that is not empty.
fn valued(
    alloc: Global,
    option: Option<CommandOption>,
    value: &str,
) -> Result<Option<Argument>, AllocError>
    ensures { IfOk result (λ found. found ≡ spec.valued option value.now) }
{
    let Some(option) = option else {
        return Ok(None);
    };
    if value.is_empty() {
        return Ok(None);
    }
    let value = Text::new(alloc, value)?;
    Ok(Some(Argument::Valued { option, value }))
}

/// An option and its value in one word, with an equals sign between them.
fn joined(alloc: Global, word: &str) -> Result<Option<Argument>, AllocError>
    ensures { IfOk result (λ found. found ≡ spec.joined word.now) }
{
    match word.split_once('=') {
        Some((name, value)) => valued(alloc, option_named(name), value),
        None => Ok(None),
    }
}

/// The argument that one word is.
fn alone(alloc: Global, word: &str) -> Result<Option<Argument>, AllocError>
    ensures { IfOk result (λ found. found ≡ spec.alone word.now) }
{
    if is_dashed(word) {
        joined(alloc, word)
    } else {
        operand(alloc, word)
    }
}

/// An option and the next word as its value.
fn beside(
    alloc: Global,
    option: CommandOption,
    words: &[String],
) -> Result<Option<Argument>, AllocError>
    ensures { IfOk result (λ found. found ≡ spec.beside option (map string_bytes words.now)) }
{
    let Some((value, _)) = words.split_first() else {
        return Ok(None);
    };
    if is_dashed(value.as_str()) {
        return Ok(None);
    }
    valued(alloc, Some(option), value.as_str())
}

/// The argument that begins with a word, before these.
fn first_argument(
    alloc: Global,
    word: &str,
    words: &[String],
) -> Result<Option<Argument>, AllocError>
    ensures { IfOk result (λ found. found ≡ spec.argument word.now (map string_bytes words.now)) }
{
    match option_named(word) {
        Some(option) => beside(alloc, option, words),
        None => alone(alloc, word),
    }
}

/// The words behind the argument that begins with a word.
fn words_behind<'a>(word: &str, words: &'a [String]) -> &'a [String]
    ensures { result.now ≡ (if is_some (spec.option_named word.now) then drop 1 words.now else words.now) }
{
    if option_named(word).is_some() && !words.is_empty() {
        &words[1..]
    } else {
        words
    }
}

/// The arguments that words spell, if each is of the form.
pub(crate) fn arguments(
    alloc: Global,
    words: &[String],
) -> Result<Option<Vec<Argument>>, AllocError>
    ensures { IfOk result (λ found. option_map (λ list. list.items) found ≡ spec.arguments (map string_bytes words.now)) }
{
    let mut list = Vec::new(alloc);
    let mut left = words;
    while let Some((word, behind)) = left.split_first() {
        let Some(argument) = first_argument(alloc, word.as_str(), behind)? else {
            return Ok(None);
        };
        list.push(argument)?;
        left = words_behind(word.as_str(), behind);
    }
    Ok(Some(list))
}
