// Commands in order.
ghost use Rattle.std.specs.Prelude.{◌≡◌, ◌≤◌, ◌<◌, ◌+◌, [], ◌∷◌, length, map, take, drop, string_bytes, IfOk, option_map};
ghost use Rattle.command_words.specs.Parts.{commands_of, each_command, parts};

use crate::command::{Command, command_of};
use std::alloc::{AllocError, Global};

/// How many words stand before the first `then`.
fn count_before_then(words: &[String]) -> usize
    ensures within { result ≤ length words.now }
    ensures cut { result < length words.now → parts (map string_bytes words.now) ≡ map string_bytes (take result words.now) ∷ parts (map string_bytes (drop (result + 1) words.now)) }
    ensures whole { result ≡ length words.now → parts (map string_bytes words.now) ≡ map string_bytes words.now ∷ [] }
{
    for (i, word) in words.iter().enumerate() {
        if word.as_str() == "then" {
            return i;
        }
    }
    words.len()
}

/// The commands that the words behind the paths ask for.
fn commands_behind_paths(
    alloc: Global,
    words: &[String],
) -> Result<Option<Vec<Command>>, AllocError>
    ensures { IfOk result (λ o. option_map (λ v. v.items) o ≡ each_command (parts (map string_bytes words.now))) }
{
    let mut commands = Vec::new(alloc);
    let mut left = words;
    loop {
        let (part, rest) = left.split_at(count_before_then(left));
        let Some(command) = command_of(alloc, part)? else {
            return Ok(None);
        };
        commands.push(command)?;
        let Some((_then, behind)) = rest.split_first() else {
            return Ok(Some(commands));
        };
        left = behind;
    }
}

/// The commands that the words ask for. `None` exactly where they are not of the form: three paths
/// that are not empty, and then one or more commands with the word `then` between two of them. A
/// command is one of these:
///
/// - `validate`
/// - `update [--full-refresh all or names] [--workers N]`, N from 1 to 64
/// - `show NAME [--version N]`, N below 2^64
/// - `metrics`
/// - `compact`
/// - `generate N`, N from 1 to 200,000
///
/// An option and its value are two words, or one word with `=` between them; options and operands come
/// in any order, and each at most once. Behind the paths a word that begins with `-` is one of these
/// options spelled in full. Values and names are not empty, and names in a list have a comma between
/// two of them. A number is 1 to 20 decimal digits.
///
/// `Err` for want of memory alone.
pub fn commands(alloc: Global, words: &[String]) -> Result<Option<Vec<Command>>, AllocError>
    ensures { IfOk result (λ o. option_map (λ v. v.items) o ≡ commands_of (map string_bytes words.now)) }
{
    match words {
        [pipeline, store, landing, behind @ ..] => {
            if pipeline.is_empty() || store.is_empty() || landing.is_empty() {
                return Ok(None);
            }
            commands_behind_paths(alloc, behind)
        }
        _ => Ok(None),
    }
}
