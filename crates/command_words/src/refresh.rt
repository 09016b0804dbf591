// The value of `--full-refresh`.
ghost use Rattle.std.specs.Prelude.{◌≡◌, ◌==◌, map, IfOk};
ghost use Rattle.std.specs.List.{list_any, slice_split};
ghost use Rattle.command_words.specs.Refreshes as spec;

use std::alloc::{AllocError, Global};
use update_plan::Refresh;
use value_core::{ListOf, Name, Names};

/// The words between commas.
fn pieces_of(alloc: Global, value: &str) -> Result<Vec<&str>, AllocError>
    ensures { IfOk result (λ pieces. map (λ piece. piece.now) pieces.items ≡ slice_split (λ byte. byte == 44) value.now) }
{
    value.split(',').collect(alloc)
}

/// Names of these words, if none of them is empty.
fn names_of_pieces(alloc: Global, pieces: &[&str]) -> Result<Option<Names>, AllocError>
    ensures { IfOk result (λ names. names ≡ spec.if_none_empty (map (λ piece. piece.now) pieces.now)) }
{
    let mut names = ListOf::new(alloc);
    for piece in pieces {
        if piece.is_empty() {
            return Ok(None);
        }
        names.push(Name::new(alloc, piece)?)?;
    }
    Ok(Some(names))
}

fn names_of(alloc: Global, value: &str) -> Result<Option<Names>, AllocError>
    ensures { IfOk result (λ names. names ≡ spec.names_of value.now) }
{
    let pieces = pieces_of(alloc, value)?;
    names_of_pieces(alloc, pieces.as_slice())
}

/// What the value asks for: the word `all`, or names with a comma between two of them, none empty.
pub(crate) fn refresh_of(alloc: Global, value: &str) -> Result<Option<Refresh>, AllocError>
    ensures { IfOk result (λ found. found ≡ spec.refresh_of value.now) }
{
    if value == "all" {
        return Ok(Some(Refresh::All));
    }
    let Some(names) = names_of(alloc, value)? else {
        return Ok(None);
    };
    Ok(Some(Refresh::Only(names)))
}
