//! The first name that occurs twice.

ghost use Rattle.std.specs.Prelude.{◌≡◌, IfOk};
ghost use Rattle.std.specs.Option.{option_copied};
ghost use Rattle.statement_checks.specs.Repeats as spec;

use crate::folded::Folded;
use indexmap::IndexSet;
use std::alloc::{AllocError, Global};
use value_core::Name;

/// The first name that an earlier one is, but for the case of ASCII letters. Looks each name up
/// once in a table.
pub(crate) fn first_repeat(alloc: Global, names: &[Name]) -> Result<Option<&Name>, AllocError>
    ensures { IfOk result (λ found. option_copied found ≡ spec.first_repeat names.now) }
{
    let mut seen = IndexSet::new(alloc);
    for name in names {
        let key = Folded {
            text: name.as_str(),
        };
        if !seen.insert(key)? {
            return Ok(Some(name));
        }
    }
    Ok(None)
}
