//! The names of the outputs of a select.

ghost use Rattle.std.specs.Prelude.{◌≡◌, ◌∷◌, [], IfOk};
ghost use Rattle.statement_checks.specs.Repeats.{first_of};
ghost use Rattle.select_names.specs.SelectNames.{outputs_are_named, outputs_differ};

use select_names::{repeated_output, unnamed_output};
use sql_tree::Out;
use statement_checks::CheckFault;
use std::alloc::{AllocError, Global};
use value_core::Schema;

/// The fault of the first output without a name, or else of the first that has the name of an
/// earlier one.
pub fn naming_fault(
    alloc: Global,
    source: &Schema,
    outs: &[Out],
) -> Result<Option<CheckFault>, AllocError>
    ensures { IfOk result (λ fault. fault ≡ first_of (outputs_are_named outs.now ∷ outputs_differ source.now outs.now ∷ [])) }
{
    let fault = unnamed_output(outs)?;
    if fault.is_some() {
        return Ok(fault);
    }
    repeated_output(alloc, source.as_slice(), outs)
}
