ghost use Rattle.std.specs.Prelude.{◌≡◌, ◌≤◌, ◌+◌, None, length, IfOk};
ghost use Rattle.statement_checks.specs.Breaks as spec;

use crate::duplicates::name_fault;
use crate::fault::{Break, CheckFault};
use crate::limits::limit_fault;
use sql_tree::{Statement, Statements};
use std::alloc::{AllocError, Global};

/// The first check that a statement breaks behind others. What is counted is judged before names
/// are compared.
fn statement_fault(
    alloc: Global,
    before: &[Statement],
    statement: &Statement,
) -> Result<Option<CheckFault>, AllocError>
    ensures { IfOk result (λ fault. fault ≡ spec.statement_fault before.now statement.now) }
{
    let fault = limit_fault(before, statement);
    if fault.is_some() {
        return Ok(fault);
    }
    name_fault(alloc, before, statement)
}

/// A fault in the statement of this place from 0.
fn numbered(at: usize, fault: CheckFault) -> Break
    requires { at ≤ 1280 }
    ensures { result ≡ spec.broken (at + 1) fault }
{
    Break {
        statement: at as u32 + 1,
        fault,
    }
}

/// The first check that a pipeline's statements break by what they declare, statement by statement.
/// Of one statement come first the limits: 256 datasets, 1,024 flows (a streaming table with AS has
/// one of its own name), 256 declared columns, 16 keys, 8 parts of a sequence, 32 expectations. Then
/// come names that occur before, but for the case of ASCII letters: of datasets, of flows, of
/// declared columns or expectations of one dataset, in one list of names (KEYS, STRUCT, COLUMNS,
/// TRACK HISTORY ON, EXCEPT); of the last two kinds the first one in the text. A fault spells the
/// later of two names. Statements without a break are at most 1,280. Fails for want of memory alone.
#[tactic(auto, using(crate::proofs::Counting::at_first, crate::proofs::Counting::one_more, crate::proofs::Counting::broken_here, crate::proofs::Counting::few_before, crate::proofs::Counting::at_end, crate::proofs::Counting::few_at_end))]
pub fn first_break(alloc: Global, statements: &Statements) -> Result<Option<Break>, AllocError>
    ensures first { IfOk result (λ found. found ≡ spec.first_break statements.now) }
    ensures few { IfOk result (λ found. found ≡ None → length statements.now ≤ 1280) }
{
    let list = statements.as_slice();
    for at in 0..list.len() {
        if let Some(fault) = statement_fault(alloc, &list[..at], &list[at])? {
            return Ok(Some(numbered(at, fault)));
        }
    }
    Ok(None)
}
