// The plan of a text.
ghost use Rattle.std.specs.Prelude.{◌≡◌, ◌≤◌, ◌+◌, ◌⊎◌, ℕ, List, None, length, IsErrOf, IsSomeAnd};
ghost use Rattle.disk_model.specs.Faults.{HasCauseOf};
ghost use Rattle.pipeline_text.specs.Pipelines.{text_limit, ComesTo, HasStatements, Knows, ReadAs};

use crate::built::unbuilt_in;
use crate::reading::read_statements;
use disk_model::Source;
use message_text::Refusal;
use plan_check::check;
use plan_core::Plan;
use sql_tree::Statements;
use std::alloc::Global;

/// The checked pipeline of a text.
#[derive(Debug, Drop)]
pub struct Pipeline {
    pub plan: Plan,
    /// The number, from 1, of the statement of the first dataset in declared order that an update can't run: one that
    /// is no append table.
    pub unbuilt: Option<u32>,
}

/// The plan of statements of a text.
fn checked(alloc: Global, statements: &Statements) -> Result<Pipeline, Refusal>
    ensures comes { (text : List ℕ) → HasStatements text statements.now → ComesTo text result }
    ensures no_fault { IsErrOf result Refusal.TextFailed → ⊥ }
{
    let plan = match check(alloc, statements) {
        Ok(plan) => plan,
        Err(refusal) => return Err(Refusal::Unchecked(refusal)),
    };
    let unbuilt = unbuilt_in(alloc, statements.as_slice(), plan.as_slice())?;
    Ok(Pipeline { plan, unbuilt })
}

/// The plan of the text that a source has left.
fn read_pipeline<T: Source>(alloc: Global, source: &mut T) -> Result<Pipeline, Refusal>
    ensures reads { (text : List ℕ) → (T.tells → T.left source.old ≡ text) → ReadAs T.tells text result }
    ensures amount { T.tells → length (T.left source.old) ≤ length (T.left source.new) + text_limit }
    ensures cause { HasCauseOf Refusal.TextFailed (T.faults source.old) (T.faults source.new) result }
{
    let statements = match read_statements(alloc, source) {
        Ok(statements) => statements,
        Err(refusal) => return Err(refusal),
    };
    checked(alloc, &statements)
}

/// The pipeline of a run's text: what is known of it, where a command before has read it, and then the source is left
/// as it was; else the source is read to its end, or up to 1,048,577 bytes, one more than a text may have, and its statements are checked. `Unread` and
/// `Unchecked` say why the text has no plan, `TextFailed` comes where the source failed, and `Memory`, alone or in
/// these, for want of it.
pub fn pipeline_of<T: Source>(
    alloc: Global,
    source: &mut T,
    known: Option<Pipeline>,
) -> Result<Pipeline, Refusal>
    // Whatever the text of the run is.
    ensures reads { (text : List ℕ) → Knows T.tells text known (T.left source.old) → ReadAs T.tells text result }
    // A known text is not read again.
    ensures again { IsSomeAnd known (λ _. source.new ≡ source.old) ⊎ (known ≡ None) }
    ensures amount { T.tells → length (T.left source.old) ≤ length (T.left source.new) + text_limit }
    ensures cause { HasCauseOf Refusal.TextFailed (T.faults source.old) (T.faults source.new) result }
{
    match known {
        Some(pipeline) => Ok(pipeline),
        None => read_pipeline(alloc, source),
    }
}
