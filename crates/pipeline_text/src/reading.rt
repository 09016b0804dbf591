// The statements of a text.
ghost use Rattle.std.specs.Prelude.{◌≡◌, ◌≤◌, ◌<◌, ◌+◌, ℕ, List, [], ◌++◌, length, take, OnOk, IfOk, IsErrOf};
ghost use Rattle.disk_model.specs.Faults.{HasCauseOf};
ghost use Rattle.disk_model.specs.Streams.{TakesNext};
ghost use Rattle.pipeline_text.specs.Pipelines.{text_limit, HasRead};

use disk_model::{Failed, Source};
use message_text::Refusal;
use pipeline_sql::read;
use sql_tree::Statements;
use std::alloc::{AllocError, Global};

/// How much of a text is read at most: one byte more than it may have.
const TEXT_LIMIT: usize = 1_048_577;

/// Why something wasn't read: the source failed, or memory ran out.
#[derive(Clone, Copy, Debug, PartialEq, Eq)]
pub(crate) enum Fault {
    Failed,
    Memory,
}

impl From<AllocError> for Fault {
    ghost use Rattle.std.specs.Prelude.{◌≡◌};
    ghost use Rattle.pipeline_text.specs.declared.reading.Fault.TheVariants.{Memory};

    ghost from_gives = { λ _ e. e ≡ Memory };

    fn from(_: AllocError) -> Fault {
        Fault::Memory
    }
}

impl From<Failed> for Fault {
    ghost use Rattle.std.specs.Prelude.{◌≡◌};
    ghost use Rattle.pipeline_text.specs.declared.reading.Fault.TheVariants.{Failed};

    ghost from_gives = { λ _ e. e ≡ Failed };

    fn from(_: Failed) -> Fault {
        Fault::Failed
    }
}

/// Reads one piece and adds it to the text: how long it was.
fn read_piece<T: Source>(
    source: &mut T,
    text: &mut Vec<u8>,
    piece: &mut [u8],
) -> Result<usize, Fault>
    ensures bound { IfOk result (λ n. n ≤ length piece.old) }
    ensures len { IfOk result (λ n. length text.new.items ≡ length text.old.items + n) }
    ensures text { T.tells → OnOk result (text.new.items ++ T.left source.new ≡ text.old.items ++ T.left source.old) }
    ensures last { T.tells → IfOk result (λ n. n ≡ 0 → 0 < length piece.old → T.left source.new ≡ []) }
    ensures amount { T.tells → length (T.left source.old) ≤ length (T.left source.new) + length piece.old }
    ensures cause { HasCauseOf Fault.Failed (T.faults source.old) (T.faults source.new) result }
{
    let count = source.read(piece)?;
    text.extend_from_slice(&piece[..count])?;
    Ok(count)
}

/// The whole text that a source has left, up to the limit.
fn read_text<T: Source>(alloc: Global, source: &mut T) -> Result<Vec<u8>, Fault>
    ensures limit { IfOk result (λ text. length text.items ≤ text_limit) }
    ensures text { T.tells → IfOk result (λ text. text.items ≡ take text_limit (T.left source.old)) }
    ensures amount { T.tells → length (T.left source.old) ≤ length (T.left source.new) + text_limit }
    ensures cause { HasCauseOf Fault.Failed (T.faults source.old) (T.faults source.new) result }
{
    let mut text = Vec::new(alloc);
    let mut piece = [0u8; 4096];
    while text.len() < TEXT_LIMIT {
        let wanted = (TEXT_LIMIT - text.len()).min(4096);
        if read_piece(source, &mut text, &mut piece[..wanted])? == 0 {
            break;
        }
    }
    Ok(text)
}

/// The statements of what was read of a text.
#[tactic(auto, unfolding(crate::specs::Pipelines::HasStatements, crate::specs::Pipelines::HasNoReading))]
fn statements_of(alloc: Global, read_bytes: &[u8]) -> Result<Statements, Refusal>
    ensures reads { (text : List ℕ) → take text_limit text ≡ read_bytes.now → HasRead text result }
    ensures no_fault { IsErrOf result Refusal.TextFailed → ⊥ }
{
    match read(alloc, read_bytes) {
        Ok(statements) => Ok(statements),
        Err(refusal) => Err(Refusal::Unread(refusal)),
    }
}

/// The statements of the text that a source has left.
pub(crate) fn read_statements<T: Source>(
    alloc: Global,
    source: &mut T,
) -> Result<Statements, Refusal>
    // Of some text, whatever the source tells.
    ensures some { (text : List ℕ) × HasRead text result }
    ensures told { T.tells → HasRead (T.left source.old) result }
    ensures amount { T.tells → length (T.left source.old) ≤ length (T.left source.new) + text_limit }
    ensures cause { HasCauseOf Refusal.TextFailed (T.faults source.old) (T.faults source.new) result }
{
    let text = match read_text(alloc, source) {
        Ok(text) => text,
        Err(Fault::Failed) => return Err(Refusal::TextFailed),
        Err(Fault::Memory) => return Err(Refusal::Memory),
    };
    statements_of(alloc, text.as_slice())
}
