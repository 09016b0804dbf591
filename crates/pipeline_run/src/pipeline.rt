// The text of a pipeline.
ghost use Rattle.std.specs.Prelude.{◌≡◌, ◌≤◌, ◌<◌, ◌+◌, ℕ, List, [], ◌++◌, length, take, OnOk, IfOk, IfErr};
ghost use Rattle.disk_model.specs.Faults.{HasCauseOf};
ghost use Rattle.disk_model.specs.Streams.{TakesNext};
ghost use Rattle.pipeline_run.specs.Pipeline.{text_limit, HasStatements, Knows, IsCauseOf};

use disk_model::{Failed, Source};
use pipeline_sql::read;
use sql_tokens::SqlRefusal;
use sql_tree::Statements;
use std::alloc::{AllocError, Global};

/// How much of a text is read at most: one byte more than it may have.
const TEXT_LIMIT: usize = 1_048_577;

/// Why something wasn't read or written: the outside failed, or memory ran out.
#[derive(Clone, Copy, Debug, PartialEq, Eq)]
pub(crate) enum Fault {
    Failed,
    Memory,
}

impl From<AllocError> for Fault {
    ghost use Rattle.std.specs.Prelude.{◌≡◌};
    ghost use Rattle.pipeline_run.specs.declared.pipeline.Fault.TheVariants.{Memory};

    ghost from_gives = { λ _ e. e ≡ Memory };

    fn from(_e: AllocError) -> Fault {
        Fault::Memory
    }
}

impl From<Failed> for Fault {
    ghost use Rattle.std.specs.Prelude.{◌≡◌};
    ghost use Rattle.pipeline_run.specs.declared.pipeline.Fault.TheVariants.{Failed};

    ghost from_gives = { λ _ e. e ≡ Failed };

    fn from(_e: Failed) -> Fault {
        Fault::Failed
    }
}

/// Reads one piece and adds it to the text: how long it was.
fn read_piece<T: Source>(
    source: &mut T,
    text: &mut Vec<u8>,
    piece: &mut [u8],
) -> Result<usize, Fault>
    ensures bound { IfOk result (λ n. n ≤ length piece.old) }
    ensures len { IfOk result (λ n. length text.new.items ≡ length text.old.items + n) }
    ensures text { T.tells → OnOk result (text.new.items ++ T.left source.new ≡ text.old.items ++ T.left source.old) }
    ensures last { T.tells → IfOk result (λ n. n ≡ 0 → 0 < length piece.old → T.left source.new ≡ []) }
    ensures amount { T.tells → length (T.left source.old) ≤ length (T.left source.new) + length piece.old }
    ensures cause { HasCauseOf Fault.Failed (T.faults source.old) (T.faults source.new) result }
{
    let count = source.read(piece)?;
    text.extend_from_slice(&piece[..count])?;
    Ok(count)
}

/// The whole text that a source has left, up to the limit.
fn read_text<T: Source>(alloc: Global, source: &mut T) -> Result<Vec<u8>, Fault>
    ensures text { T.tells → IfOk result (λ text. text.items ≡ take text_limit (T.left source.old)) }
    ensures amount { T.tells → length (T.left source.old) ≤ length (T.left source.new) + text_limit }
    ensures cause { HasCauseOf Fault.Failed (T.faults source.old) (T.faults source.new) result }
{
    let mut text = Vec::new(alloc);
    let mut piece = [0u8; 4096];
    while text.len() < TEXT_LIMIT {
        let wanted = (TEXT_LIMIT - text.len()).min(4096);
        if read_piece(source, &mut text, &mut piece[..wanted])? == 0 {
            break;
        }
    }
    Ok(text)
}

/// Why a pipeline has no statements: its text couldn't be read, or is refused.
#[derive(Clone, Copy, Debug, PartialEq, Eq)]
pub(crate) enum Unread {
    Failed,
    Refused(SqlRefusal),
}

/// The statements of the text that a source has left.
#[tactic(auto, unfolding(crate::specs::Pipeline::HasStatements))]
fn read_statements<T: Source>(alloc: Global, source: &mut T) -> Result<Statements, Unread>
    ensures statements { T.tells → IfOk result (λ statements. HasStatements (T.left source.old) statements) }
    ensures err { T.tells → IfErr result (IsCauseOf (T.left source.old)) }
    ensures amount { T.tells → length (T.left source.old) ≤ length (T.left source.new) + text_limit }
    ensures cause { HasCauseOf Unread.Failed (T.faults source.old) (T.faults source.new) result }
{
    let text = match read_text(alloc, source) {
        Ok(text) => text,
        Err(Fault::Failed) => return Err(Unread::Failed),
        Err(Fault::Memory) => return Err(Unread::Refused(SqlRefusal::Memory)),
    };
    read(alloc, text.as_slice()).map_err(Unread::Refused)
}

/// The statements of a run's text. It is read where they aren't known yet.
pub(crate) fn statements<T: Source>(
    alloc: Global,
    source: &mut T,
    known: Option<Statements>,
) -> Result<Statements, Unread>
    // Whatever the text of the run is.
    ensures statements { T.tells → (text : List ℕ) → Knows text known (T.left source.old) → IfOk result (λ statements. HasStatements text statements) }
    ensures err { T.tells → (text : List ℕ) → Knows text known (T.left source.old) → IfErr result (IsCauseOf text) }
    ensures amount { T.tells → (text : List ℕ) → Knows text known (T.left source.old) → length text ≤ length (T.left source.old) + text_limit → length text ≤ length (T.left source.new) + text_limit }
    ensures cause { HasCauseOf Unread.Failed (T.faults source.old) (T.faults source.new) result }
{
    match known {
        Some(statements) => Ok(statements),
        None => read_statements(alloc, source),
    }
}
