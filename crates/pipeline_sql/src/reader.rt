//! The reader of a whole text.

ghost use Rattle.std.specs.Prelude.{◌≡◌, ◌⊎◌, ◌≤◌, List, length, IfOk, IfErr};
ghost use Rattle.sql_tree.specs.declared.statement.Statement.{Statement};
ghost use Rattle.sql_tokens.specs.declared.error.SqlRefusal.{SqlRefusal as SqlRefusals};
ghost use Rattle.sql_tokens.specs.Scanning.{max_text};
ghost use Rattle.pipeline_sql.specs.Read as spec;
ghost use Rattle.pipeline_sql.specs.Read.{IsRead, IsRefused};

use sql_lexemes::lexemes;
use sql_statements::{Refusal, read_tokens};
use sql_tokens::{SqlRefusal, Token, tokens};
use sql_tree::Statements;
use std::alloc::Global;

/// The first byte of the token at a place, or the end of the text.
fn start_of(text: &[u8], tokens: &[Token], place: usize) -> u32
    requires { length text.now ≤ max_text }
    ensures { result ≡ spec.start_of text.now tokens.now place }
{
    match tokens.get(place) {
        Some(token) => token.start,
        None => text.len() as u32,
    }
}

/// A refusal of tokens, as one of the text.
fn placed(text: &[u8], tokens: &[Token], refusal: Refusal) -> SqlRefusal
    requires { length text.now ≤ max_text }
    ensures { result ≡ spec.placed text.now tokens.now refusal }
{
    match refusal {
        Refusal::Memory => SqlRefusal::Memory,
        Refusal::Unexpected { at } => SqlRefusal::Unexpected {
            at: start_of(text, tokens, at),
        },
        Refusal::TooLong { at } => SqlRefusal::ExprTooLong {
            at: start_of(text, tokens, at),
        },
    }
}

/// The statements of a pipeline's text (Databricks SQL reference: CREATE STREAMING TABLE, CREATE MATERIALIZED VIEW,
/// CREATE FLOW, APPLY CHANGES INTO, SELECT). A text has at most 1 MiB and an outermost expression at most 512 tokens;
/// no text at all, or blanks and comments alone, has no statements. The first reason why a text is refused is answered:
/// its size, then the first byte that is not UTF-8, then the first byte at which no token begins or the first number that
/// is too large, then the first token that makes an expression too long or with which no pipeline goes on.
pub fn read(alloc: Global, text: &[u8]) -> Result<Statements, SqlRefusal>
    // What is read is the pipeline that the grammar derives from the tokens of the text.
    ensures read { IfOk result (λ statements. IsRead text.now statements) }
    ensures refused { IfErr result (λ refusal. (refusal ≡ SqlRefusal.Memory) ⊎ IsRefused text.now refusal) }
    // A text that the grammar reads is read, and one that is to be refused is refused so, unless memory runs out.
    ensures only_read { (statements : List Statement) → IsRead text.now statements
        → (result ≡ Ok statements) ⊎ (result ≡ Err SqlRefusal.Memory) }
    ensures only_refused { (refusal : SqlRefusals) → IsRefused text.now refusal
        → (result ≡ Err refusal) ⊎ (result ≡ Err SqlRefusal.Memory) }
{
    let tokens = match tokens(alloc, text) {
        Ok(tokens) => tokens,
        Err(refusal) => return Err(refusal),
    };
    let lexemes = lexemes(alloc, text, tokens.as_slice())?;
    match read_tokens(alloc, lexemes.as_slice()) {
        Ok(statements) => Ok(statements),
        Err(refusal) => Err(placed(text, tokens.as_slice(), refusal)),
    }
}
