//! Whole pipelines.

ghost use Rattle.std.specs.Prelude.{◌≡◌, ◌⊎◌, List, length, IfOk, IfErr};
ghost use Rattle.sql_tree.specs.declared.statement.Statement.{Statement};
ghost use Rattle.sql_statements.specs.Parsers.{Gives};
ghost use Rattle.sql_statements.specs.Limits.{AreTokens, limited};
ghost use Rattle.sql_statements.specs.Descent as spec;
ghost use Rattle.sql_statements.specs.Pipelines as pipelines;
ghost use Rattle.sql_statements.specs.Pipelines.{IsShortPipeline, IsRefused};
ghost use Rattle.sql_statements.specs.declared.error.Refusal.{Refusal as Refusals};

use crate::error::{ParseError, Refusal};
use crate::statement::statement;
use sql_phrases::Reader;
use sql_tree::{Lexeme, LexemeKind, Statements};
use std::alloc::Global;

/// Goes on with statements behind semicolons. The last semicolon may stand at the end.
fn more_statements(
    alloc: Global,
    reader: &mut Reader<'_>,
    first: Statements,
) -> Result<Statements, ParseError>
    ensures { Gives (spec.statements_from limited (length reader.old) first reader.old) result reader.new }
{
    let mut found = first;
    for _turn in 0..reader.left() {
        if !reader.eat(LexemeKind::Semicolon) {
            return Ok(found);
        }
        if reader.sees(LexemeKind::End) {
            return Ok(found);
        }
        found.push(statement(alloc, reader)?)?;
    }
    Ok(found)
}

#[tactic(auto, unfolding(crate::specs::Descent::first_statements))]
fn first_statements(alloc: Global, reader: &mut Reader<'_>) -> Result<Statements, ParseError>
    ensures { Gives (spec.first_statements limited reader.old) result reader.new }
{
    let first = statement(alloc, reader)?;
    let mut found = Statements::new(alloc);
    found.push(first)?;
    more_statements(alloc, reader, found)
}

#[tactic(auto, unfolding(crate::specs::Descent::pipeline))]
fn pipeline(alloc: Global, reader: &mut Reader<'_>) -> Result<Statements, ParseError>
    ensures { Gives (spec.pipeline limited reader.old) result reader.new }
{
    if reader.sees(LexemeKind::End) {
        return Ok(Statements::new(alloc));
    }
    first_statements(alloc, reader)
}

#[tactic(auto, unfolding(crate::specs::Pipelines::whole))]
fn whole(alloc: Global, tokens: &[Lexeme]) -> Result<Statements, Refusal>
    ensures { pipelines.IsAnswer (pipelines.whole tokens.now) result }
{
    let mut reader = Reader::new(tokens);
    let found = pipeline(alloc, &mut reader);
    let left = reader.left();
    let at = tokens.len().saturating_sub(left);
    match found {
        Ok(statements) if left == 0 => Ok(statements),
        Ok(_) | Err(ParseError::Unexpected) => Err(Refusal::Unexpected { at }),
        Err(ParseError::TooLong) => Err(Refusal::TooLong { at }),
        Err(ParseError::Memory) => Err(Refusal::Memory),
    }
}

/// Reads all of the tokens as a pipeline. The first token that is refused is the one that goes on an outermost expression
/// past `MAX_TOKENS`, or the one with which no pipeline begins, whichever comes first.
pub fn read_tokens(alloc: Global, tokens: &[Lexeme]) -> Result<Statements, Refusal>
    // What is read is the pipeline of the grammar, with no outermost expression past the limit.
    ensures ok { IfOk result (λ p. IsShortPipeline tokens.now p) }
    // Such tokens have one list of statements, and are read unless memory runs out.
    ensures only { (p : List Statement) → IsShortPipeline tokens.now p → (result ≡ Ok p) ⊎ (result ≡ Err Refusal.Memory) }
    ensures refused { AreTokens tokens.now → IfErr result (λ refusal. (refusal ≡ Refusal.Memory) ⊎ IsRefused tokens.now refusal) }
    // Tokens that are to be refused are refused so, unless memory runs out.
    ensures only_refused { (refusal : Refusals) → AreTokens tokens.now → IsRefused tokens.now refusal
        → (result ≡ Err refusal) ⊎ (result ≡ Err Refusal.Memory) }
{
    whole(alloc, tokens)
}
