//! Outermost expressions, within the limit.

ghost use Rattle.std.specs.Prelude.{◌≡◌, ◌<◌, List, length};
ghost use Rattle.sql_tree.specs.declared.expr.SqlExpr.{SqlExpr};
ghost use Rattle.sql_tree.specs.declared.lexeme.Lexeme.{Lexeme};
ghost use Rattle.sql_phrases.specs.Parsers.{Outcome as ExprOutcome, Gives as ExprGives};
ghost use Rattle.sql_statements.specs.Parsers.{Gives};
ghost use Rattle.sql_statements.specs.Limits as spec;
ghost use Rattle.sql_statements.specs.Limits.{max_tokens};

use crate::error::ParseError;
use sql_expr::expr;
use sql_phrases::{ReadError, Reader};
use sql_tree::SqlExpr;
use std::alloc::Global;

/// The most tokens of an outermost expression.
pub const MAX_TOKENS: usize = 512;

fn within(alloc: Global, reader: &mut Reader<'_>) -> Result<SqlExpr, ParseError>
    ensures { Gives (spec.within reader.old) result reader.new }
{
    let depth = reader.left();
    match expr(alloc, reader, depth, 1) {
        Ok(tree) => Ok(tree),
        Err(ReadError::Memory) => Err(ParseError::Memory),
        Err(ReadError::Unexpected) => Err(ParseError::Unexpected),
    }
}

/// What was read of a window of one more than the most tokens, of which so many are left.
fn past_limit(
    reader: &mut Reader<'_>,
    found: Result<SqlExpr, ReadError>,
    left: usize,
) -> Result<SqlExpr, ParseError>
    requires long { max_tokens < length reader.old }
    ensures { (rest : List Lexeme) (outcome : ExprOutcome SqlExpr) → length rest ≡ left → ExprGives outcome found rest
        → Gives (spec.past_limit reader.old outcome) result reader.new }
{
    if left == 0 {
        reader.advance(MAX_TOKENS);
        return Err(match found {
            Err(ReadError::Memory) => ParseError::Memory,
            _ => ParseError::TooLong,
        });
    }
    reader.advance((MAX_TOKENS + 1).saturating_sub(left));
    match found {
        Ok(tree) => Ok(tree),
        Err(ReadError::Memory) => Err(ParseError::Memory),
        Err(ReadError::Unexpected) => Err(ParseError::Unexpected),
    }
}

/// An expression of at most `MAX_TOKENS` tokens. A window of one more tells whether it is longer.
#[tactic(auto, unfolding(crate::specs::Limits::limited))]
pub fn outermost(alloc: Global, reader: &mut Reader<'_>) -> Result<SqlExpr, ParseError>
    ensures { Gives (spec.limited reader.old) result reader.new }
{
    if reader.left() <= MAX_TOKENS {
        return within(alloc, reader);
    }
    let mut window = reader.window(MAX_TOKENS + 1);
    let found = expr(alloc, &mut window, MAX_TOKENS + 1, 1);
    let left = window.left();
    past_limit(reader, found, left)
}
