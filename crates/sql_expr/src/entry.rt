//! Expressions from tokens.

ghost use Rattle.std.specs.Prelude.{◌≡◌, ◌⊎◌, ℕ, List, IfOk};
ghost use Rattle.sql_tree.specs.Print.{expr_print};
ghost use Rattle.sql_tree.specs.declared.lexeme.Lexeme.{Lexeme};
ghost use Rattle.sql_tree.specs.declared.expr.SqlExpr.{SqlExpr};
ghost use Rattle.sql_expr.specs.Grammar.{IsExpr, IsUnexpected};
ghost use Rattle.sql_expr.specs.Descent as descent;

use crate::error::Refusal;
use crate::grammar::expr;
use sql_phrases::{ReadError, Reader};
use sql_tree::{Lexeme, SqlExpr};
use std::alloc::Global;

#[tactic(auto, unfolding(crate::specs::Descent::whole))]
fn whole(alloc: Global, tokens: &[Lexeme]) -> Result<SqlExpr, Refusal>
    ensures { descent.IsPlaced (descent.whole tokens.now) result }
{
    let mut reader = Reader::new(tokens);
    let found = expr(alloc, &mut reader, tokens.len(), 1);
    let left = reader.left();
    let at = tokens.len().saturating_sub(left);
    match found {
        Ok(tree) if left == 0 => Ok(tree),
        Err(ReadError::Memory) => Err(Refusal::Memory),
        _ => Err(Refusal::Unexpected { at }),
    }
}

/// Reads all of the tokens as one expression, however many they are. What limits an expression of a pipeline is the
/// reader of pipelines.
pub fn read(alloc: Global, tokens: &[Lexeme]) -> Result<SqlExpr, Refusal>
    // What is read is an expression of the grammar.
    ensures ok { IfOk result (λ x. IsExpr tokens.now x) }
    // An expression has one tree, and is read unless memory runs out.
    ensures only { (x : SqlExpr) → IsExpr tokens.now x → (result ≡ Ok x) ⊎ (result ≡ Err Refusal.Memory) }
    ensures unexpected { (at : ℕ) → result ≡ Err (Refusal.Unexpected at) → IsUnexpected tokens.now at }
{
    whole(alloc, tokens)
}

/// Each tree that the grammar gives is the one tree of its print, and so no two of them print alike.
pub fn print_is_read()
    ensures read { (tokens : List Lexeme) (x : SqlExpr) → IsExpr tokens x → IsExpr (expr_print x) x }
    ensures one { (tokens : List Lexeme) (x y : SqlExpr) → IsExpr tokens x → IsExpr tokens y → x ≡ y }
    ensures apart { (v w : List Lexeme) (x y : SqlExpr) → IsExpr v x → IsExpr w y → expr_print x ≡ expr_print y → x ≡ y }
{}
