//! The code of an expression: expressions that are the same have one code.

ghost use Rattle.std.specs.Prelude.{◌≡◌, ◌++◌, List, ℕ, map};
ghost use Rattle.value_core.specs.NameFold.{folded};
ghost use Rattle.tree_equality.specs.TreeCodes.{Spells};
ghost use Rattle.tree_equality.specs.TreeCodes as spec;

use sql_tree::{SqlArm, SqlExpr, SqlOp, SqlType};
use std::alloc::{AllocError, Global};
use value_core::{ListOf, Numbers};

/// A code so far.
type Coded = Result<Numbers, AllocError>;

fn bit(truth: bool) -> u64
    ensures { result ≡ spec.bit truth }
{
    if truth { 1 } else { 0 }
}

fn operator_number(op: SqlOp) -> u64
    ensures { result ≡ spec.operator_number op }
{
    match op {
        SqlOp::Or => 0,
        SqlOp::And => 1,
        SqlOp::Eq => 2,
        SqlOp::Ne => 3,
        SqlOp::Lt => 4,
        SqlOp::Le => 5,
        SqlOp::Gt => 6,
        SqlOp::Ge => 7,
        SqlOp::Add => 8,
        SqlOp::Sub => 9,
        SqlOp::Concat => 10,
        SqlOp::Mul => 11,
        SqlOp::Div => 12,
        SqlOp::Rem => 13,
    }
}

fn type_number(kind: SqlType) -> u64
    ensures { result ≡ spec.type_number kind }
{
    match kind {
        SqlType::Bool => 0,
        SqlType::Int => 1,
        SqlType::Big => 2,
        SqlType::Str => 3,
    }
}

fn put(code: Coded, number: u64) -> Coded
    ensures { (before : List ℕ) → Spells code before → Spells result (spec.put before number) }
{
    let mut code = code?;
    code.push(number)?;
    Ok(code)
}

fn put_two(code: Coded, first: u64, second: u64) -> Coded
    ensures { (before : List ℕ) → Spells code before → Spells result (spec.put (spec.put before first) second) }
{
    put(put(code, first), second)
}

fn put_number(code: Coded, number: i64) -> Coded
    ensures { (before : List ℕ) → Spells code before → Spells result (spec.put_number number before) }
{
    if number < 0 {
        put_two(code, number.unsigned_abs(), 1)
    } else {
        put_two(code, number.unsigned_abs(), 0)
    }
}

fn put_bytes(code: Coded, text: &[u8]) -> Coded
    ensures { (before : List ℕ) → Spells code before → Spells result (before ++ text.now) }
{
    let mut code = code?;
    for byte in text {
        code.push(*byte as u64)?;
    }
    Ok(code)
}

fn put_folded_bytes(code: Coded, text: &[u8]) -> Coded
    ensures { (before : List ℕ) → Spells code before → Spells result (before ++ folded text.now) }
{
    let mut code = code?;
    for byte in text {
        code.push(byte.to_ascii_lowercase() as u64)?;
    }
    Ok(code)
}

fn put_text(code: Coded, text: &str) -> Coded
    ensures { (before : List ℕ) → Spells code before → Spells result (spec.put_text text.now before) }
{
    put(put_bytes(code, text.as_bytes()), text.len() as u64)
}

fn put_name(code: Coded, name: &str) -> Coded
    ensures { (before : List ℕ) → Spells code before → Spells result (spec.put_text (folded name.now) before) }
{
    put(put_folded_bytes(code, name.as_bytes()), name.len() as u64)
}

/// The code of an expression behind a code.
#[cycle(code)]
fn code_behind(code: Coded, tree: &SqlExpr) -> Coded
    ensures { (before : List ℕ) → Spells code before → Spells result (spec.code_behind tree.now before) }
{
    match tree {
        SqlExpr::Number(number) => put(put_number(code, *number), 0),
        SqlExpr::Str(text) => put(put_text(code, text.as_str()), 1),
        SqlExpr::Bool(truth) => put_two(code, bit(*truth), 2),
        SqlExpr::Null => put(code, 3),
        SqlExpr::Name(name) => put(put_name(code, name.as_str()), 4),
        SqlExpr::Neg(a) => put(code_behind(code, a.get()), 5),
        SqlExpr::Not(a) => put(code_behind(code, a.get()), 6),
        SqlExpr::Binary { op, left, right } => put_two(
            code_behind(code_behind(code, left.get()), right.get()),
            operator_number(*op),
            7,
        ),
        SqlExpr::IsNull { expr: a, negated } => {
            put_two(code_behind(code, a.get()), bit(*negated), 8)
        }
        SqlExpr::InList {
            expr: a,
            list,
            negated,
        } => put_two(
            put_list(code_behind(code, a.get()), list.as_slice()),
            bit(*negated),
            9,
        ),
        SqlExpr::Between {
            expr: a,
            low,
            high,
            negated,
        } => put_two(
            code_behind(
                code_behind(code_behind(code, a.get()), low.get()),
                high.get(),
            ),
            bit(*negated),
            10,
        ),
        SqlExpr::Case { arms, other } => match other {
            None => put_two(put_arms(code, arms.as_slice()), 0, 11),
            Some(x) => put_two(code_behind(put_arms(code, arms.as_slice()), x.get()), 1, 11),
        },
        SqlExpr::Cast {
            expr: a,
            kind,
            trying,
        } => put_two(
            put(code_behind(code, a.get()), type_number(*kind)),
            bit(*trying),
            12,
        ),
        SqlExpr::Coalesce(list) => put(put_list(code, list.as_slice()), 13),
        SqlExpr::CountAll => put(code, 14),
        SqlExpr::Count(a) => put(code_behind(code, a.get()), 15),
        SqlExpr::Sum(a) => put(code_behind(code, a.get()), 16),
        SqlExpr::Min(a) => put(code_behind(code, a.get()), 17),
        SqlExpr::Max(a) => put(code_behind(code, a.get()), 18),
    }
}

#[cycle(code)]
fn put_list(code: Coded, list: &[SqlExpr]) -> Coded
    ensures { (before : List ℕ) → Spells code before → Spells result (spec.put_list (map spec.code_behind list.now) before) }
{
    let mut code = code;
    for tree in list {
        code = code_behind(code, tree);
    }
    put(code, list.len() as u64)
}

#[cycle(code)]
fn put_arms(code: Coded, arms: &[SqlArm]) -> Coded
    ensures { (before : List ℕ) → Spells code before → Spells result (spec.put_list (map spec.arm_code_behind arms.now) before) }
{
    let mut code = code;
    for arm in arms {
        code = code_behind(code_behind(code, &arm.when), &arm.then);
    }
    put(code, arms.len() as u64)
}

/// The code of an expression. Fails for want of memory alone.
#[tactic(auto, unfolding(crate::specs::TreeCodes::tree_code))]
pub fn tree_code(alloc: Global, tree: &SqlExpr) -> Result<Numbers, AllocError>
    ensures { Spells result (spec.tree_code tree.now) }
{
    code_behind(Ok(ListOf::new(alloc)), tree)
}
