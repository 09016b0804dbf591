//! The rules that hold expressions take the reader of those as a parameter, so that each is proved by itself.

ghost use Rattle.std.specs.Prelude.{◌≡◌, length, IfOk};
ghost use Rattle.sql_expr.specs.Operators as operators;
ghost use Rattle.sql_expr.specs.Descent as spec;
ghost use Rattle.sql_phrases.specs.Parsers.{Gives};
ghost use Rattle.sql_expr.specs.Nests.{Nests};

use crate::operators::{Function, binds, call_at, negated, operator};
use sql_phrases::{ReadError, Reader};
use sql_tree::{LexemeKind, SqlArm, SqlExpr, SqlOp};
use sqlite_items::{Boxed, Items};
use std::alloc::{AllocError, Global};

fn binary(alloc: Global, op: SqlOp, left: SqlExpr, right: SqlExpr) -> Result<SqlExpr, AllocError>
    ensures { IfOk result (λ e. e ≡ SqlExpr.Binary op left right) }
{
    Ok(SqlExpr::Binary {
        op,
        left: Boxed::new(alloc, left)?,
        right: Boxed::new(alloc, right)?,
    })
}

#[tactic(auto, unfolding(crate::specs::Descent::number))]
fn number(reader: &mut Reader<'_>) -> Result<SqlExpr, ReadError>
    ensures { Gives (spec.number reader.old) result reader.new }
{
    let value = reader.value();
    if value > i64::MAX as u64 {
        return Err(ReadError::Unexpected);
    }
    reader.skip();
    Ok(SqlExpr::Number(value as i64))
}

#[tactic(auto, unfolding(crate::specs::Descent::negative))]
fn negative(reader: &mut Reader<'_>) -> Result<SqlExpr, ReadError>
    ensures { Gives (spec.negative reader.old) result reader.new }
{
    let value = reader.value();
    if value > 1 << 63 {
        return Err(ReadError::Unexpected);
    }
    reader.skip();
    Ok(SqlExpr::Number(negated(value)))
}

fn start_level(kind: LexemeKind) -> u8
    ensures { result ≡ spec.start_level kind }
{
    match kind {
        LexemeKind::Not => 3,
        _ => 8,
    }
}

/// The level of what an operator of this tightness makes: a test doesn't go on as one.
fn made(binds: u8) -> u8
    ensures { result ≡ operators.made binds }
{
    if binds == 5 { 4 } else { binds }
}

/// A reader of expressions, over a reader of the expressions that nest in them.
#[derive(Clone, Copy)]
pub struct Grammar<F> {
    pub alloc: Global,
    /// How deep expressions may still nest.
    pub depth: usize,
    pub expr: F,
}

impl<F: Fn(Global, &mut Reader<'_>, usize, u8) -> Result<SqlExpr, ReadError>> Grammar<F> {
    fn expr(&self, reader: &mut Reader<'_>, least: u8) -> Result<SqlExpr, ReadError>
        requires { Nests self.now.depth (F.pre self.now.expr) (F.post self.now.expr) }
        ensures { Gives (spec.expr self.now.depth least reader.old) result reader.new }
    {
        (self.expr)(self.alloc, reader, self.depth, least)
    }

    #[tactic(auto, unfolding(crate::specs::Descent::parenthesized))]
    fn parenthesized(&self, reader: &mut Reader<'_>) -> Result<SqlExpr, ReadError>
        requires { Nests self.now.depth (F.pre self.now.expr) (F.post self.now.expr) }
        ensures { Gives (spec.parenthesized (spec.expr self.now.depth) reader.old) result reader.new }
    {
        let inner = self.expr(reader, 1)?;
        reader.expect(LexemeKind::RParen)?;
        Ok(inner)
    }

    #[tactic(auto, unfolding(crate::specs::Descent::list))]
    fn list(&self, reader: &mut Reader<'_>) -> Result<Items<SqlExpr>, ReadError>
        requires { Nests self.now.depth (F.pre self.now.expr) (F.post self.now.expr) }
        ensures { Gives (spec.list (spec.expr self.now.depth) reader.old) result reader.new }
    {
        let mut found = Items::new(self.alloc);
        for _turn in 0..reader.left() {
            found.push(self.expr(reader, 1)?)?;
            if !reader.eat(LexemeKind::Comma) {
                return Ok(found);
            }
        }
        Err(ReadError::Unexpected)
    }

    #[tactic(auto, unfolding(crate::specs::Descent::list_in_parens))]
    fn list_in_parens(&self, reader: &mut Reader<'_>) -> Result<Items<SqlExpr>, ReadError>
        requires { Nests self.now.depth (F.pre self.now.expr) (F.post self.now.expr) }
        ensures { Gives (spec.list_in_parens (spec.expr self.now.depth) reader.old) result reader.new }
    {
        reader.expect(LexemeKind::LParen)?;
        let found = self.list(reader)?;
        reader.expect(LexemeKind::RParen)?;
        Ok(found)
    }

    #[tactic(auto, unfolding(crate::specs::Descent::minus))]
    fn minus(&self, reader: &mut Reader<'_>) -> Result<SqlExpr, ReadError>
        requires { Nests self.now.depth (F.pre self.now.expr) (F.post self.now.expr) }
        ensures { Gives (spec.minus (spec.expr self.now.depth) reader.old) result reader.new }
    {
        if reader.sees(LexemeKind::Number) {
            return negative(reader);
        }
        let operand = self.expr(reader, 8)?;
        Ok(SqlExpr::Neg(Boxed::new(self.alloc, operand)?))
    }

    #[tactic(auto, unfolding(crate::specs::Descent::one_arm))]
    fn one_arm(&self, reader: &mut Reader<'_>) -> Result<SqlArm, ReadError>
        requires { Nests self.now.depth (F.pre self.now.expr) (F.post self.now.expr) }
        ensures { Gives (spec.one_arm (spec.expr self.now.depth) reader.old) result reader.new }
    {
        reader.expect(LexemeKind::When)?;
        let when = self.expr(reader, 1)?;
        reader.expect(LexemeKind::Then)?;
        let then = self.expr(reader, 1)?;
        Ok(SqlArm { when, then })
    }

    #[tactic(auto, unfolding(crate::specs::Descent::arms))]
    fn arms(&self, reader: &mut Reader<'_>) -> Result<Items<SqlArm>, ReadError>
        requires { Nests self.now.depth (F.pre self.now.expr) (F.post self.now.expr) }
        ensures { Gives (spec.arms (spec.expr self.now.depth) reader.old) result reader.new }
    {
        let mut found = Items::new(self.alloc);
        for _turn in 0..reader.left() {
            found.push(self.one_arm(reader)?)?;
            if !reader.sees(LexemeKind::When) {
                return Ok(found);
            }
        }
        Err(ReadError::Unexpected)
    }

    #[tactic(auto, unfolding(crate::specs::Descent::else_part))]
    fn else_part(&self, reader: &mut Reader<'_>) -> Result<Option<Boxed<SqlExpr>>, ReadError>
        requires { Nests self.now.depth (F.pre self.now.expr) (F.post self.now.expr) }
        ensures { Gives (spec.else_part (spec.expr self.now.depth) reader.old) result reader.new }
    {
        if !reader.eat(LexemeKind::Else) {
            return Ok(None);
        }
        let other = self.expr(reader, 1)?;
        Ok(Some(Boxed::new(self.alloc, other)?))
    }

    #[tactic(auto, unfolding(crate::specs::Descent::case))]
    fn case(&self, reader: &mut Reader<'_>) -> Result<SqlExpr, ReadError>
        requires { Nests self.now.depth (F.pre self.now.expr) (F.post self.now.expr) }
        ensures { Gives (spec.case (spec.expr self.now.depth) reader.old) result reader.new }
    {
        let arms = self.arms(reader)?;
        let other = self.else_part(reader)?;
        reader.expect(LexemeKind::EndWord)?;
        Ok(SqlExpr::Case { arms, other })
    }

    #[tactic(auto, unfolding(crate::specs::Descent::cast))]
    fn cast(&self, reader: &mut Reader<'_>, trying: bool) -> Result<SqlExpr, ReadError>
        requires { Nests self.now.depth (F.pre self.now.expr) (F.post self.now.expr) }
        ensures { Gives (spec.cast (spec.expr self.now.depth) trying reader.old) result reader.new }
    {
        reader.expect(LexemeKind::LParen)?;
        let expr = Boxed::new(self.alloc, self.expr(reader, 1)?)?;
        reader.expect(LexemeKind::As)?;
        let kind = reader.type_name()?;
        reader.expect(LexemeKind::RParen)?;
        Ok(SqlExpr::Cast { expr, kind, trying })
    }

    #[tactic(auto, unfolding(crate::specs::Descent::one_in_parens))]
    fn one_in_parens(&self, reader: &mut Reader<'_>) -> Result<SqlExpr, ReadError>
        requires { Nests self.now.depth (F.pre self.now.expr) (F.post self.now.expr) }
        ensures { Gives (spec.one_in_parens (spec.expr self.now.depth) reader.old) result reader.new }
    {
        reader.expect(LexemeKind::LParen)?;
        let inner = self.expr(reader, 1)?;
        reader.expect(LexemeKind::RParen)?;
        Ok(inner)
    }

    #[tactic(auto, unfolding(crate::specs::Descent::counted))]
    fn counted(&self, reader: &mut Reader<'_>) -> Result<SqlExpr, ReadError>
        requires { Nests self.now.depth (F.pre self.now.expr) (F.post self.now.expr) }
        ensures { Gives (spec.counted (spec.expr self.now.depth) reader.old) result reader.new }
    {
        reader.expect(LexemeKind::LParen)?;
        if reader.eat(LexemeKind::Star) {
            reader.expect(LexemeKind::RParen)?;
            return Ok(SqlExpr::CountAll);
        }
        let inner = self.expr(reader, 1)?;
        reader.expect(LexemeKind::RParen)?;
        Ok(SqlExpr::Count(Boxed::new(self.alloc, inner)?))
    }

    fn name(&self, reader: &mut Reader<'_>) -> Result<SqlExpr, ReadError>
        ensures { Gives (spec.name reader.old) result reader.new }
    {
        let name = reader.name(self.alloc)?;
        reader.skip();
        Ok(SqlExpr::Name(name))
    }

    #[tactic(auto, unfolding(crate::specs::Descent::named))]
    fn named(&self, reader: &mut Reader<'_>) -> Result<SqlExpr, ReadError>
        requires { Nests self.now.depth (F.pre self.now.expr) (F.post self.now.expr) }
        ensures { Gives (spec.named (spec.expr self.now.depth) reader.old) result reader.new }
    {
        let Some(function) = call_at(reader) else {
            return self.name(reader);
        };
        reader.skip();
        match function {
            Function::Coalesce => Ok(SqlExpr::Coalesce(self.list_in_parens(reader)?)),
            Function::Count => self.counted(reader),
            Function::Sum => {
                let inner = self.one_in_parens(reader)?;
                Ok(SqlExpr::Sum(Boxed::new(self.alloc, inner)?))
            }
            Function::Min => {
                let inner = self.one_in_parens(reader)?;
                Ok(SqlExpr::Min(Boxed::new(self.alloc, inner)?))
            }
            Function::Max => {
                let inner = self.one_in_parens(reader)?;
                Ok(SqlExpr::Max(Boxed::new(self.alloc, inner)?))
            }
        }
    }

    #[tactic(auto, unfolding(crate::specs::Descent::negation))]
    fn negation(&self, reader: &mut Reader<'_>, least: u8) -> Result<SqlExpr, ReadError>
        requires { Nests self.now.depth (F.pre self.now.expr) (F.post self.now.expr) }
        ensures { Gives (spec.negation (spec.expr self.now.depth) least reader.old) result reader.new }
    {
        if least > 3 {
            return Err(ReadError::Unexpected);
        }
        reader.skip();
        let operand = self.expr(reader, 3)?;
        Ok(SqlExpr::Not(Boxed::new(self.alloc, operand)?))
    }

    #[tactic(auto, unfolding(crate::specs::Descent::prefix))]
    fn prefix(&self, reader: &mut Reader<'_>, least: u8) -> Result<SqlExpr, ReadError>
        requires { Nests self.now.depth (F.pre self.now.expr) (F.post self.now.expr) }
        ensures { Gives (spec.prefix (spec.expr self.now.depth) least reader.old) result reader.new }
    {
        match reader.peek() {
            LexemeKind::Number => number(reader),
            LexemeKind::Str => {
                let text = reader.text(self.alloc)?;
                reader.skip();
                Ok(SqlExpr::Str(text))
            }
            LexemeKind::True => {
                reader.skip();
                Ok(SqlExpr::Bool(true))
            }
            LexemeKind::False => {
                reader.skip();
                Ok(SqlExpr::Bool(false))
            }
            LexemeKind::Null => {
                reader.skip();
                Ok(SqlExpr::Null)
            }
            LexemeKind::Word => self.named(reader),
            LexemeKind::Quoted => self.name(reader),
            LexemeKind::LParen => {
                reader.skip();
                self.parenthesized(reader)
            }
            LexemeKind::Minus => {
                reader.skip();
                self.minus(reader)
            }
            LexemeKind::Plus => {
                reader.skip();
                self.expr(reader, 8)
            }
            LexemeKind::Not => self.negation(reader, least),
            LexemeKind::Cast => {
                reader.skip();
                self.cast(reader, false)
            }
            LexemeKind::TryCast => {
                reader.skip();
                self.cast(reader, true)
            }
            LexemeKind::Case => {
                reader.skip();
                self.case(reader)
            }
            _ => Err(ReadError::Unexpected),
        }
    }

    #[tactic(auto, unfolding(crate::specs::Descent::is_null))]
    fn is_null(&self, reader: &mut Reader<'_>, left: SqlExpr) -> Result<SqlExpr, ReadError>
        ensures { Gives (spec.is_null (spec.expr self.now.depth) left reader.old) result reader.new }
    {
        let negated = reader.eat(LexemeKind::Not);
        reader.expect(LexemeKind::Null)?;
        let expr = Boxed::new(self.alloc, left)?;
        Ok(SqlExpr::IsNull { expr, negated })
    }

    #[tactic(auto, unfolding(crate::specs::Descent::in_list))]
    fn in_list(
        &self,
        reader: &mut Reader<'_>,
        left: SqlExpr,
        negated: bool,
    ) -> Result<SqlExpr, ReadError>
        requires { Nests self.now.depth (F.pre self.now.expr) (F.post self.now.expr) }
        ensures { Gives (spec.in_list (spec.expr self.now.depth) left negated reader.old) result reader.new }
    {
        let list = self.list_in_parens(reader)?;
        let expr = Boxed::new(self.alloc, left)?;
        Ok(SqlExpr::InList {
            expr,
            list,
            negated,
        })
    }

    #[tactic(auto, unfolding(crate::specs::Descent::between))]
    fn between(
        &self,
        reader: &mut Reader<'_>,
        left: SqlExpr,
        negated: bool,
    ) -> Result<SqlExpr, ReadError>
        requires { Nests self.now.depth (F.pre self.now.expr) (F.post self.now.expr) }
        ensures { Gives (spec.between (spec.expr self.now.depth) left negated reader.old) result reader.new }
    {
        let low = Boxed::new(self.alloc, self.expr(reader, 6)?)?;
        reader.expect(LexemeKind::And)?;
        let high = Boxed::new(self.alloc, self.expr(reader, 6)?)?;
        let expr = Boxed::new(self.alloc, left)?;
        Ok(SqlExpr::Between {
            expr,
            low,
            high,
            negated,
        })
    }

    #[tactic(auto, unfolding(crate::specs::Descent::negated_test))]
    fn negated_test(&self, reader: &mut Reader<'_>, left: SqlExpr) -> Result<SqlExpr, ReadError>
        requires { Nests self.now.depth (F.pre self.now.expr) (F.post self.now.expr) }
        ensures { Gives (spec.negated_test (spec.expr self.now.depth) left reader.old) result reader.new }
    {
        match reader.peek() {
            LexemeKind::In => {
                reader.skip();
                self.in_list(reader, left, true)
            }
            LexemeKind::Between => {
                reader.skip();
                self.between(reader, left, true)
            }
            _ => Err(ReadError::Unexpected),
        }
    }

    fn operated(
        &self,
        reader: &mut Reader<'_>,
        left: SqlExpr,
        kind: LexemeKind,
    ) -> Result<SqlExpr, ReadError>
        requires { Nests self.now.depth (F.pre self.now.expr) (F.post self.now.expr) }
        ensures { Gives (spec.operated (spec.expr self.now.depth) left (operators.binds kind) (operators.operator kind) reader.old) result reader.new }
    {
        let Some(op) = operator(kind) else {
            return Err(ReadError::Unexpected);
        };
        reader.skip();
        let right = self.expr(reader, binds(kind) + 1)?;
        Ok(binary(self.alloc, op, left, right)?)
    }

    #[tactic(auto, unfolding(crate::specs::Descent::operation))]
    fn operation(&self, reader: &mut Reader<'_>, left: SqlExpr) -> Result<SqlExpr, ReadError>
        requires { Nests self.now.depth (F.pre self.now.expr) (F.post self.now.expr) }
        ensures { Gives (spec.operation (spec.expr self.now.depth) left reader.old) result reader.new }
    {
        match reader.peek() {
            LexemeKind::Is => {
                reader.skip();
                self.is_null(reader, left)
            }
            LexemeKind::Not => {
                reader.skip();
                self.negated_test(reader, left)
            }
            LexemeKind::In => {
                reader.skip();
                self.in_list(reader, left, false)
            }
            LexemeKind::Between => {
                reader.skip();
                self.between(reader, left, false)
            }
            kind => self.operated(reader, left, kind),
        }
    }

    fn climb(
        &self,
        reader: &mut Reader<'_>,
        least: u8,
        start: u8,
        first: SqlExpr,
    ) -> Result<SqlExpr, ReadError>
        requires { Nests self.now.depth (F.pre self.now.expr) (F.post self.now.expr) }
        ensures { Gives (spec.climb (spec.expr self.now.depth) (length reader.old) least start first reader.old) result reader.new }
    {
        let mut left = first;
        let mut level = start;
        for _turn in 0..reader.left() {
            let binds = binds(reader.peek());
            if binds < least {
                return Ok(left);
            }
            if level < binds {
                return Err(ReadError::Unexpected);
            }
            left = self.operation(reader, left)?;
            level = made(binds);
        }
        Ok(left)
    }

    #[tactic(auto, unfolding(crate::specs::Descent::level))]
    fn level(&self, reader: &mut Reader<'_>, least: u8) -> Result<SqlExpr, ReadError>
        requires { Nests self.now.depth (F.pre self.now.expr) (F.post self.now.expr) }
        ensures { Gives (spec.level (spec.expr self.now.depth) least reader.old) result reader.new }
    {
        let start = start_level(reader.peek());
        let first = self.prefix(reader, least)?;
        self.climb(reader, least, start, first)
    }
}

/// Reads an expression whose operators outside parentheses have at least this level.
pub fn expr(
    alloc: Global,
    reader: &mut Reader<'_>,
    depth: usize,
    least: u8,
) -> Result<SqlExpr, ReadError>
    ensures { Gives (spec.expr depth least reader.old) result reader.new }
{
    if depth == 0 {
        return Err(ReadError::Unexpected);
    }
    Grammar {
        alloc,
        depth: depth - 1,
        expr,
    }
    .level(reader, least)
}
