ghost use Rattle.std.specs.Prelude.{◌≡◌};
ghost use Rattle.row_expr.specs.Kinds.{kind_in};
ghost use Rattle.row_expr.specs.Kinds;

use crate::sort::{Sort, sort_of};
use sqlite_items::{Boxed, Items};
use value_core::{Kind, Value};

/// `+`, `-`, `*`, `div` and `%`.
#[derive(Clone, Copy, Debug)]
pub enum Arithmetic {
    Add,
    Sub,
    Mul,
    Div,
    Rem,
}

/// `=`, `<>`, `<`, `<=`, `>` and `>=`.
#[derive(Clone, Copy, Debug)]
pub enum Comparison {
    Eq,
    Ne,
    Lt,
    Le,
    Gt,
    Ge,
}

/// A typed expression. Operands that meet have one kind: an INT beside a BIGINT is widened.
#[cycle(expr)]
#[derive(Debug, Drop)]
pub enum Expr {
    Literal(Value),
    /// The place of the column, and its kind.
    Column(usize, Kind),
    /// An INT as the BIGINT of the same number.
    Widen(Boxed<Expr>),
    Negate(Boxed<Expr>),
    Arithmetic(Arithmetic, Boxed<Expr>, Boxed<Expr>),
    Concat(Boxed<Expr>, Boxed<Expr>),
    Compare(Comparison, Boxed<Expr>, Boxed<Expr>),
    And(Boxed<Expr>, Boxed<Expr>),
    Or(Boxed<Expr>, Boxed<Expr>),
    Not(Boxed<Expr>),
    IsNull(Boxed<Expr>),
    InList(Boxed<Expr>, Items<Expr>),
    Between(Boxed<Expr>, Boxed<Expr>, Boxed<Expr>),
    Case(Items<Arm>, Boxed<Expr>),
    Cast(Boxed<Expr>, Kind),
    TryCast(Boxed<Expr>, Kind),
    Coalesce(Items<Expr>),
}

impl Expr {
    /// The kind of a typed expression. `None` where any kind does, as for NULL.
    pub fn kind(&self) -> Option<Kind>
        ensures { result ≡ kind_in (Kinds.sort_of self.now) }
    {
        match sort_of(self) {
            Sort::Of(kind) => Some(kind),
            _ => None,
        }
    }
}

/// One WHEN of a CASE.
#[cycle(expr)]
#[derive(Debug, Drop)]
pub struct Arm {
    pub when: Expr,
    pub gives: Expr,
}
