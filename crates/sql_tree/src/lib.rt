//! The statements and expressions of a pipeline text, as the grammar reads them. Parentheses,
//! comments and the letters of keywords are gone.
#![tactic(auto)]

mod expr;
mod lexeme;
mod statement;
mod words;

pub use expr::{SqlArm, SqlArms, SqlExpr, SqlExprs, SqlOp, SqlType};
pub use lexeme::{Lexeme, LexemeKind, same_kind};
pub use statement::{
    CdcTree, OptionValue, Out, Outs, Select, SqlAction, SqlItem, SqlItems, SqlOption, SqlOptions,
    SqlOrigin, SqlSequence, SqlSome, Statement, Statements,
};
pub use words::{keyword, symbol, word_kind};

#[cfg(test)]
mod tests;
