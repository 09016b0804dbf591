use crate::expr::{SqlExpr, SqlExprs, SqlType};
use sqlite_items::Items;
use value_core::{Name, Names, Text};

/// One statement of a pipeline text.
#[derive(Debug, Drop)]
pub enum Statement {
    /// `CREATE [OR REFRESH] STREAMING TABLE`.
    Table {
        name: Name,
        items: SqlItems,
        select: Option<Select>,
    },
    /// `CREATE [OR REFRESH] MATERIALIZED VIEW`.
    View {
        name: Name,
        items: SqlItems,
        select: Select,
    },
    /// `CREATE FLOW .. AS INSERT INTO .. BY NAME`.
    Insert {
        flow: Name,
        target: Name,
        select: Select,
    },
    /// `CREATE FLOW .. AS AUTO CDC`, or `APPLY CHANGES`, whose flow has its target's name.
    Cdc {
        flow: Name,
        rest: CdcTree,
    },
}

/// Statements in the order of the text.
pub type Statements = Items<Statement>;

/// What the database does with a row that fails an expectation.
#[derive(Clone, Copy, PartialEq, Eq, Debug)]
pub enum SqlAction {
    Warn,
    DropRow,
    FailUpdate,
}

/// A declared column or expectation of a dataset.
#[derive(Debug, Drop)]
pub enum SqlItem {
    Column {
        name: Name,
        kind: SqlType,
    },
    Expect {
        name: Name,
        test: SqlExpr,
        action: SqlAction,
    },
}

/// Declared columns and expectations in order.
pub type SqlItems = Items<SqlItem>;

/// A query.
#[derive(Debug, Drop)]
pub struct Select {
    pub outs: Outs,
    pub origin: SqlOrigin,
    pub filter: Option<SqlExpr>,
    pub groups: SqlExprs,
}

/// One output of a query.
#[derive(Debug, Drop)]
pub enum Out {
    /// `*`, without the names behind EXCEPT.
    Star { except: Names },
    One { expr: SqlExpr, name: Option<Name> },
}

/// Outputs in order.
pub type Outs = Items<Out>;

/// What a query or a flow reads.
#[derive(Debug, Drop)]
pub enum SqlOrigin {
    Table {
        stream: bool,
        name: Name,
    },
    /// `read_files`.
    Files {
        stream: bool,
        path: Text,
        options: SqlOptions,
    },
}

/// What an option of `read_files` is set to.
#[derive(Debug, Drop)]
pub enum OptionValue {
    Str(Text),
    Bool(bool),
}

/// An option of `read_files`.
#[derive(Debug, Drop)]
pub struct SqlOption {
    pub word: Name,
    pub value: OptionValue,
}

/// Options in order.
pub type SqlOptions = Items<SqlOption>;

/// What orders the events of a change feed: one column, or several.
#[derive(Debug, Drop)]
pub enum SqlSequence {
    One(Name),
    Struct(Names),
}

/// Some of the columns: all but these, or these alone.
#[derive(Debug, Drop)]
pub enum SqlSome {
    Except(Names),
    Only(Names),
}

/// What stands behind `AUTO CDC`.
#[derive(Debug, Drop)]
pub struct CdcTree {
    pub target: Name,
    pub origin: SqlOrigin,
    pub keys: Names,
    pub ignore_null: bool,
    pub delete_when: Option<SqlExpr>,
    pub truncate_when: Option<SqlExpr>,
    pub sequence: SqlSequence,
    pub columns: Option<SqlSome>,
    pub scd: Option<u8>,
    pub track: Option<SqlSome>,
}
