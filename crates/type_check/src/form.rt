//! Which statements are of the built form.

ghost use Rattle.std.specs.Prelude.{◌≡◌, ◌&&◌, IfOk, map};
ghost use Rattle.std.specs.List.{list_all};
ghost use Rattle.std.specs.Option.{option_copied};
ghost use Rattle.expr_typing.specs.Typing.{all, kind_of_type};
ghost use Rattle.type_check.specs.Form as spec;

use sql_tree::{Out, Select, SqlExpr, SqlItem, SqlOrigin, SqlType, Statement};
use std::alloc::{AllocError, Global};
use value_core::{Column, Kind, ListOf, Name, Schema};

fn kind_of(declared: SqlType) -> Kind
    ensures { result ≡ kind_of_type declared }
{
    match declared {
        SqlType::Bool => Kind::Bool,
        SqlType::Int => Kind::Int,
        SqlType::Big => Kind::Big,
        SqlType::Str => Kind::Str,
    }
}

fn declared_column(alloc: Global, item: &SqlItem) -> Result<Option<Column>, AllocError>
    ensures { IfOk result (λ column. column ≡ spec.declared_column item.now) }
{
    match item {
        SqlItem::Column { name, kind } => {
            let name = name.copy(alloc)?;
            let kind = kind_of(*kind);
            Ok(Some(Column { name, kind }))
        }
        SqlItem::Expect {
            name: _,
            test: _,
            action: _,
        } => Ok(None),
    }
}

/// The columns that a table declares; `None` where it declares an expectation too.
pub fn declared_columns(alloc: Global, items: &[SqlItem]) -> Result<Option<Schema>, AllocError>
    ensures { IfOk result (λ columns. columns ≡ all (map spec.declared_column items.now)) }
{
    let mut columns = ListOf::new(alloc);
    for item in items {
        let Some(column) = declared_column(alloc, item)? else {
            return Ok(None);
        };
        columns.push(column)?;
    }
    Ok(Some(columns))
}

/// The name, where an expression is a name alone.
pub fn plain_name(tree: &SqlExpr) -> Option<&Name>
    ensures { option_copied result ≡ spec.plain_name tree.now }
{
    match tree {
        SqlExpr::Name(name) => Some(name),
        _ => None,
    }
}

fn is_plain_out(output: &Out) -> bool
    ensures { result ≡ spec.is_plain_out output.now }
{
    match output {
        Out::Star { except } => except.is_empty(),
        Out::One { expr, name: _ } => plain_name(expr).is_some(),
    }
}

fn are_plain_outs(outs: &[Out]) -> bool
    ensures { result ≡ list_all spec.is_plain_out outs.now }
{
    outs.iter().all(|output| is_plain_out(output))
}

/// Whether a query has no WHERE, and each output is `*` without EXCEPT or a column.
pub fn is_plain_select(select: &Select) -> bool
    ensures { result ≡ spec.is_plain_select select.now }
{
    select.filter.is_none() && are_plain_outs(select.outs.as_slice())
}

fn is_column(item: &SqlItem) -> bool
    ensures { result ≡ spec.is_there (spec.declared_column item.now) }
{
    match item {
        SqlItem::Column { name: _, kind: _ } => true,
        SqlItem::Expect {
            name: _,
            test: _,
            action: _,
        } => false,
    }
}

fn are_columns(items: &[SqlItem]) -> bool
    ensures { result ≡ list_all (λ item. spec.is_there (spec.declared_column item)) items.now }
{
    items.iter().all(|item| is_column(item))
}

fn reads_files(origin: &SqlOrigin) -> bool
    ensures { result ≡ spec.reads_files origin.now }
{
    match origin {
        SqlOrigin::Table { stream: _, name: _ } => false,
        SqlOrigin::Files {
            stream: _,
            path: _,
            options: _,
        } => true,
    }
}

fn is_built_with(items: &[SqlItem], select: &Select) -> bool
    ensures { result ≡ (spec.is_plain_select select.now && list_all (λ item. spec.is_there (spec.declared_column item)) items.now && spec.reads_files select.now.origin) }
{
    is_plain_select(select) && are_columns(items) && reads_files(&select.origin)
}

/// Whether a statement is of the built form: a streaming table without expectations, with AS over
/// `read_files`.
#[tactic(auto, using(crate::proofs::Forms::form_there))]
pub fn is_built(statement: &Statement) -> bool
    ensures { result ≡ spec.is_there (spec.form_of statement.now) }
{
    match statement {
        Statement::Table {
            name: _,
            items,
            select,
        } => match select {
            Some(select) => is_built_with(items.as_slice(), select),
            None => false,
        },
        Statement::View {
            name: _,
            items: _,
            select: _,
        } => false,
        Statement::Insert {
            flow: _,
            target: _,
            select: _,
        } => false,
        Statement::Cdc { flow: _, rest: _ } => false,
    }
}
