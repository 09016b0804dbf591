//! What the outputs of a select without groups give.

ghost use Rattle.std.specs.Prelude.{◌≡◌, ◌++◌, IfOk, OnOk, option_map};
ghost use Rattle.std.specs.List.{list_all};
ghost use Rattle.std.specs.Option.{option_copied};
ghost use Rattle.sql_tree.specs.declared.statement.Out.TheVariants as out;
ghost use Rattle.select_checks.specs.Outputs as spec;

use crate::kinded::{KindedExpr, kinded_tree};
use plan_core::Exprs;
use row_expr::Expr;
use select_names::{is_left, out_name};
use sql_tree::{Out, SqlExpr};
use sqlite_items::Boxed;
use std::alloc::{AllocError, Global};
use value_core::{Column, ListOf, Name, Schema};

/// A column that is given, and the expression that gives it.
#[derive(Debug, Drop)]
pub struct SelectOutput {
    pub column: Column,
    pub expr: Boxed<Expr>,
}

/// Outputs in order.
pub type SelectOutputs = ListOf<SelectOutput>;

/// A column that is read, as it is.
fn column_output(alloc: Global, place: usize, column: &Column) -> Result<SelectOutput, AllocError>
    ensures { IfOk result (λ output. output ≡ spec.select_output column.now (Expr.Column place column.now.kind)) }
{
    let expr = Boxed::new(alloc, Expr::Column(place, column.kind))?;
    let column = column.copy(alloc)?;
    Ok(SelectOutput { column, expr })
}

/// Puts the columns that `* EXCEPT` leaves behind others.
fn add_left(
    alloc: Global,
    outputs: &mut SelectOutputs,
    source: &[Column],
    except: &[Name],
) -> Result<(), AllocError>
    ensures { OnOk result (outputs.new ≡ outputs.old ++ spec.columns_left except.now 0 source.now) }
{
    for place in 0..source.len() {
        let column = &source[place];
        if is_left(except, column) {
            outputs.push(column_output(alloc, place, column)?)?;
        }
    }
    Ok(())
}

/// An expression under that name, where it has one.
fn named_output(
    alloc: Global,
    name: Option<&Name>,
    made: KindedExpr,
) -> Result<Option<SelectOutput>, AllocError>
    ensures { IfOk result (λ output. output ≡ option_map (λ given. spec.select_output (spec.column_of made.kind given) made.expr) (option_copied name.entry)) }
{
    let Some(name) = name else {
        return Ok(None);
    };
    let name = name.copy(alloc)?;
    let KindedExpr { expr, kind } = made;
    Ok(Some(SelectOutput {
        column: Column { name, kind },
        expr,
    }))
}

/// An expression under its name, where it has a kind and a name.
fn one_output(
    alloc: Global,
    source: &Schema,
    tree: &SqlExpr,
    own: &Option<Name>,
) -> Result<Option<SelectOutput>, AllocError>
    ensures { IfOk result (λ output. output ≡ spec.one_output source.now tree.now own.now) }
{
    let Some(made) = kinded_tree(alloc, source, tree)? else {
        return Ok(None);
    };
    named_output(alloc, out_name(source.as_slice(), tree, own), made)
}

fn add_one(
    alloc: Global,
    outputs: &mut SelectOutputs,
    source: &Schema,
    tree: &SqlExpr,
    own: &Option<Name>,
) -> Result<(), AllocError>
    ensures { OnOk result (outputs.new ≡ outputs.old ++ spec.out_outputs source.now (out.One tree.now own.now)) }
{
    let Some(output) = one_output(alloc, source, tree, own)? else {
        return Ok(());
    };
    outputs.push(output)?;
    Ok(())
}

fn add_out(
    alloc: Global,
    outputs: &mut SelectOutputs,
    source: &Schema,
    given: &Out,
) -> Result<(), AllocError>
    ensures { OnOk result (outputs.new ≡ outputs.old ++ spec.out_outputs source.now given.now) }
{
    match given {
        Out::Star { except } => add_left(alloc, outputs, source.as_slice(), except.as_slice()),
        Out::One { expr, name } => add_one(alloc, outputs, source, expr, name),
    }
}

/// What all outputs give, in order. For a select whose names are distinct, so that `*` stands once
/// in it.
pub fn select_outputs(
    alloc: Global,
    source: &Schema,
    outs: &[Out],
) -> Result<SelectOutputs, AllocError>
    ensures { IfOk result (λ outputs. outputs ≡ spec.select_outputs source.now outs.now) }
{
    let mut outputs = ListOf::new(alloc);
    for given in outs {
        add_out(alloc, &mut outputs, source, given)?;
    }
    Ok(outputs)
}

/// The columns that outputs give.
pub fn columns_given(alloc: Global, outputs: &[SelectOutput]) -> Result<Schema, AllocError>
    ensures { IfOk result (λ columns. columns ≡ spec.columns_given outputs.now) }
{
    let mut columns = ListOf::new(alloc);
    for output in outputs {
        columns.push(output.column.copy(alloc)?)?;
    }
    Ok(columns)
}

/// The expressions that outputs give.
pub fn exprs_given(alloc: Global, outputs: SelectOutputs) -> Result<Exprs, AllocError>
    ensures { IfOk result (λ exprs. exprs ≡ spec.exprs_given outputs) }
{
    let mut exprs = ListOf::new(alloc);
    for output in outputs.into_vec() {
        exprs.push(output.expr.into_inner())?;
    }
    Ok(exprs)
}

fn has_kind(alloc: Global, source: &Schema, given: &Out) -> Result<bool, AllocError>
    ensures { IfOk result (λ has. has ≡ spec.has_kind source.now given.now) }
{
    match given {
        Out::Star { except: _ } => Ok(true),
        Out::One { expr, name: _ } => {
            let found = kinded_tree(alloc, source, expr)?;
            Ok(found.is_some())
        }
    }
}

/// Whether each output, where it is an expression, has a kind.
pub fn have_kinds(alloc: Global, source: &Schema, outs: &[Out]) -> Result<bool, AllocError>
    ensures { IfOk result (λ have. have ≡ list_all (spec.has_kind source.now) outs.now) }
{
    for given in outs {
        if !has_kind(alloc, source, given)? {
            return Ok(false);
        }
    }
    Ok(true)
}
