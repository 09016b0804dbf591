//! The columns that outputs give, over the columns that are read.

ghost use Rattle.std.specs.Prelude.{◌≡◌, ◌++◌, IfOk, OnOk, OnErr, map, position, option_to_list};
ghost use Rattle.std.specs.Option.{option_copied};
ghost use Rattle.value_core.specs.NameFold.{same_name};
ghost use Rattle.type_check.specs.Outputs as spec;

use crate::form::plain_name;
use crate::names::MAX_COLUMNS;
use expr_typing::first_unknown as unknown_in;
use plan_core::Exprs;
use row_expr::Expr;
use sql_tree::{Out, SqlExpr};
use std::alloc::{AllocError, Global};
use value_core::{Column, ListOf, Name, Schema};

/// A column of a table, and the place of the column that it reads.
#[derive(Debug, Drop)]
pub struct Output {
    pub place: usize,
    pub column: Column,
}

/// Outputs in order.
pub type Outputs = ListOf<Output>;

fn add_every(alloc: Global, outputs: &mut Outputs, source: &[Column]) -> Result<(), AllocError>
    ensures { OnOk result (outputs.new ≡ outputs.old ++ spec.every_from 0 source.now) }
{
    for place in 0..source.len() {
        let column = source[place].copy(alloc)?;
        outputs.push(Output { place, column })?;
    }
    Ok(())
}

fn place_of(source: &[Column], name: &Name) -> Option<usize>
    ensures { result ≡ spec.place_of source.now name.now }
{
    source.iter().position(|found| found.name.is_same(name))
}

fn own_name<'a>(own: &'a Option<Name>, found: &'a Column) -> &'a Name
    ensures { result.now ≡ (spec.under own.now found.now).name }
{
    match own {
        Some(name) => name,
        None => &found.name,
    }
}

fn output_named(
    alloc: Global,
    source: &[Column],
    own: &Option<Name>,
    name: &Name,
) -> Result<Option<Output>, AllocError>
    ensures { IfOk result (λ found. found ≡ spec.output_named source.now own.now name.now) }
{
    let Some(place) = place_of(source, name) else {
        return Ok(None);
    };
    let Some(found) = source.get(place) else {
        return Ok(None);
    };
    let name = own_name(own, found).copy(alloc)?;
    let column = Column {
        name,
        kind: found.kind,
    };
    Ok(Some(Output { place, column }))
}

fn output_of(
    alloc: Global,
    source: &[Column],
    tree: &SqlExpr,
    own: &Option<Name>,
) -> Result<Option<Output>, AllocError>
    ensures { IfOk result (λ found. option_to_list found ≡ spec.outputs_by source.now (Out.One tree.now own.now)) }
{
    let Some(name) = plain_name(tree) else {
        return Ok(None);
    };
    let found = output_named(alloc, source, own, name)?;
    Ok(found)
}

fn add_one(
    alloc: Global,
    outputs: &mut Outputs,
    source: &[Column],
    output: &Out,
) -> Result<(), AllocError>
    ensures { OnOk result (outputs.new ≡ outputs.old ++ spec.outputs_by source.now output.now) }
{
    match output {
        Out::Star { except: _ } => add_every(alloc, outputs, source),
        Out::One { expr, name } => {
            let Some(found) = output_of(alloc, source, expr, name)? else {
                return Ok(());
            };
            outputs.push(found)?;
            Ok(())
        }
    }
}

/// What outputs give, until they are more than a table may have: all columns for `*`, else the
/// column that is named, if there is one.
fn built(alloc: Global, source: &[Column], outs: &[Out]) -> Result<Outputs, AllocError>
    ensures { IfOk result (λ outputs. spec.looked_at outputs ≡ spec.outputs_seen source.now outs.now) }
{
    let mut outputs = ListOf::new(alloc);
    for output in outs {
        if outputs.len() > MAX_COLUMNS {
            return Ok(outputs);
        }
        add_one(alloc, &mut outputs, source, output)?;
    }
    Ok(outputs)
}

fn cut(outputs: Outputs) -> Outputs
    ensures { result ≡ spec.looked_at outputs }
{
    let mut items = outputs.into_vec();
    items.truncate(MAX_COLUMNS + 1);
    ListOf::from_vec(items)
}

/// What outputs give, as far as it is looked at. No more are built once there are more than a table
/// may have.
pub fn outputs_of(alloc: Global, source: &[Column], outs: &[Out]) -> Result<Outputs, AllocError>
    ensures { IfOk result (λ outputs. outputs ≡ spec.outputs_seen source.now outs.now) }
{
    let outputs = built(alloc, source, outs)?;
    Ok(cut(outputs))
}

/// The columns of a table.
pub fn columns_of(alloc: Global, outputs: &[Output]) -> Result<Schema, AllocError>
    ensures { IfOk result (λ columns. columns ≡ spec.columns_of outputs.now) }
{
    let mut columns = ListOf::new(alloc);
    for each in outputs {
        columns.push(each.column.copy(alloc)?)?;
    }
    Ok(columns)
}

/// The expressions of a table's columns, by place and kind.
pub fn exprs_of(alloc: Global, outputs: &[Output]) -> Result<Exprs, AllocError>
    ensures { IfOk result (λ exprs. exprs ≡ spec.exprs_of outputs.now) }
{
    let mut exprs = ListOf::new(alloc);
    for each in outputs {
        exprs.push(Expr::Column(each.place, each.column.kind))?;
    }
    Ok(exprs)
}

fn unknown_by<'a>(source: &[Column], output: &'a Out) -> Option<&'a Name>
    ensures { option_copied result ≡ spec.unknown_by source.now output.now }
{
    match output {
        Out::Star { except: _ } => None,
        Out::One { expr, name: _ } => unknown_in(expr, source),
    }
}

/// The name of the first output that no column has.
pub fn first_unknown<'a>(source: &[Column], outs: &'a [Out]) -> Option<&'a Name>
    ensures { option_copied result ≡ spec.first_unknown source.now outs.now }
{
    for output in outs {
        let found = unknown_by(source, output);
        if found.is_some() {
            return found;
        }
    }
    None
}
