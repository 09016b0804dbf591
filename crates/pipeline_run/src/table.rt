// The table of a plan.
ghost use Rattle.std.specs.Prelude.{◌≡◌, IfOk};
ghost use Rattle.pipeline_run.specs.Table as spec;

use plan_core::{Body, Dataset, Origin, Plan};
use row_expr::Expr;
use std::alloc::{AllocError, Global};
use table_update::{AppendTable, Output, Outputs};
use value_core::{Column, ListOf, Name, Shape, Text};

/// The place that is read, and 0 where an expression is no column.
fn place_of(expr: &Expr) -> usize
    ensures { result ≡ spec.place_of expr.now }
{
    match expr {
        Expr::Column(place, _) => *place,
        _ => 0,
    }
}

/// The outputs of expressions, each with its column.
fn outputs_of(alloc: Global, exprs: &[Expr], columns: &[Column]) -> Result<Outputs, AllocError>
    ensures { IfOk result (λ outputs. outputs ≡ spec.outputs_of exprs.now columns.now) }
{
    let mut outputs = ListOf::new(alloc);
    let mut left = columns;
    for expr in exprs {
        let Some((column, more)) = left.split_first() else {
            return Ok(outputs);
        };
        let column = column.copy(alloc)?;
        outputs.push(Output {
            place: place_of(expr),
            column,
        })?;
        left = more;
    }
    Ok(outputs)
}

fn shape_of(alloc: Global, shape: &Shape) -> Result<Shape, AllocError>
    ensures { IfOk result (λ copy. copy ≡ shape.now) }
{
    Ok(Shape {
        format: shape.format,
        columns: shape.columns.copy(alloc)?,
        rescued: shape.rescued,
        header: shape.header,
        sep: shape.sep,
    })
}

/// The table of a dataset whose flow reads these files, with these outputs.
fn table_over(
    alloc: Global,
    dataset: &Dataset,
    folder: &Text,
    shape: &Shape,
    exprs: &[Expr],
) -> Result<AppendTable, AllocError>
    ensures { IfOk result (λ table. table ≡ record { name = dataset.now.name; text = dataset.now.text; folder = folder.now; shape = shape.now; outputs = spec.outputs_of exprs.now dataset.now.columns }) }
{
    Ok(AppendTable {
        name: dataset.name.copy(alloc)?,
        text: dataset.text.copy(alloc)?,
        folder: folder.copy(alloc)?,
        shape: shape_of(alloc, shape)?,
        outputs: outputs_of(alloc, exprs, dataset.columns.as_slice())?,
    })
}

/// The table of a dataset whose first flow reads files.
fn table_by(alloc: Global, dataset: &Dataset) -> Result<Option<AppendTable>, AllocError>
    ensures { IfOk result (λ table. table ≡ spec.table_by dataset.now dataset.now.body) }
{
    let Body::Append(flows) = &dataset.body else {
        return Ok(None);
    };
    let Some(flow) = flows.as_slice().first() else {
        return Ok(None);
    };
    match &flow.origin {
        Origin::Files { dir, shape } => {
            let table = table_over(alloc, dataset, dir, shape, flow.outputs.as_slice())?;
            Ok(Some(table))
        }
        Origin::Table { .. } => Ok(None),
    }
}

/// The table of a plan, if it has one.
pub(crate) fn table_of(alloc: Global, plan: &Plan) -> Result<Option<AppendTable>, AllocError>
    ensures { IfOk result (λ table. table ≡ spec.table_in plan.now) }
{
    match plan.as_slice().first() {
        Some(dataset) => table_by(alloc, dataset),
        None => Ok(None),
    }
}

/// The name of a table, if there is one.
pub(crate) fn name_of(
    alloc: Global,
    table: &Option<AppendTable>,
) -> Result<Option<Name>, AllocError>
    ensures { IfOk result (λ name. name ≡ spec.name_of table.now) }
{
    match table {
        Some(table) => {
            let name = table.name.copy(alloc)?;
            Ok(Some(name))
        }
        None => Ok(None),
    }
}
