// What is printed of a plan.
ghost use Rattle.std.specs.Prelude.{◌≡◌, ◌++◌, IfOk, OnOk};
ghost use Rattle.pipeline_run.specs.PlanLines.{body_words as the_body_words, column_text, columns_text, dataset_line, kind_word as the_kind_word, more_columns, plan_lines as the_plan_lines};

use crate::escape::{put, put_escaped};
use plan_core::{Body, Dataset, Plan};
use std::alloc::{AllocError, Global};
use value_core::{Column, Kind};

fn kind_word(kind: Kind) -> &'static str
    ensures { result.now ≡ the_kind_word kind }
{
    match kind {
        Kind::Bool => "BOOLEAN",
        Kind::Int => "INT",
        Kind::Big => "BIGINT",
        Kind::Str => "STRING",
    }
}

fn put_column(out: &mut Vec<u8>, column: &Column) -> Result<(), AllocError>
    ensures { OnOk result (out.new.items ≡ out.old.items ++ column_text column.now) }
{
    put_escaped(out, column.name.as_str())?;
    put(out, " ")?;
    put(out, kind_word(column.kind))
}

fn put_more_columns(out: &mut Vec<u8>, columns: &[Column]) -> Result<(), AllocError>
    ensures { OnOk result (out.new.items ≡ out.old.items ++ more_columns columns.now) }
{
    for column in columns {
        put(out, ", ")?;
        put_column(out, column)?;
    }
    Ok(())
}

fn put_columns(out: &mut Vec<u8>, columns: &[Column]) -> Result<(), AllocError>
    ensures { OnOk result (out.new.items ≡ out.old.items ++ columns_text columns.now) }
{
    let Some((first, more)) = columns.split_first() else {
        return Ok(());
    };
    put_column(out, first)?;
    put_more_columns(out, more)
}

fn body_words(body: &Body) -> &'static str
    ensures { result.now ≡ the_body_words body.now }
{
    match body {
        Body::Append(_) | Body::Cdc(_) => "streaming table ",
        Body::View(_) => "materialized view ",
    }
}

fn put_dataset(alloc: Global, out: &mut Vec<u8>, dataset: &Dataset) -> Result<(), AllocError>
    ensures { OnOk result (out.new.items ≡ out.old.items ++ dataset_line dataset.now) }
{
    let Dataset {
        name,
        body,
        columns,
        level,
        ..
    } = dataset;
    put(out, body_words(body))?;
    put_escaped(out, name.as_str())?;
    let place = format!(in alloc; " level {level}: ")?;
    put(out, place.as_str())?;
    put_columns(out, columns.as_slice())?;
    out.push(b'\n')?;
    Ok(())
}

/// What is printed of a plan: a line a dataset, in declared order.
pub(crate) fn plan_lines(alloc: Global, plan: &Plan) -> Result<Vec<u8>, AllocError>
    ensures { IfOk result (λ lines. lines.items ≡ the_plan_lines plan.now) }
{
    let mut lines = Vec::new(alloc);
    for dataset in plan.as_slice() {
        put_dataset(alloc, &mut lines, dataset)?;
    }
    Ok(lines)
}
