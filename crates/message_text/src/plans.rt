// What is printed of a checked plan.
ghost use Rattle.std.specs.Prelude.{◌≡◌, ◌++◌, IfOk, OnOk};
ghost use Rattle.message_text.specs.PlanLines as spec;

use plan_core::{Body, Dataset, Plan};
use report_text::{put, put_counted, put_named, put_word};
use std::alloc::{AllocError, Global};
use value_core::{Column, Kind};

fn kind_word(kind: Kind) -> &'static str
    ensures { result.now ≡ spec.kind_word kind }
{
    match kind {
        Kind::Bool => "BOOLEAN",
        Kind::Int => "INT",
        Kind::Big => "BIGINT",
        Kind::Str => "STRING",
    }
}

fn put_column(out: &mut Vec<u8>, column: &Column) -> Result<(), AllocError>
    ensures { OnOk result (out.new.items ≡ out.old.items ++ spec.column_text column.now) }
{
    put_word(out, column.name.as_str())?;
    put(out, " ")?;
    put(out, kind_word(column.kind))
}

fn put_more_columns(out: &mut Vec<u8>, columns: &[Column]) -> Result<(), AllocError>
    ensures { OnOk result (out.new.items ≡ out.old.items ++ spec.more_columns columns.now) }
{
    for column in columns {
        put(out, ", ")?;
        put_column(out, column)?;
    }
    Ok(())
}

fn put_columns(out: &mut Vec<u8>, columns: &[Column]) -> Result<(), AllocError>
    ensures { OnOk result (out.new.items ≡ out.old.items ++ spec.columns_text columns.now) }
{
    let Some((first, more)) = columns.split_first() else {
        return Ok(());
    };
    put_column(out, first)?;
    put_more_columns(out, more)
}

fn body_word(body: &Body) -> &'static str
    ensures { result.now ≡ spec.body_word body.now }
{
    match body {
        Body::Append(_) | Body::Cdc(_) => "streaming table ",
        Body::View(_) => "materialized view ",
    }
}

fn put_head(alloc: Global, out: &mut Vec<u8>, dataset: &Dataset) -> Result<(), AllocError>
    ensures { OnOk result (out.new.items ≡ out.old.items ++ spec.dataset_head dataset.now) }
{
    put_named(out, body_word(&dataset.body), dataset.name.as_str())?;
    put_counted(alloc, out, " level ", dataset.level as u64)
}

fn put_dataset(alloc: Global, out: &mut Vec<u8>, dataset: &Dataset) -> Result<(), AllocError>
    ensures { OnOk result (out.new.items ≡ out.old.items ++ spec.dataset_line dataset.now) }
{
    put_head(alloc, out, dataset)?;
    put(out, ": ")?;
    put_columns(out, dataset.columns.as_slice())?;
    out.push(b'\n')?;
    Ok(())
}

/// Puts the lines of the datasets of one level.
fn put_level(
    alloc: Global,
    out: &mut Vec<u8>,
    plan: &[Dataset],
    level: u32,
) -> Result<(), AllocError>
    ensures { OnOk result (out.new.items ≡ out.old.items ++ spec.level_lines plan.now level) }
{
    for dataset in plan {
        if dataset.level == level {
            put_dataset(alloc, out, dataset)?;
        }
    }
    Ok(())
}

fn greatest_level(plan: &[Dataset]) -> u32
    ensures { result ≡ spec.greatest_level plan.now }
{
    let mut greatest = 0;
    for dataset in plan {
        greatest = greatest.max(dataset.level);
    }
    greatest
}

/// What is printed of a plan: a line a dataset, `streaming table NAME level L: COL KIND, COL KIND` or the like for a
/// materialized view, by level from 0 to the greatest and of one level in declared order. Looks at each dataset once
/// for each level. `Err` for want of memory alone.
#[tactic(auto, using(crate::proofs::Steps::levels_more))]
pub fn plan_lines(alloc: Global, plan: &Plan) -> Result<Vec<u8>, AllocError>
    ensures { IfOk result (λ lines. lines.items ≡ spec.plan_lines plan.now) }
{
    let mut lines = Vec::new(alloc);
    let greatest = greatest_level(plan.as_slice());
    for level in 0..greatest {
        put_level(alloc, &mut lines, plan.as_slice(), level)?;
    }
    put_level(alloc, &mut lines, plan.as_slice(), greatest)?;
    Ok(lines)
}
