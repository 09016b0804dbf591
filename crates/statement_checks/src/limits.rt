//! The limits that a statement keeps.

ghost use Rattle.std.specs.Prelude.{◌≡◌, ◌<◌, ◌^◌, ◌+◌};
ghost use Rattle.std.specs.List.{count_by};
ghost use Rattle.statement_checks.specs.Declares as declared;
ghost use Rattle.statement_checks.specs.Limits as spec;
ghost use Rattle.statement_checks.specs.Repeats.{first_of};

use crate::declared::{is_column, is_dataset, is_flow, items_of, keys_of, parts_of};
use crate::fault::CheckFault;
use sql_tree::{SqlItem, Statement};

/// The most datasets of a pipeline.
const MAX_DATASETS: u32 = 256;

/// The most flows of a pipeline.
const MAX_FLOWS: u32 = 1_024;

/// The most columns of a dataset.
const MAX_COLUMNS: u32 = 256;

/// The most keys of a change feed.
const MAX_KEYS: u32 = 16;

/// The most parts of a sequence.
const MAX_PARTS: u32 = 8;

/// The most expectations of a dataset.
const MAX_EXPECTATIONS: u32 = 32;

/// There are at most so many.
fn few(limit: u32, count: usize) -> Option<CheckFault>
    requires { limit + 1 < 2 ^ 32 }
    ensures { result ≡ spec.few limit count }
{
    if count > limit as usize {
        Some(CheckFault::TooMany { count: limit + 1 })
    } else {
        None
    }
}

/// With one more there are at most so many.
fn few_with_one(limit: u32, others: usize) -> Option<CheckFault>
    requires { limit + 1 < 2 ^ 32 }
    ensures { result ≡ spec.few_with_one limit others }
{
    if others < limit as usize {
        None
    } else {
        Some(CheckFault::TooMany { count: limit + 1 })
    }
}

fn datasets_in(statements: &[Statement]) -> usize
    ensures { result ≡ count_by spec.is_dataset statements.now }
{
    let mut count = 0;
    for statement in statements {
        if is_dataset(statement) {
            count += 1;
        }
    }
    count
}

fn flows_in(statements: &[Statement]) -> usize
    ensures { result ≡ count_by spec.is_flow statements.now }
{
    let mut count = 0;
    for statement in statements {
        if is_flow(statement) {
            count += 1;
        }
    }
    count
}

fn columns_in(items: &[SqlItem]) -> usize
    ensures { result ≡ count_by declared.is_column items.now }
{
    let mut count = 0;
    for item in items {
        if is_column(item) {
            count += 1;
        }
    }
    count
}

fn expectations_in(items: &[SqlItem]) -> usize
    ensures { result ≡ count_by declared.is_expectation items.now }
{
    let mut count = 0;
    for item in items {
        if !is_column(item) {
            count += 1;
        }
    }
    count
}

fn few_datasets(before: &[Statement], statement: &Statement) -> Option<CheckFault>
    ensures { result ≡ spec.few_datasets before.now statement.now }
{
    if !is_dataset(statement) {
        return None;
    }
    few_with_one(MAX_DATASETS, datasets_in(before))
}

fn few_flows(before: &[Statement], statement: &Statement) -> Option<CheckFault>
    ensures { result ≡ spec.few_flows before.now statement.now }
{
    if !is_flow(statement) {
        return None;
    }
    few_with_one(MAX_FLOWS, flows_in(before))
}

fn few_columns(statement: &Statement) -> Option<CheckFault>
    ensures { result ≡ spec.few_columns statement.now }
{
    few(MAX_COLUMNS, columns_in(items_of(statement)))
}

fn few_keys(statement: &Statement) -> Option<CheckFault>
    ensures { result ≡ spec.few_keys statement.now }
{
    few(MAX_KEYS, keys_of(statement).len())
}

fn few_parts(statement: &Statement) -> Option<CheckFault>
    ensures { result ≡ spec.few_parts statement.now }
{
    few(MAX_PARTS, parts_of(statement).len())
}

fn few_expectations(statement: &Statement) -> Option<CheckFault>
    ensures { result ≡ spec.few_expectations statement.now }
{
    few(MAX_EXPECTATIONS, expectations_in(items_of(statement)))
}

/// The first limit that a statement passes behind others.
pub(crate) fn limit_fault(before: &[Statement], statement: &Statement) -> Option<CheckFault>
    ensures { result ≡ first_of (spec.limit_checks before.now statement.now) }
{
    let parts = few_parts(statement).or(few_expectations(statement));
    let lists = few_columns(statement).or(few_keys(statement).or(parts));
    few_datasets(before, statement).or(few_flows(before, statement).or(lists))
}
