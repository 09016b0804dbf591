//! The names that a select reads, and those of its outputs.

ghost use Rattle.std.specs.Prelude.{◌≡◌, ◌+◌, IfOk, map, find, position};
ghost use Rattle.std.specs.List.{list_any};
ghost use Rattle.std.specs.Option.{option_copied};
ghost use Rattle.value_core.specs.NameFold.{same_name};
ghost use Rattle.expr_typing.specs.Typing as typing;
ghost use Rattle.statement_checks.specs.Repeats.{first_of};
ghost use Rattle.select_names.specs.SelectNames as spec;

use expr_typing::first_unknown;
use sql_tree::{Out, Select, SqlExpr};
use statement_checks::CheckFault;
use std::alloc::{AllocError, Global};
use value_core::{Column, Name};

// ---- the names that are read

fn has_column(columns: &[Column], name: &Name) -> bool
    ensures { result ≡ typing.has_column columns.now name.now }
{
    columns.iter().any(|column| column.name.is_same(name))
}

/// The first of some names that no column has.
fn unknown_among<'a>(source: &[Column], names: &'a [Name]) -> Option<&'a Name>
    ensures { option_copied result ≡ first_of (map (typing.if_unknown source.now) names.now) }
{
    for name in names {
        if !has_column(source, name) {
            return Some(name);
        }
    }
    None
}

fn unknown_in_out<'a>(source: &[Column], output: &'a Out) -> Option<&'a Name>
    ensures { option_copied result ≡ spec.unknown_in_out source.now output.now }
{
    match output {
        Out::Star { except } => unknown_among(source, except.as_slice()),
        Out::One { expr, name: _ } => first_unknown(expr, source),
    }
}

fn unknown_in_outs<'a>(source: &[Column], outs: &'a [Out]) -> Option<&'a Name>
    ensures { option_copied result ≡ first_of (map (spec.unknown_in_out source.now) outs.now) }
{
    for output in outs {
        let found = unknown_in_out(source, output);
        if found.is_some() {
            return found;
        }
    }
    None
}

fn unknown_in_filter<'a>(source: &[Column], filter: &'a Option<SqlExpr>) -> Option<&'a Name>
    ensures { option_copied result ≡ spec.unknown_in_filter source.now filter.now }
{
    match filter {
        None => None,
        Some(tree) => first_unknown(tree, source),
    }
}

fn unknown_in_groups<'a>(source: &[Column], groups: &'a [SqlExpr]) -> Option<&'a Name>
    ensures { option_copied result ≡ first_of (map (typing.first_unknown source.now) groups.now) }
{
    for tree in groups {
        let found = first_unknown(tree, source);
        if found.is_some() {
            return found;
        }
    }
    None
}

fn unknown_in_select<'a>(source: &[Column], select: &'a Select) -> Option<&'a Name>
    ensures { option_copied result ≡ spec.unknown_in_select source.now select.now }
{
    let found = unknown_in_outs(source, select.outs.as_slice());
    if found.is_some() {
        return found;
    }
    let found = unknown_in_filter(source, &select.filter);
    if found.is_some() {
        return found;
    }
    unknown_in_groups(source, select.groups.as_slice())
}

/// The fault of the first name in the text that no column has, if there is one: UnknownName, in the
/// outputs and behind EXCEPT, then in WHERE, then in GROUP BY. Fails for want of memory alone.
pub fn unknown_name(
    alloc: Global,
    source: &[Column],
    select: &Select,
) -> Result<Option<CheckFault>, AllocError>
    ensures { IfOk result (λ fault. fault ≡ spec.names_are_columns source.now select.now) }
{
    let Some(name) = unknown_in_select(source, select) else {
        return Ok(None);
    };
    let name = name.copy(alloc)?;
    Ok(Some(CheckFault::UnknownName { name }))
}

// ---- the names of outputs

/// The name, where an expression is a plain column.
pub fn column_name(tree: &SqlExpr) -> Option<&Name>
    ensures { option_copied result ≡ spec.column_name tree.now }
{
    match tree {
        SqlExpr::Name(name) => Some(name),
        _ => None,
    }
}

fn column_of<'a>(source: &'a [Column], name: &Name) -> Option<&'a Column>
    ensures { option_copied result ≡ find (λ found. same_name found.name name.now) source.now }
{
    source.iter().find(|found| found.name.is_same(name))
}

/// The name of a column as the source spells it.
fn source_spelling<'a>(source: &'a [Column], name: &Name) -> Option<&'a Name>
    ensures { option_copied result ≡ spec.source_spelling source.now name.now }
{
    let Some(found) = column_of(source, name) else {
        return None;
    };
    Some(&found.name)
}

/// The name of an output: its own, or else that of the column that it is, as the source spells it.
pub fn out_name<'a>(source: &'a [Column], tree: &SqlExpr, own: &'a Option<Name>) -> Option<&'a Name>
    ensures { option_copied result ≡ spec.out_name source.now tree.now own.now }
{
    match own {
        Some(name) => Some(name),
        None => {
            let Some(name) = column_name(tree) else {
                return None;
            };
            source_spelling(source, name)
        }
    }
}

fn is_excepted(except: &[Name], column: &Column) -> bool
    ensures { result ≡ list_any (same_name column.now.name) except.now }
{
    except.iter().any(|name| column.name.is_same(name))
}

/// Whether `* EXCEPT` with these names leaves a column.
pub fn is_left(except: &[Name], column: &Column) -> bool
    ensures { result ≡ spec.is_left except.now column.now }
{
    !is_excepted(except, column)
}

fn is_unnamed(output: &Out) -> bool
    ensures { result ≡ spec.is_unnamed output.now }
{
    match output {
        Out::Star { except: _ } => false,
        Out::One { expr, name } => name.is_none() && column_name(expr).is_none(),
    }
}

fn unnamed_place(outs: &[Out]) -> Option<usize>
    ensures { result ≡ position spec.is_unnamed outs.now }
{
    outs.iter().position(|output| is_unnamed(output))
}

/// The number from 1 of a place. A list so long that 32 bits don't number it has no place in memory.
fn number_of(place: usize) -> Result<u32, AllocError>
    ensures { IfOk result (λ number. number ≡ place + 1) }
{
    match u32::try_from(place) {
        Ok(place) => match place.checked_add(1) {
            Some(number) => Ok(number),
            None => Err(AllocError),
        },
        Err(_) => Err(AllocError),
    }
}

/// The fault of the first output that is no plain column and has no name, if there is one: NoName,
/// with its number from 1, where `*` is one output. Fails as for want of memory where 32 bits don't
/// hold the number, and not otherwise.
pub fn unnamed_output(outs: &[Out]) -> Result<Option<CheckFault>, AllocError>
    ensures { IfOk result (λ fault. fault ≡ spec.outputs_are_named outs.now) }
{
    let Some(place) = unnamed_place(outs) else {
        return Ok(None);
    };
    let item = number_of(place)?;
    Ok(Some(CheckFault::NoName { item }))
}
