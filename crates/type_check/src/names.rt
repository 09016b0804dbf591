//! Columns that repeat or differ.

ghost use Rattle.std.specs.Prelude.{◌≡◌};
ghost use Rattle.std.specs.Option.{option_copied};
ghost use Rattle.row_expr.specs.Kinds as kinds;
ghost use Rattle.expr_typing.specs.Typing as typing;
ghost use Rattle.type_check.specs.Outputs as spec;

use value_core::{Column, Kind, Name};

/// The most columns of a table.
pub const MAX_COLUMNS: usize = 256;

/// As many columns as are looked at: the most that a table may have, and one more. Which of them
/// differ in name is sought among these alone, so that the work has a bound.
pub fn looked_at(columns: &[Column]) -> &[Column]
    ensures { result.now ≡ spec.looked_at columns.now }
{
    if columns.len() > MAX_COLUMNS {
        &columns[..MAX_COLUMNS + 1]
    } else {
        columns
    }
}

/// Whether a column has this name, but for the case of ASCII letters.
pub fn has_column(columns: &[Column], name: &Name) -> bool
    ensures { result ≡ typing.has_column columns.now name.now }
{
    columns.iter().any(|column| column.name.is_same(name))
}

/// The name of the first column that has the name of an earlier one.
pub fn first_repeat(columns: &[Column]) -> Option<&Name>
    ensures { option_copied result ≡ spec.first_repeat columns.now }
{
    for at in 0..columns.len() {
        let name = &columns[at].name;
        if has_column(&columns[..at], name) {
            return Some(name);
        }
    }
    None
}

fn is_same_kind(left: Kind, right: Kind) -> bool
    ensures { result ≡ kinds.same_kind left right }
{
    matches!(
        (left, right),
        (Kind::Bool, Kind::Bool)
            | (Kind::Int, Kind::Int)
            | (Kind::Big, Kind::Big)
            | (Kind::Str, Kind::Str)
    )
}

fn is_same_column(wanted: &Column, found: &Column) -> bool
    ensures { result ≡ spec.same_column wanted.now found.now }
{
    wanted.name.is_same(&found.name) && is_same_kind(wanted.kind, found.kind)
}

/// The name of the first column of a table that is not the declared one, or of the first one too
/// many on either side.
pub fn first_difference<'a>(declared: &'a [Column], table: &'a [Column]) -> Option<&'a Name>
    ensures { option_copied result ≡ spec.first_difference declared.entry.now table.entry.now }
{
    let mut declared = declared;
    let mut table = table;
    while let Some((wanted, more_declared)) = declared.split_first() {
        let Some((found, more)) = table.split_first() else {
            return Some(&wanted.name);
        };
        if !is_same_column(wanted, found) {
            return Some(&found.name);
        }
        declared = more_declared;
        table = more;
    }
    let Some(found) = table.first() else {
        return None;
    };
    Some(&found.name)
}
