//! Names that no column has, or that one has already.

ghost use Rattle.std.specs.Prelude.{◌≡◌};
ghost use Rattle.std.specs.Option.{option_copied, option_or};
ghost use Rattle.statement_checks.specs.Declares as declares;
ghost use Rattle.expr_typing.specs.Typing as typing;
ghost use Rattle.feed_checks.specs.Clauses as clauses;
ghost use Rattle.feed_checks.specs.Feeds as spec;

use expr_typing::first_unknown;
use sql_tree::{CdcTree, SqlExpr, SqlSequence, SqlSome};
use value_core::{Column, Name};

/// Whether a column has this name, but for the case of ASCII letters.
pub fn has_column(columns: &[Column], name: &Name) -> bool
    ensures { result ≡ typing.has_column columns.now name.now }
{
    columns.iter().any(|column| column.name.is_same(name))
}

/// The name, if no column has it.
fn if_unknown<'a>(name: &'a Name, columns: &[Column]) -> Option<&'a Name>
    ensures { option_copied result ≡ typing.if_unknown columns.now name.now }
{
    if has_column(columns, name) {
        None
    } else {
        Some(name)
    }
}

/// The first of these names that no column has.
pub fn stray_name<'a>(columns: &[Column], names: &'a [Name]) -> Option<&'a Name>
    ensures { option_copied result ≡ spec.stray_name columns.now names.now }
{
    for name in names {
        let found = if_unknown(name, columns);
        if found.is_some() {
            return found;
        }
    }
    None
}

fn stray_in<'a>(columns: &[Column], tree: &'a Option<SqlExpr>) -> Option<&'a Name>
    ensures { option_copied result ≡ spec.stray_in columns.now tree.now }
{
    match tree {
        None => None,
        Some(tree) => first_unknown(tree, columns),
    }
}

/// The left name, or else the right one.
fn first<'a>(left: Option<&'a Name>, right: Option<&'a Name>) -> Option<&'a Name>
    ensures { option_copied result ≡ option_or (option_copied left.entry) (option_copied right.entry) }
{
    match left {
        Some(name) => Some(name),
        None => right,
    }
}

fn stray_part<'a>(columns: &[Column], sequence: &'a SqlSequence) -> Option<&'a Name>
    ensures { option_copied result ≡ spec.stray_name columns.now (clauses.sequence_names sequence.now) }
{
    match sequence {
        SqlSequence::One(name) => first(if_unknown(name, columns), None),
        SqlSequence::Struct(names) => stray_name(columns, names.as_slice()),
    }
}

/// The names behind COLUMNS or TRACK HISTORY ON.
fn some_names(list: &Option<SqlSome>) -> &[Name]
    ensures { result.now ≡ declares.some_names list.now }
{
    match list {
        None => &[],
        Some(SqlSome::Except(names)) => names.as_slice(),
        Some(SqlSome::Only(names)) => names.as_slice(),
    }
}

/// The first name of the last clauses that no column has.
fn stray_behind<'a>(feed: &'a CdcTree, source: &[Column], given: &[Column]) -> Option<&'a Name>
    ensures { option_copied result ≡ spec.stray_behind feed.now source.now given.now }
{
    first(
        stray_part(source, &feed.sequence),
        first(
            stray_name(source, some_names(&feed.columns)),
            first(stray_name(given, some_names(&feed.track)), None),
        ),
    )
}

/// The first name in the text that is no column: of the source, and behind TRACK HISTORY ON of the
/// outputs.
pub fn stray_of_feed<'a>(feed: &'a CdcTree, source: &[Column], given: &[Column]) -> Option<&'a Name>
    ensures { option_copied result ≡ spec.stray_of_feed feed.now source.now given.now }
{
    first(
        stray_name(source, feed.keys.as_slice()),
        first(
            stray_in(source, &feed.delete_when),
            first(
                stray_in(source, &feed.truncate_when),
                first(stray_behind(feed, source, given), None),
            ),
        ),
    )
}

/// Whether the target has a column of this name besides the outputs.
fn is_period_name(name: &Name) -> bool
    ensures { result ≡ clauses.is_period_name name.now }
{
    name.as_str().eq_ignore_ascii_case("__START_AT")
        || name.as_str().eq_ignore_ascii_case("__END_AT")
}

fn is_name_taken(history: bool, before: &[Column], name: &Name) -> bool
    ensures { result ≡ spec.is_name_taken history before.now name.now }
{
    (history && is_period_name(name)) || has_column(before, name)
}

/// The name of the first output that has the name of an earlier one, or for SCD type 2 the name of
/// a column that the target has besides.
pub fn first_taken(history: bool, given: &[Column]) -> Option<&Name>
    ensures { option_copied result ≡ spec.first_taken history given.now }
{
    for at in 0..given.len() {
        let name = &given[at].name;
        if is_name_taken(history, &given[..at], name) {
            return Some(name);
        }
    }
    None
}
