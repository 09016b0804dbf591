//! Laws of what is checked.

ghost use Rattle.std.specs.Prelude.{◌≡◌, List, ℕ, Ok, IsTrue};
ghost use Rattle.plan_core.specs.declared.expectation.Expectation.{Expectation};
ghost use Rattle.plan_core.specs.declared.flow.Origin.{Origin};
ghost use Rattle.plan_core.specs.Sound.{IsSoundAppend, IsSoundQuery, are_sound_expectations, kinds_of};
ghost use Rattle.sql_tree.specs.declared.statement.Select.{Select};
ghost use Rattle.sql_tree.specs.declared.statement.SqlItem.{SqlItem};
ghost use Rattle.value_core.specs.declared.schema.Column.{Column};
ghost use Rattle.select_checks.specs.declared.stream.StreamSelect.{StreamSelect};
ghost use Rattle.select_checks.specs.declared.view.ViewSelect.{ViewSelect};
ghost use Rattle.select_checks.specs.Expecting.{expectations_over};
ghost use Rattle.select_checks.specs.Parts.{flow_of_select, query_of_select};
ghost use Rattle.select_checks.specs.Streams.{stream_select};
ghost use Rattle.select_checks.specs.Views.{view_select};

/// A law: a flow of what the select of a streaming flow gives is sound over the columns that it
/// reads, and gives rows of the columns that are given.
pub fn checked_streams_are_sound()
    ensures { (select : Select) (source : List Column) (given : StreamSelect) (name : List ℕ) (origin : Origin)
        → stream_select select source ≡ Ok given
        → IsSoundAppend (kinds_of source) (kinds_of given.columns) (flow_of_select name origin given) }
{}

/// A law: a query of what the select of a view gives is sound over the columns that it reads, and
/// gives rows of the columns that are given.
pub fn checked_views_are_sound()
    ensures { (select : Select) (source : List Column) (given : ViewSelect) (origin : List ℕ)
        → view_select select source ≡ Ok given
        → IsSoundQuery (kinds_of source) (kinds_of given.columns) (query_of_select origin given) }
{}

/// A law: checked expectations are sound over the columns.
pub fn checked_expectations_are_sound()
    ensures { (items : List SqlItem) (columns : List Column) (given : List Expectation)
        → expectations_over items columns ≡ Ok given
        → IsTrue (are_sound_expectations (kinds_of columns) given) }
{}
