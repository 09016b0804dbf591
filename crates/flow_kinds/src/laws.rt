ghost use Rattle.std.specs.Prelude.{◌≡◌, true, List, length, IsTrue, Ok};
ghost use Rattle.value_core.specs.declared.event.Event.{Event};
ghost use Rattle.value_core.specs.declared.value.Kind.{Kind};
ghost use Rattle.value_core.specs.Order.{Row};
ghost use Rattle.plan_core.specs.declared.expectation.Expectation.{Expectation};
ghost use Rattle.plan_core.specs.declared.flow.AppendFlow.{AppendFlow};
ghost use Rattle.plan_core.specs.declared.flow.Cdc.{Cdc};
ghost use Rattle.plan_core.specs.declared.query.Query.{Query};
ghost use Rattle.plan_core.specs.Sound.{IsSoundAppend, IsSoundFeed, IsSoundQuery, target_kinds};
ghost use Rattle.flow_model.specs.Append.{append_out};
ghost use Rattle.flow_model.specs.Events.{fresh};
ghost use Rattle.flow_model.specs.Feed.{given};
ghost use Rattle.flow_model.specs.Target.{target_rows};
ghost use Rattle.flow_model.specs.Views.{Viewed, viewed};
ghost use Rattle.flow_kinds.specs.EventKinds.{all_events_of, all_fit, key_kinds};

/// A law: over rows that fit the columns that it reads, an append flow gives rows that fit the columns that it fills.
pub fn append_rows_fit_the_table()
    ensures { (source target : List Kind) (flow : AppendFlow) (xs : List Expectation) (rows : List Row)
        → IsSoundAppend source target flow
        → all_fit source rows ≡ true
        → all_fit target (append_out flow xs rows) ≡ true }
{}

/// A law: over rows that fit the columns that it reads, a change feed gives events whose sequence, key and columns are
/// of their kinds, and so are those of them that are fresh beside old ones.
pub fn events_are_of_their_kinds()
    ensures all { (source sequences columns : List Kind) (cdc : Cdc) (xs : List Expectation) (rows : List Row)
        → IsSoundFeed source sequences columns cdc
        → all_fit source rows ≡ true
        → all_events_of sequences (key_kinds columns cdc.keys) columns (given cdc xs rows) ≡ true }
    ensures of_them { (sequences keys columns : List Kind) (old events : List Event)
        → all_events_of sequences keys columns events ≡ true
        → all_events_of sequences keys columns (fresh old events) ≡ true }
{}

/// A law: of events of their kinds, both types of SCD give rows that fit the columns of the table: those of the events,
/// and for type 2 behind them where each row starts and ends.
pub fn feed_rows_fit_the_table()
    ensures { (sequences keys columns : List Kind) (cdc : Cdc) (events : List Event)
        → (IsTrue cdc.scd2 → length sequences ≡ 1)
        → all_events_of sequences keys columns events ≡ true
        → all_fit (target_kinds cdc.scd2 sequences columns) (target_rows cdc events) ≡ true }
{}

/// A law: over rows that fit the columns that it reads, the query of a view gives rows that fit the view's columns.
pub fn view_rows_fit_the_view()
    ensures { (source target : List Kind) (query : Query) (xs : List Expectation) (rows : List Row) (result : Viewed)
        → IsSoundQuery source target query
        → all_fit source rows ≡ true
        → viewed query xs rows ≡ Ok result
        → all_fit target result.rows ≡ true }
{}
