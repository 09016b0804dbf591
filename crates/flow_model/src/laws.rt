ghost use Rattle.std.specs.Prelude.{◌≡◌, ◌++◌, List, [], None, filter_map, map};
ghost use Rattle.std.specs.Option.{option_or};
ghost use Rattle.value_core.specs.declared.event.Event.{Event};
ghost use Rattle.value_core.specs.Bags.{SameBag};
ghost use Rattle.value_core.specs.EventOrder.{event_order, sorted_by};
ghost use Rattle.value_core.specs.Order.{Row};
ghost use Rattle.plan_core.specs.declared.expectation.Expectation.{Expectation};
ghost use Rattle.plan_core.specs.declared.flow.AppendFlow.{AppendFlow};
ghost use Rattle.plan_core.specs.declared.flow.Cdc.{Cdc};
ghost use Rattle.plan_core.specs.declared.query.Query.{Query};
ghost use Rattle.flow_model.specs.Admission.{counts};
ghost use Rattle.value_core.specs.Tallies.{added};
ghost use Rattle.flow_model.specs.Append.{append_out, append_seen, append_stop};
ghost use Rattle.flow_model.specs.Events.{fresh};
ghost use Rattle.flow_model.specs.Feed.{events, feed_seen, feed_stop, given, upsert_in};
ghost use Rattle.flow_model.specs.Halts.{feed_halt, first_tie, front, front_events, numbered_from, readings};
ghost use Rattle.flow_model.specs.Views.{viewed};
ghost use Rattle.flow_model.specs.WorkedEvents as events;
ghost use Rattle.flow_model.specs.WorkedRows as rows;

/// A law: what two batches of an append flow give is what the rows of both give, and none stops
/// where no batch does. Each record of a source is processed once (Databricks documentation,
/// Streaming tables).
pub fn append_batches_add_up()
    ensures out { (flow : AppendFlow) (xs : List Expectation) (rows more : List Row)
        → append_out flow xs (rows ++ more) ≡ append_out flow xs rows ++ append_out flow xs more }
    ensures seen { (flow : AppendFlow) (xs : List Expectation) (rows more : List Row)
        → append_seen flow xs (rows ++ more) ≡ append_seen flow xs rows ++ append_seen flow xs more }
    ensures goes_on { (flow : AppendFlow) (xs : List Expectation) (rows more : List Row)
        → append_stop flow xs rows ≡ None
        → append_stop flow xs more ≡ None
        → append_stop flow xs (rows ++ more) ≡ None }
    ensures parts { (flow : AppendFlow) (xs : List Expectation) (rows more : List Row)
        → append_stop flow xs (rows ++ more) ≡ None
        → (append_stop flow xs rows ≡ None) × (append_stop flow xs more ≡ None) }
{}

/// A law: the counts over rows and further rows are the sums of the counts of each.
pub fn counts_add_up()
    ensures { (xs : List Expectation) (rows more : List Row) → counts xs (rows ++ more) ≡ added (counts xs rows) (counts xs more) }
{}

/// A law: what an append flow gives depends on the bag of its rows alone, where none stops it.
pub fn append_takes_a_bag()
    ensures goes_on { (flow : AppendFlow) (xs : List Expectation) (rows others : List Row)
        → SameBag rows others
        → append_stop flow xs rows ≡ None
        → append_stop flow xs others ≡ None }
    ensures out { (flow : AppendFlow) (xs : List Expectation) (rows others : List Row)
        → SameBag rows others
        → SameBag (append_out flow xs rows) (append_out flow xs others) }
    ensures count { (flow : AppendFlow) (xs : List Expectation) (rows others : List Row)
        → SameBag rows others
        → counts xs (append_seen flow xs rows) ≡ counts xs (append_seen flow xs others) }
{}

/// A law: where the kept events are those of some rows, and further rows beside them have no stop,
/// the kept ones with the fresh ones behind are the events of all rows, and all rows have no stop.
pub fn feed_batches_add_up()
    ensures goes_on { (cdc : Cdc) (xs : List Expectation) (rows more : List Row) (kept : List Event)
        → sorted_by event_order kept ≡ events cdc xs rows
        → feed_stop cdc xs rows [] ≡ None
        → feed_stop cdc xs more kept ≡ None
        → feed_stop cdc xs (rows ++ more) [] ≡ None }
    ensures kept { (cdc : Cdc) (xs : List Expectation) (rows more : List Row) (old : List Event)
        → sorted_by event_order old ≡ events cdc xs rows
        → feed_stop cdc xs rows [] ≡ None
        → feed_stop cdc xs more old ≡ None
        → sorted_by event_order (old ++ fresh old (given cdc xs more)) ≡ events cdc xs (rows ++ more) }
    ensures seen { (cdc : Cdc) (xs : List Expectation) (rows more : List Row)
        → feed_seen cdc xs (rows ++ more) ≡ feed_seen cdc xs rows ++ feed_seen cdc xs more }
{}

/// A law: a feed stops at the first tie among the events before its halt, and else by its halt. Where
/// it has no halt, these events are those of all rows, and the counted upserts too.
pub fn ties_are_judged_first()
    ensures stop { (cdc : Cdc) (xs : List Expectation) (rows : List Row) (old : List Event)
        → feed_stop cdc xs rows old ≡ option_or (first_tie old (front_events cdc xs rows)) (feed_halt cdc xs rows) }
    ensures whole { (cdc : Cdc) (xs : List Expectation) (rows : List Row) → feed_halt cdc xs rows ≡ None → front cdc xs rows ≡ readings cdc xs rows }
    ensures events { (cdc : Cdc) (xs : List Expectation) (rows : List Row)
        → map (λ n. n.event) (numbered_from 1 (readings cdc xs rows)) ≡ given cdc xs rows }
    ensures seen { (cdc : Cdc) (xs : List Expectation) (rows : List Row)
        → filter_map upsert_in (readings cdc xs rows) ≡ feed_seen cdc xs rows }
{}

/// A law: the events of a change feed depend on the bag of its rows alone, where none stops it.
pub fn feed_takes_a_bag()
    ensures goes_on { (cdc : Cdc) (xs : List Expectation) (rows others : List Row)
        → SameBag rows others
        → feed_stop cdc xs rows [] ≡ None
        → feed_stop cdc xs others [] ≡ None }
    ensures same { (cdc : Cdc) (xs : List Expectation) (rows others : List Row)
        → SameBag rows others
        → feed_stop cdc xs rows [] ≡ None
        → events cdc xs rows ≡ events cdc xs others }
    ensures count { (cdc : Cdc) (xs : List Expectation) (rows others : List Row)
        → SameBag rows others
        → counts xs (feed_seen cdc xs rows) ≡ counts xs (feed_seen cdc xs others) }
{}

/// A law: what a view gives, its stop too, depends on the bag of its source's rows alone.
pub fn view_takes_a_bag()
    ensures { (query : Query) (xs : List Expectation) (rows others : List Row) → SameBag rows others → viewed query xs rows ≡ viewed query xs others }
{}

/// A law: the rows of change feeds that were worked by hand.
pub fn feeds_are_worked()
    ensures current { events.Current }
    ensures truncated { events.Truncated }
    ensures full_history { events.FullHistory }
    ensures tracked_history { events.TrackedHistory }
    ensures split { events.Split }
    ensures ignoring_null { events.IgnoringNull }
    ensures late_event { events.LateEvent }
    ensures repeat { events.IsRepeat }
    ensures tied { events.IsTied }
    ensures backwards { events.Backwards }
    ensures customers { events.Customers }
{}

/// A law: the rows of flows and views that were worked by hand.
pub fn flows_are_worked()
    ensures out { rows.Out }
    ensures tallies { rows.Tallies }
    ensures overflow { rows.Overflow }
    ensures no_overflow { rows.NoOverflow }
    ensures over_nothing { rows.OverNothing }
    ensures one { rows.One }
    ensures too_large { rows.TooLarge }
    ensures large_on_the_way { rows.LargeOnTheWay }
    ensures minimum { rows.Minimum }
    ensures grouped { rows.Grouped }
    ensures read_feed { rows.ReadFeed }
    ensures no_sequence { rows.NoSequence }
    ensures where_first { rows.WhereFirst }
    ensures left_first { rows.LeftFirst }
    ensures failure_first { rows.FailureFirst }
    ensures passed_over { rows.PassedOver }
    ensures dropped_upsert { rows.DroppedUpsert }
    ensures tied_row { rows.TiedRow }
{}
