ghost use Rattle.std.specs.Prelude.{◌≡◌, ◌++◌, ◌∷◌, Bool, List, Option, ℕ, map};
ghost use Rattle.value_core.specs.declared.event.Event.{Event};
ghost use Rattle.value_core.specs.Bags.{net_change};
ghost use Rattle.value_core.specs.EventOrder.{history_order, placed_by};
ghost use Rattle.value_core.specs.Order.{Row};
ghost use Rattle.flow_model.specs.Current.{history};
ghost use Rattle.flow_model.specs.History.{Interval, Moment, interval_row, intervals, key_rows, scd2};
ghost use Rattle.cdc_runs.specs.Runs.{ends_in};
ghost use Rattle.cdc_scd2.specs.Keys.{AreKeyed};
ghost use Rattle.cdc_scd2.specs.Splices.{IsMiddle};
ghost use Rattle.cdc_scd2.specs.Worked.{LateNull, LateRepeat, LateSplit, LongHistory};

/// A law: a change in the middle of a history has the net change of what ends in the middle, and of the run behind it.
pub fn changes_stay_in_the_middle()
    ensures { (tracked : List ℕ) (before xs ys after : List Moment) (ends : List Interval) (since : Option Row) (old new rest : List Interval)
        → IsMiddle tracked before xs after ends since old rest
        → IsMiddle tracked before ys after ends since new rest
        → net_change (map interval_row (intervals tracked (before ++ (xs ++ after)))) (map interval_row (intervals tracked (before ++ (ys ++ after))))
        ≡ net_change (map interval_row (ends_in tracked since xs after ++ old)) (map interval_row (ends_in tracked since ys after ++ new)) }
{}

/// A law: a new event changes the rows of its own key alone, as it changes the history of that key, in whatever order
/// events arrive. Feeds of a table that keeps histories have no truncates.
pub fn an_event_changes_its_key_alone()
    ensures { (ignore_null : Bool) (tracked : List ℕ) (events : List Event) (event : Event)
        → AreKeyed (event ∷ events)
        → net_change (scd2 ignore_null tracked events) (scd2 ignore_null tracked (event ∷ events))
        ≡ net_change (key_rows ignore_null tracked (history event.key events)) (key_rows ignore_null tracked (placed_by history_order event (history event.key events))) }
{}

/// A law: how many kept events late ones touch, worked by hand.
pub fn touches_are_worked()
    ensures long_history { LongHistory }
    ensures late_split { LateSplit }
    ensures late_null { LateNull }
    ensures late_repeat { LateRepeat }
{}
