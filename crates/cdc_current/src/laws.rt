ghost use Rattle.std.specs.Prelude.{◌≡◌, Bool, List, ℕ};
ghost use Rattle.std.specs.declared.cmp.Ordering.{Ordering};
ghost use Rattle.value_core.specs.declared.event.Event.{Event};
ghost use Rattle.value_core.specs.EventOrder.{sorted_by};
ghost use Rattle.flow_model.specs.Current.{scd1};
ghost use Rattle.flow_model.specs.Events.{AreOnce, IsClashFree};
ghost use Rattle.cdc_arrivals.specs.Arrivals.{HaveWidth};
ghost use Rattle.cdc_current.specs.Keeping.{AreKeyless, HaveOwnMoments, Keeping, Keeps};

use cdc_arrivals::{current_rows_are_told_in_any_order, stamps_take_any_order};

/// A law: events of which none repeats another or clashes with one, whose truncates have no key and whose upserts are of one
/// width, have moments of their own.
pub fn events_without_ties_have_own_moments()
    ensures { (events : List Event) (wide : ℕ) → AreOnce events → IsClashFree events → AreKeyless events → HaveWidth wide events → HaveOwnMoments events }
{}

/// A law: events of moments of their own may be sorted, by whatever order. What is kept of them stays what it is, and so do
/// the rows of SCD type 1.
pub fn events_may_be_sorted()
    ensures moments { (order : Event → Event → Ordering) (events : List Event) → HaveOwnMoments events → HaveOwnMoments (sorted_by order events) }
    ensures kept { (now : Keeping) (order : Event → Event → Ordering) (events : List Event) → HaveOwnMoments events → Keeps now events → Keeps now (sorted_by order events) }
    ensures rows { (ignore_null : Bool) (order : Event → Event → Ordering) (events : List Event) → HaveOwnMoments events → scd1 ignore_null (sorted_by order events) ≡ scd1 ignore_null events }
{
    stamps_take_any_order();
    current_rows_are_told_in_any_order();
}
