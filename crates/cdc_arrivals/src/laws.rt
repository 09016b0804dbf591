ghost use Rattle.std.specs.Prelude.{◌≡◌, Bool, List, ℕ, false, None, fold};
ghost use Rattle.value_core.specs.declared.event.Event.{Event};
ghost use Rattle.value_core.specs.EventOrder.{history_order, sorted_by};
ghost use Rattle.value_core.specs.Order.{Row};
ghost use Rattle.flow_model.specs.Current.{after_event, scd1};
ghost use Rattle.cdc_scd1.specs.Stamps.{Stamps, no_event, row_told, stamped};
ghost use Rattle.cdc_arrivals.specs.Arrivals.{AreOfOwnMoments, HasWidth, HaveWidth, collide, heard, rows_told};

/// A law: two events of one width that don't collide leave the same stamps in either order.
pub fn stamps_take_any_order()
    ensures { (ignore_null : Bool) (stamps : Stamps) (a b : Event) (wide : ℕ)
        → HasWidth wide a
        → HasWidth wide b
        → collide a b ≡ false
        → stamped ignore_null (stamped ignore_null stamps a) b ≡ stamped ignore_null (stamped ignore_null stamps b) a }
{}

/// A law: the row that the stamps of a key's events and of truncates tell is the one that these leave in the order of the
/// key's history, in whatever order they arrive.
pub fn a_row_is_read_in_any_order()
    ensures { (ignore_null : Bool) (events : List Event) (wide : ℕ)
        → HaveWidth wide events
        → AreOfOwnMoments events
        → row_told (fold (stamped ignore_null) no_event events) ≡ fold (after_event ignore_null) None (sorted_by history_order events) }
{}

/// A law: the current rows of a change feed are those that the stamps of each key tell, in whatever order its events arrive.
pub fn current_rows_are_told_in_any_order()
    ensures { (ignore_null : Bool) (events : List Event) (wide : ℕ)
        → HaveWidth wide events
        → ((key : Row) → AreOfOwnMoments (heard key events))
        → rows_told ignore_null events ≡ scd1 ignore_null events }
{}
