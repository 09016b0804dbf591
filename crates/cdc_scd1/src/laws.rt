ghost use Rattle.std.specs.Prelude.{◌≡◌, Bool, List, None, fold};
ghost use Rattle.value_core.specs.declared.event.Event.{Event};
ghost use Rattle.flow_model.specs.Current.{after_event};
ghost use Rattle.cdc_scd1.specs.Stamps.{AreInTurn, no_event, row_told, stamped};

/// A law: the row that a history leaves, event after event, is the one that its stamps tell: a column shows what the
/// greatest upsert that set it gave, unless a delete or a truncate is behind it, and the row is there if its greatest
/// upsert outlives them (Databricks documentation, AUTO CDC, SCD type 1 and tombstones).
pub fn a_row_is_read_by_its_stamps()
    ensures { (ignore_null : Bool) (events : List Event)
        → AreInTurn events
        → row_told (fold (stamped ignore_null) no_event events) ≡ fold (after_event ignore_null) None events }
{}
