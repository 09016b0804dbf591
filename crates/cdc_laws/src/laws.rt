ghost use Rattle.std.specs.Prelude.{◌≤◌, ◌∷◌, Bool, List, ℕ};
ghost use Rattle.value_core.specs.declared.event.Event.{Event};
ghost use Rattle.cdc_scd2.specs.Looks.{touched};
ghost use Rattle.cdc_laws.specs.Moved.{AreRising, HaveShape, IsNew, moved};

/// A law: of events of one shape, each one that is touched stands in a run whose row goes or comes, or its effective
/// columns change. So the bound on looks by what is touched is within that by what is moved.
pub fn what_is_touched_is_moved()
    ensures { (ignore_null : Bool) (tracked : List ℕ) (events : List Event) (event : Event) (wide long : ℕ)
        → AreRising events
        → IsNew event events
        → HaveShape wide long (event ∷ events)
        → touched ignore_null tracked events event ≤ moved ignore_null tracked events event }
{}
