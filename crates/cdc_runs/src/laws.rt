ghost use Rattle.std.specs.Prelude.{◌≡◌, Bool, List, Option, ℕ, [], None};
ghost use Rattle.value_core.specs.Order.{Row};
ghost use Rattle.value_core.specs.declared.event.Event.{Event};
ghost use Rattle.flow_model.specs.History.{Moment, intervals, moments_after};
ghost use Rattle.cdc_runs.specs.Runs.{carried, ends_in, recolumned};

/// A law: the intervals of a history are those that end with its moments.
pub fn runs_are_intervals()
    ensures { (tracked : List ℕ) (moments : List Moment) → intervals tracked moments ≡ ends_in tracked None moments [] }
{}

/// A law: another state before some events changes the effective columns after them as far as columns are carried on,
/// and from there on nothing.
pub fn changes_carry_on()
    ensures { (ignore_null : Bool) (events : List Event) (was is : Option Row)
        → moments_after ignore_null is events ≡ recolumned (moments_after ignore_null was events) (carried ignore_null was is events) }
{}
