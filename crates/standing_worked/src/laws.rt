// Laws of a store that was worked by hand.
ghost use Rattle.std.specs.Prelude.{◌≡◌, Some, [], ◌∷◌, codes, false, true};
ghost use Rattle.flow_model.specs.Append.{append_stop};
ghost use Rattle.plan_core.specs.declared.stop.Place.TheVariants.{Number};
ghost use Rattle.plan_core.specs.declared.stop.Stop.TheVariants as stop;
ghost use Rattle.state_model.specs.After.{after_payload, state_after};
ghost use Rattle.state_steps.specs.Stands.{Stands};
ghost use Rattle.standing_worked.specs.Worked.{at_first, files, first_payloads, from_bronze, left_behind, must_be_b, once_reset, plan, reset_payload, row, third_payload, three_lines, two_lines};

/// A law: the store of three datasets that a first update leaves, as it was worked by hand, stands, and
/// so does the one that a reset leaves of a table together with its reader.
pub fn a_store_stands_as_worked()
    ensures comes { state_after first_payloads ≡ at_first }
    ensures stands { Stands plan (files two_lines) at_first }
    ensures reset { after_payload at_first reset_payload ≡ once_reset }
    ensures stands_reset { Stands plan (files two_lines) once_reset }
{}

/// A law: where a flow stops at a row, its table stays behind its source, and the store stands.
pub fn a_failing_flow_stays_behind()
    ensures comes { after_payload at_first third_payload ≡ left_behind }
    ensures stops { append_stop from_bronze (must_be_b ∷ []) (row true false ∷ []) ≡ Some (stop.Expect (Number 1) (codes "b is true")) }
    ensures stands { Stands plan (files three_lines) left_behind }
{}
