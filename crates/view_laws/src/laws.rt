ghost use Rattle.std.specs.Prelude.{◌≡◌, List, [], None};
ghost use Rattle.value_core.specs.declared.change.Change.{Change};
ghost use Rattle.value_core.specs.Bags.{changed, in_row_order, net_change};
ghost use Rattle.value_core.specs.Changes.{Holds};
ghost use Rattle.value_core.specs.Order.{Row};
ghost use Rattle.plan_core.specs.declared.expectation.Expectation.{Expectation};
ghost use Rattle.plan_core.specs.declared.query.Query.{Query};
ghost use Rattle.flow_model.specs.Admission.{counts};
ghost use Rattle.flow_model.specs.Views.{shares_of, viewed};
ghost use Rattle.view_laws.specs.Turned.{IsTurn, judged_rows, kept_of, part_over, part_stop, result_over, row_stop, unless_stopped};
ghost use Rattle.view_laws.specs.Weights.{Moves};

/// A law: a change of rows that are there moves the bag, and what moves a bag has its net change.
pub fn a_change_moves_a_bag()
    ensures moves { (old : List Row) (change : Change)
        → Holds old change.removed
        → Moves old change.removed change.added (changed old change) }
    ensures net { (old out more new : List Row) → Moves old out more new → net_change old new ≡ net_change out more }
{}

/// A law: a change of what a view reads touches the groups of its rows alone. What the view gives after it, what stops
/// it, and the net difference of its rows are told by the rows that go and come and by these groups.
pub fn a_view_turns_by_its_change()
    ensures view { (query : Query) (xs : List Expectation) (rows : List Row) (change : Change) (touched : List Row)
        → IsTurn query xs rows change touched
        → viewed query xs (changed rows change) ≡ unless_stopped
        (part_stop query (shares_of query (in_row_order (changed rows change))) touched change.added)
        (row_stop xs (part_over query (changed rows change) touched change.added))
        (judged_rows xs (result_over query (changed rows change))) }
    ensures result { (query : Query) (xs : List Expectation) (rows : List Row) (change : Change) (touched : List Row)
        → IsTurn query xs rows change touched
        → Moves (result_over query rows) (part_over query rows touched change.removed)
        (part_over query (changed rows change) touched change.added) (result_over query (changed rows change)) }
    ensures net { (query : Query) (xs : List Expectation) (rows : List Row) (change : Change) (touched : List Row)
        → (turn : IsTurn query xs rows change touched)
        → net_change turn.before.rows (kept_of xs (result_over query (changed rows change)))
        ≡ net_change (kept_of xs (part_over query rows touched change.removed)) (kept_of xs (part_over query (changed rows change) touched change.added)) }
    ensures sums_before { (query : Query) (xs : List Expectation) (rows : List Row) (change : Change) (touched : List Row)
        → IsTurn query xs rows change touched
        → part_stop query (shares_of query (in_row_order rows)) touched [] ≡ None }
    ensures verdicts_before { (query : Query) (xs : List Expectation) (rows : List Row) (change : Change) (touched : List Row)
        → IsTurn query xs rows change touched
        → row_stop xs (part_over query rows touched change.removed) ≡ None }
    ensures before { (query : Query) (xs : List Expectation) (rows : List Row) (change : Change) (touched : List Row)
        → (turn : IsTurn query xs rows change touched)
        → turn.before.counts ≡ counts xs (result_over query rows) }
{}
