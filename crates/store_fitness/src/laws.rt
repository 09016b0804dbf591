// Laws of stores that fit a plan.
ghost use Rattle.std.specs.Prelude.{◌≡◌, ℕ, List, Option};
ghost use Rattle.commit_payloads.specs.declared.payload.Payload.TheVariants as payload;
ghost use Rattle.commit_payloads.specs.declared.take.Take.{Take};
ghost use Rattle.landing_core.specs.declared.landing.LandingFile.{LandingFile};
ghost use Rattle.plan_core.specs.declared.plan.Dataset.{Dataset as Part};
ghost use Rattle.pair_state.specs.Leads.{IsReachable};
ghost use Rattle.state_model.specs.After.{after_payload};
ghost use Rattle.state_model.specs.Dataset.{State, definitions_of};
ghost use Rattle.state_model.specs.Follows.{Fits};
ghost use Rattle.state_steps.specs.Parts.{AreTyped};
ghost use Rattle.state_steps.specs.Stands.{Stands};
ghost use Rattle.update_plan.specs.Commits.{AreOfPlan};
ghost use Rattle.store_fitness.specs.Fitness.{Answers, AreAppends, EndsAtSource, FitsPlan, IsReady};

use pair_state::a_state_comes_of_payloads;

/// A law: a store fits a plan, or one dataset of it is the first that doesn't.
pub fn a_store_has_one_answer()
    ensures { (plan : List Part) (state : State) (a b : Option (List ℕ)) → Answers plan state a → Answers plan state b → a ≡ b }
{}

/// A law: a store that stands fits each plan that has the datasets of which it stands, so that it is never
/// told unfit.
pub fn a_store_that_stands_fits()
    ensures { (plan parts : List Part) (ever : List LandingFile) (state : State)
        → Stands parts ever state
        → AreTyped parts parts (definitions_of state)
        → AreOfPlan plan parts
        → FitsPlan plan state }
{}

/// A law: a batch that fits a store which is ready for a plan of append tables, and moves its flow to its
/// source's version, leaves it ready, where payloads lead to what it comes to.
pub fn a_batch_keeps_a_store_ready()
    ensures { (plan : List Part) (state : State) (batch : Take)
        → AreAppends plan
        → IsReady plan state
        → Fits state (payload.Take batch)
        → EndsAtSource state batch
        → IsReachable (after_payload state (payload.Take batch))
        → IsReady plan (after_payload state (payload.Take batch)) }
{
    a_state_comes_of_payloads();
}
