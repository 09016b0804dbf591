// Laws of the datasets that a reset takes along.
ghost use Rattle.std.specs.Prelude.{◌≡◌, List, length, true, ℕ};
ghost use Rattle.std.specs.List.Sorted.{IsStrictlyIncreasing};
ghost use Rattle.graph_check.specs.Graphs.{AreWithin};
ghost use Rattle.landing_core.specs.declared.landing.LandingFile.{LandingFile};
ghost use Rattle.plan_core.specs.Sound.{IsSoundPlan};
ghost use Rattle.plan_core.specs.declared.plan.Dataset.{Dataset as Part};
ghost use Rattle.commit_payloads.specs.declared.payload.Payload.TheVariants as payload;
ghost use Rattle.state_model.specs.Dataset.{State};
ghost use Rattle.state_steps.specs.Stands.{Stands};
ghost use Rattle.state_steps.specs.Steps.{AreClosed, Commits};
ghost use Rattle.stream_closure.specs.Streams.{AreStreams, IsClosureOf, edges_of, holds_names, names_at};

/// A law: the names at the places of a closure are closed under streaming, hold the names of the set,
/// and are held by all names that are closed and hold those of the set.
pub fn a_closure_is_closed()
    ensures closed { (plan : List Part) (edges : List (ℕ × ℕ)) (set places : List ℕ)
        → AreStreams plan edges
        → IsClosureOf edges set places
        → AreClosed (names_at plan places) plan }
    ensures set { (plan : List Part) (edges : List (ℕ × ℕ)) (set places : List ℕ)
        → IsClosureOf edges set places
        → holds_names (names_at plan places) (names_at plan set) ≡ true }
    ensures least { (plan : List Part) (edges : List (ℕ × ℕ)) (set places : List ℕ) (names : List (List ℕ))
        → AreStreams plan edges
        → IsClosureOf edges set places
        → AreClosed names plan
        → holds_names names (names_at plan set) ≡ true
        → holds_names names (names_at plan places) ≡ true }
{}

/// A law: of a store that stands, a reset of the names at the places of a closure may be committed.
pub fn a_closure_is_a_reset()
    ensures { (parts : List Part) (ever : List LandingFile) (state : State) (edges : List (ℕ × ℕ)) (set places : List ℕ)
        → Stands parts ever state
        → AreStreams parts edges
        → IsClosureOf edges set places
        → IsStrictlyIncreasing places
        → Commits parts ever state (payload.Reset (names_at parts places)) parts }
{}

/// A law: a plan whose names differ has the edges that its flows name, and edges are within its places.
pub fn a_plan_has_its_edges()
    ensures are { (plan : List Part) → IsSoundPlan plan → AreStreams plan (edges_of plan) }
    ensures within { (plan : List Part) (edges : List (ℕ × ℕ)) → AreStreams plan edges → AreWithin (length plan) edges }
{}
