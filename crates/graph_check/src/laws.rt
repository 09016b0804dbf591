// Laws of levels, cycles and closures.
ghost use Rattle.std.specs.Prelude.{◌≡◌, ◌<◌, ℕ, Bool, true, List, slice_index};
ghost use Rattle.std.specs.List.{Contains};
ghost use Rattle.graph_check.specs.Graphs.{AreWithin, IsCyclic, IsInClosure, Reads};
ghost use Rattle.graph_check.specs.Levels.{AreLevels};

/// A law: every source is at a lower level than its reader.
pub fn sources_are_lower()
    ensures { (count : ℕ) (edges : List (ℕ × ℕ)) (levels : List ℕ) → AreWithin count edges → AreLevels count edges levels → (reader source : ℕ) → Reads edges reader source → slice_index levels source < slice_index levels reader }
{}

/// A law: a graph that has levels has no cycle.
pub fn levels_have_no_cycle()
    ensures { (count : ℕ) (edges : List (ℕ × ℕ)) (levels : List ℕ) → AreWithin count edges → AreLevels count edges levels → IsCyclic edges → ⊥ }
{}

/// A law: a graph has at most one list of levels.
pub fn levels_are_one()
    ensures { (count : ℕ) (edges : List (ℕ × ℕ)) (first second : List ℕ) → AreWithin count edges → AreLevels count edges first → AreLevels count edges second → first ≡ second }
{}

/// A law: a closure has the nodes of its set, and with a node each reader of it.
pub fn closure_holds_its_readers()
    ensures set { (edges : List (ℕ × ℕ)) (set : List ℕ) (node : ℕ) → Contains set node → IsInClosure edges set node }
    ensures readers { (edges : List (ℕ × ℕ)) (set : List ℕ) (reader source : ℕ) → Reads edges reader source → IsInClosure edges set source → IsInClosure edges set reader }
{}

/// A law: each test that the nodes of a set pass, and with a node each reader of it, is passed by the whole closure.
pub fn closure_is_least()
    ensures { (edges : List (ℕ × ℕ)) (set : List ℕ) (test : ℕ → Bool) → ((node : ℕ) → Contains set node → test node ≡ true) → ((reader source : ℕ) → Reads edges reader source → test source ≡ true → test reader ≡ true) → (node : ℕ) → IsInClosure edges set node → test node ≡ true }
{}
