ghost use Rattle.std.specs.Prelude.{◌≡◌, ◌<◌, ◌^◌, ℕ, List, [], length};
ghost use Rattle.disk_model.specs.declared.disk.Side.{Side};
ghost use Rattle.disk_model.specs.Disk.{TwoFiles, file, other};
ghost use Rattle.commit_gate.specs.Log.{HasBodies, IsDead};
ghost use Rattle.log_pair.specs.Pair.{HasPairBodies, HoldsIn, Sight, Shows};
ghost use Rattle.log_pair.specs.Load.{IsKeptOrBegun};

/// A law: two files come to one thing at most: no log yet, the bodies of the log of the greater epoch, a
/// foreign file, a damaged log, or two logs of one epoch.
pub fn two_files_have_one_answer()
    ensures { (files : TwoFiles) (a b : Sight) → length files.left < 2 ^ 64 → length files.right < 2 ^ 64 → Shows files a → Shows files b → a ≡ b }
{}

/// A law: files that are as they were, or were begun by a load, have the bodies that they had.
pub fn a_load_keeps_the_bodies()
    ensures { (was files : TwoFiles) (bodies : List (List ℕ)) → IsKeptOrBegun (Unit {0}) was files → HasPairBodies bodies was → HasPairBodies bodies files }
{}

/// A law: a live log beside a file that has none is read as it is, and an empty file has none.
pub fn a_lone_log_is_read()
    ensures lone { (side : Side) (epoch : ℕ) (bodies : List (List ℕ)) (files : TwoFiles) → epoch < 2 ^ 64 → HasBodies epoch bodies (file side files) → IsDead (file (other side) files) → HoldsIn side epoch bodies files }
    ensures empty { IsDead [] }
{}
