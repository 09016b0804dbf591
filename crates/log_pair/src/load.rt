// A pair is loaded.
ghost use Rattle.std.specs.Prelude.{◌≡◌, ◌≢◌, ◌+◌, ◌<◌, ◌≤◌, ◌^◌, ℕ, length, IfOk, OnOk, OnErr};
ghost use Rattle.disk_model.specs.declared.disk.Side.TheVariants.{Left, Right};
ghost use Rattle.disk_model.specs.Disk.{TwoFiles, IsHonest, IsOnDisk, KeepsHonesty, file, other};
ghost use Rattle.disk_model.specs.Faults.{HasCauseOf};
ghost use Rattle.disk_model.specs.Moments.{LeavesOnly};
ghost use Rattle.commit_gate.specs.AtRest.{log_side, log_epoch};
ghost use Rattle.commit_gate.specs.Head.{IsHeadOf, IsUntouched, Same};
ghost use Rattle.commit_gate.specs.Log.{IsDead, IsLive, log_bytes};
ghost use Rattle.log_pair.specs.Pair.{IsNewest, IsUnbegun};
ghost use Rattle.log_pair.specs.Choice.{ChoiceAnswers};
ghost use Rattle.log_pair.specs.AtRest.{IsPairAtRest, pair_epoch};
ghost use Rattle.log_pair.specs.Load.{BeginAnswers, BegunByGate, IsBegunAt, LoadAnswers, LoadIsExact, IsKeptOrBegun, IsKeptOrBegunSynced, SameBothSynced, MayBegin, PairLoads, calls_before_first};

use crate::pair::Pair;
use crate::refusal::PairRefusal;
use commit_gate::{Bodies, Found, Head, Log, LogRefusal};
use disk_model::{Disk, Side};
use std::alloc::Global;

// How long a log without records is.
const NEW_LOG_LEN: u64 = 18;

// Of two live logs, the one of the greater epoch.
fn newer(left: u64, right: u64) -> Result<Option<Side>, PairRefusal>
    ensures sound { result ≢ Err PairRefusal.Failed }
    ensures answers { (files : TwoFiles) → IsLive left files.left → IsLive right files.right → ChoiceAnswers files result }
{
    if left == right {
        return Err(PairRefusal::SameEpoch { epoch: left });
    }
    if left < right {
        return Ok(Some(Side::Right));
    }
    Ok(Some(Side::Left))
}

// Of one live log and none, the live one.
fn only(side: Side, epoch: u64) -> Result<Option<Side>, PairRefusal>
    ensures sound { result ≢ Err PairRefusal.Failed }
    ensures answers { (files : TwoFiles) → IsLive epoch (file side files) → IsDead (file (other side) files) → ChoiceAnswers files result }
{
    let _ = epoch;
    Ok(Some(side))
}

// Where neither log is live, no file may be longer than a new log.
fn none_yet(left: u64, right: u64) -> Result<Option<Side>, PairRefusal>
    ensures sound { result ≢ Err PairRefusal.Failed }
    ensures answers { (files : TwoFiles) → IsDead files.left → IsDead files.right → left ≡ length files.left → right ≡ length files.right → ChoiceAnswers files result }
{
    if left > NEW_LOG_LEN {
        return Err(PairRefusal::Foreign {
            side: Side::Left,
            len: left,
        });
    }
    if right > NEW_LOG_LEN {
        return Err(PairRefusal::Foreign {
            side: Side::Right,
            len: right,
        });
    }
    Ok(None)
}

// Which log is read, if there is one.
fn choose(left: Head, right: Head) -> Result<Option<Side>, PairRefusal>
    ensures sound { result ≢ Err PairRefusal.Failed }
    ensures answers { (files : TwoFiles) → IsHeadOf files.left left → IsHeadOf files.right right → ChoiceAnswers files result }
{
    match left {
        Head::Live { epoch: one } => match right {
            Head::Live { epoch: two } => newer(one, two),
            Head::Shut { .. } => only(Side::Left, one),
        },
        Head::Shut { len: one } => match right {
            Head::Live { epoch: two } => only(Side::Right, two),
            Head::Shut { len: two } => none_yet(one, two),
        },
    }
}

// A look at both heads, each after a sync.
fn look<D: Disk>(disk: &mut D) -> Result<Option<Side>, PairRefusal>
    ensures answers { D.tells → result ≢ Err PairRefusal.Failed → ChoiceAnswers (D.state disk.old).now result }
    ensures small { D.tells → result ≢ Err PairRefusal.Failed → (length (D.state disk.old).now.left ≤ 2 ^ 40) × (length (D.state disk.old).now.right ≤ 2 ^ 40) }
    ensures untouched { D.tells → IsUntouched (D.state disk.old) (D.state disk.new) }
    ensures honesty { D.tells → KeepsHonesty (D.state disk.old) (D.state disk.new) }
    ensures on_disk { D.tells → IsHonest (D.state disk.old) → result ≢ Err PairRefusal.Failed → IsOnDisk Left (D.state disk.new) × IsOnDisk Right (D.state disk.new) }
    ensures time { D.tells → D.tells_moments → LeavesOnly Same (D.state disk.old) (D.state disk.new) }
    ensures synced { D.tells → D.tells_moments → IsHonest (D.state disk.old) → result ≢ Err PairRefusal.Failed → LeavesOnly (SameBothSynced (D.state disk.old).now) (D.state disk.old) (D.state disk.new) }
    ensures cause { HasCauseOf PairRefusal.Failed (D.faults disk.old) (D.faults disk.new) result }
    ensures room { D.room disk.new ≡ D.room disk.old }
{
    let left = Log::head(disk, Side::Left)?;
    let right = Log::head(disk, Side::Right)?;
    choose(left, right)
}

// Loads the newest log.
fn read<D: Disk>(alloc: Global, disk: &mut D, side: Side) -> Result<(Pair, Bodies), PairRefusal>
    requires newest { D.tells → (epoch : ℕ) × IsNewest side epoch (D.state disk.old).now }
    requires on_disk { D.tells → IsHonest (D.state disk.old) → IsOnDisk Left (D.state disk.old) × IsOnDisk Right (D.state disk.old) }
    ensures answers { D.tells → LoadAnswers (D.room disk.old) (D.state disk.old).now result }
    ensures short { IfOk result (λ it. length (log_bytes (pair_epoch it.0) it.1) ≤ 2 ^ 40) }
    ensures at_rest { D.tells → IsHonest (D.state disk.old) → IfOk result (λ it. IsPairAtRest it.0 it.1 (D.state disk.new)) }
    ensures untouched { D.tells → IsUntouched (D.state disk.old) (D.state disk.new) }
    ensures honesty { D.tells → KeepsHonesty (D.state disk.old) (D.state disk.new) }
    ensures time { D.tells → D.tells_moments → LeavesOnly Same (D.state disk.old) (D.state disk.new) }
    ensures cause { HasCauseOf PairRefusal.Failed (D.faults disk.old) (D.faults disk.new) result }
    ensures room { D.room disk.new ≡ D.room disk.old }
{
    match Log::load(alloc, disk, side) {
        Ok(Found::Live { log, bodies }) => Ok((Pair { log }, bodies)),
        // Its head was live just before, so no disk that tells its contents comes to this: whatever is
        // there is no log of ours any more.
        Ok(Found::Shut { len }) => Err(PairRefusal::Foreign { side, len }),
        Err(LogRefusal::Damaged { at }) => Err(PairRefusal::Damaged { side, at }),
        Err(LogRefusal::Failed) => Err(PairRefusal::Failed),
        Err(LogRefusal::Memory) => Err(PairRefusal::Memory),
    }
}

// Makes the first log in the left file.
fn begin<D: Disk>(disk: &mut D) -> Result<Log, PairRefusal>
    requires unbegun { D.tells → IsUnbegun (D.state disk.old).now }
    requires on_disk { D.tells → IsHonest (D.state disk.old) → IsOnDisk Left (D.state disk.old) × IsOnDisk Right (D.state disk.old) }
    ensures answers { BeginAnswers (D.room disk.old) result }
    ensures log { IfOk result (λ log. (log_side log ≡ Left) × (log_epoch log ≡ 1)) }
    ensures at_rest { D.tells → IsHonest (D.state disk.old) → IfOk result (λ log. IsBegunAt log (D.state disk.new)) }
    ensures loads { D.tells → IsHonest (D.state disk.old) → PairLoads (D.state disk.old) (D.state disk.new) }
    ensures full_changes_nothing { result ≢ Err PairRefusal.Failed → OnErr result (disk.new ≡ disk.old) }
    ensures no_room { D.room disk.old < 18 → disk.new ≡ disk.old }
    ensures by_moment { D.tells → D.tells_moments → IsHonest (D.state disk.old) → LeavesOnly (λ calls. IsKeptOrBegun (calls_before_first (D.state disk.old).now < calls)) (D.state disk.old) (D.state disk.new) }
    ensures calls { D.tells → D.tells_moments → IsHonest (D.state disk.old) → OnOk result ((D.state disk.new).moment ≡ (D.state disk.old).moment + calls_before_first (D.state disk.old).now + 2) }
    ensures cause { HasCauseOf PairRefusal.Failed (D.faults disk.old) (D.faults disk.new) result }
    ensures room { D.room disk.new ≡ D.room disk.old }
{
    let room = disk.room();
    if room < NEW_LOG_LEN {
        return Err(PairRefusal::Full {
            end: NEW_LOG_LEN,
            room,
        });
    }
    Log::shut(disk, Side::Left)?;
    let log = Log::fill(disk, Side::Left, 1, None)?;
    Ok(log)
}

// All of a load.
fn load_any<D: Disk>(alloc: Global, disk: &mut D) -> Result<(Pair, Bodies), PairRefusal>
    ensures answers { D.tells → LoadAnswers (D.room disk.old) (D.state disk.old).now result }
    ensures short { IfOk result (λ it. length (log_bytes (pair_epoch it.0) it.1) ≤ 2 ^ 40) }
    ensures small { D.tells → result ≢ Err PairRefusal.Failed → (length (D.state disk.old).now.left ≤ 2 ^ 40) × (length (D.state disk.old).now.right ≤ 2 ^ 40) }
    ensures at_rest { D.tells → IsHonest (D.state disk.old) → IfOk result (λ it. IsPairAtRest it.0 it.1 (D.state disk.new)) }
    ensures loads { D.tells → IsHonest (D.state disk.old) → PairLoads (D.state disk.old) (D.state disk.new) }
    ensures by_moment { D.tells → D.tells_moments → IsHonest (D.state disk.old) → LeavesOnly (λ calls. IsKeptOrBegun (calls_before_first (D.state disk.old).now < calls)) (D.state disk.old) (D.state disk.new) }
    ensures begun_by_gate { D.tells → D.tells_moments → IsHonest (D.state disk.old) → IsUnbegun (D.state disk.old).now → OnOk result (BegunByGate (D.state disk.old) (D.state disk.new)) }
    ensures synced { D.tells → D.tells_moments → IsHonest (D.state disk.old) → result ≢ Err PairRefusal.Failed → LeavesOnly (IsKeptOrBegunSynced (D.state disk.old).now) (D.state disk.old) (D.state disk.new) }
    ensures refused { D.tells → result ≢ Err PairRefusal.Failed → OnErr result (IsUntouched (D.state disk.old) (D.state disk.new)) }
    ensures spared { D.tells → (MayBegin (D.room disk.old) (D.state disk.old).now → ⊥) → IsUntouched (D.state disk.old) (D.state disk.new) }
    ensures spared_time { D.tells → D.tells_moments → (MayBegin (D.room disk.old) (D.state disk.old).now → ⊥) → LeavesOnly Same (D.state disk.old) (D.state disk.new) }
    ensures cause { HasCauseOf PairRefusal.Failed (D.faults disk.old) (D.faults disk.new) result }
    ensures room { D.room disk.new ≡ D.room disk.old }
{
    match look(disk)? {
        Some(side) => read(alloc, disk, side),
        None => {
            let log = begin(disk)?;
            Ok((Pair { log }, Bodies::from_vec(Vec::new(alloc))))
        }
    }
}

impl Pair {
    /// Loads the live log of the greater epoch. Where there is no log yet it makes one of epoch 1 in the
    /// left file.
    ///
    /// It begins with a sync of each file, so what it answers is on the disk. A pair that it refuses
    /// stays as it is. `Foreign` comes where neither log is live and a file is longer than 18 bytes, the
    /// left one first; `SameEpoch` where both are live with one epoch; `Damaged` where the log of the
    /// greater epoch is, since only that one is read; `Full` where there is no log yet and the room is
    /// below 18.
    pub fn load<D: Disk>(alloc: Global, disk: &mut D) -> Result<(Pair, Bodies), PairRefusal>
        // Each answer has its cause, and each cause its answer.
        ensures answers { D.tells → LoadAnswers (D.room disk.old) (D.state disk.old).now result }
        ensures exact { D.tells → LoadIsExact (D.room disk.old) (D.state disk.old).now result }
        ensures small { D.tells → result ≢ Err PairRefusal.Failed → (length (D.state disk.old).now.left ≤ 2 ^ 40) × (length (D.state disk.old).now.right ≤ 2 ^ 40) }
        // What was read fits in a file, whatever the disk tells.
        ensures short { IfOk result (λ it. length (log_bytes (pair_epoch it.0) it.1) ≤ 2 ^ 40) }

        ensures at_rest { D.tells → IsHonest (D.state disk.old) → IfOk result (λ it. IsPairAtRest it.0 it.1 (D.state disk.new)) }

        // Whatever a crash leaves, now or at a moment of the call, is what one might have left before, or
        // a first log; that not before its header gate is written, which is the last call but one.
        ensures loads { D.tells → IsHonest (D.state disk.old) → PairLoads (D.state disk.old) (D.state disk.new) }
        ensures by_moment { D.tells → D.tells_moments → IsHonest (D.state disk.old) → LeavesOnly (λ calls. IsKeptOrBegun (calls_before_first (D.state disk.old).now < calls)) (D.state disk.old) (D.state disk.new) }
        ensures begun_by_gate { D.tells → D.tells_moments → IsHonest (D.state disk.old) → IsUnbegun (D.state disk.old).now → OnOk result (BegunByGate (D.state disk.old) (D.state disk.new)) }
        // Once both files are synced, that is what is read.
        ensures synced { D.tells → D.tells_moments → IsHonest (D.state disk.old) → result ≢ Err PairRefusal.Failed → LeavesOnly (IsKeptOrBegunSynced (D.state disk.old).now) (D.state disk.old) (D.state disk.new) }
        // A pair that is refused stays byte for byte, and so does each in which no first log is made, whatever
        // the answer is.
        ensures refused { D.tells → result ≢ Err PairRefusal.Failed → OnErr result (IsUntouched (D.state disk.old) (D.state disk.new)) }
        ensures spared { D.tells → (MayBegin (D.room disk.old) (D.state disk.old).now → ⊥) → IsUntouched (D.state disk.old) (D.state disk.new) }
        ensures spared_time { D.tells → D.tells_moments → (MayBegin (D.room disk.old) (D.state disk.old).now → ⊥) → LeavesOnly Same (D.state disk.old) (D.state disk.new) }

        ensures cause { HasCauseOf PairRefusal.Failed (D.faults disk.old) (D.faults disk.new) result }
        ensures room { D.room disk.new ≡ D.room disk.old }
    {
        load_any(alloc, disk)
    }
}
