// A log is made where there is none.
ghost use Rattle.std.specs.Prelude.{◌≡◌, ◌≢◌, ◌<◌, [], length, IfOk, OnErr};
ghost use Rattle.disk_model.specs.declared.disk.Side.TheVariants.{Left, Right};
ghost use Rattle.disk_model.specs.Disk.{Alone, IsHonest, IsOnDisk, file};
ghost use Rattle.disk_model.specs.Faults.{HasCauseOf};
ghost use Rattle.disk_model.specs.Moments.{LeavesOnly};
ghost use Rattle.commit_gate.specs.AtRest.{log_side, log_epoch, IsAtRest, LeavesFile};
ghost use Rattle.commit_gate.specs.Log.{IsDead};
ghost use Rattle.store_core.specs.Begin.{BeginAnswers, Loads};
ghost use Rattle.store_core.specs.State.{KeepsState};

use crate::refusal::StoreRefusal;
use commit_gate::Log;
use disk_model::{Disk, Side};

// How long a log without records is: the gate of the header, the name of the format, the number of the
// log, and the gate of the first record.
const NEW_LOG_LEN: u64 = 18;

/// Makes a log in a file that has none, unless the file is longer than a new log.
pub(crate) fn begin<D: Disk>(disk: &mut D, len: u64) -> Result<Log, StoreRefusal>
    requires len { D.tells → len ≡ length (file Left (D.state disk.old).now) }
    requires dead { D.tells → IsDead (file Left (D.state disk.old).now) }
    requires on_disk { D.tells → IsHonest (D.state disk.old) → IsOnDisk Left (D.state disk.old) }
    ensures epoch { IfOk result (λ log. log_epoch log ≡ 1) }
    ensures answers { BeginAnswers len (D.room disk.old) result }
    // A file that is longer than a new log, or has no room for one, is left alone.
    ensures long { 18 < len → disk.new ≡ disk.old }
    ensures short { D.room disk.old < 18 → disk.new ≡ disk.old }
    ensures refused { result ≢ Err StoreRefusal.Failed → OnErr result (disk.new ≡ disk.old) }
    ensures at_rest { D.tells → IsHonest (D.state disk.old) → IfOk result (λ log. (log_side log ≡ Left) × IsAtRest log [] (D.state disk.new)) }
    ensures loads { D.tells → IsHonest (D.state disk.old) → Loads (D.state disk.old) (D.state disk.new) }
    ensures by_moment { D.tells → D.tells_moments → IsHonest (D.state disk.old) → LeavesOnly (λ _. Alone Left KeepsState) (D.state disk.old) (D.state disk.new) }
    ensures untouched { D.tells → IsHonest (D.state disk.old) → LeavesFile Right (D.state disk.old) (D.state disk.new) }
    ensures cause { HasCauseOf StoreRefusal.Failed (D.faults disk.old) (D.faults disk.new) result }
    ensures room { D.room disk.new ≡ D.room disk.old }
{
    if len > NEW_LOG_LEN {
        return Err(StoreRefusal::Foreign {
            side: Side::Left,
            len,
        });
    }
    let room = disk.room();
    if room < NEW_LOG_LEN {
        return Err(StoreRefusal::Full {
            end: NEW_LOG_LEN,
            room,
        });
    }
    Log::shut(disk, Side::Left)?;
    let log = Log::fill(disk, Side::Left, 1, None)?;
    Ok(log)
}
