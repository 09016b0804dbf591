// A command prints its text.
ghost use Rattle.std.specs.Prelude.{◌≡◌, ◌++◌, ℕ, take, IfErr, OnErr, OnOk};
ghost use Rattle.disk_model.specs.Faults.{HasCauseOf};
ghost use Rattle.message_text.specs.Statuses.{status_of};
ghost use Rattle.command_ends.specs.Ends.{MayBeCut, Printed, status_by, succeeded};
ghost use Rattle.command_ends.specs.Loads.{HasTold};

use disk_model::{Sink, SinkFault};
use message_text::Refusal;

/// Writes a text to the output. `SinkFailed` comes only where the output's count of faults rose, and
/// `Memory` for want of it: then the output got a front of the text.
pub fn print<S: Sink>(out: &mut S, text: &[u8]) -> Result<(), Refusal>
    ensures whole { S.tells → OnOk result (S.written out.new ≡ S.written out.old ++ text.now) }
    ensures front { S.tells → OnErr result ((bytes : ℕ) × (S.written out.new ≡ S.written out.old ++ take bytes text.now)) }
    ensures cut { IfErr result (λ why. MayBeCut (status_of why)) }
    // The same, as it is said of the answer of a command.
    ensures told { HasTold (succeeded result) }
    ensures printed { S.tells → Printed (status_by (succeeded result)) text.now (S.written out.old) (S.written out.new) }
    ensures cause { HasCauseOf Refusal.SinkFailed (S.faults out.old) (S.faults out.new) result }
{
    match out.write(text) {
        Ok(()) => Ok(()),
        Err(SinkFault::Failed) => Err(Refusal::SinkFailed),
        Err(SinkFault::Memory) => Err(Refusal::Memory),
    }
}
