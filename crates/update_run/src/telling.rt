// How a flow ended is told.
ghost use Rattle.std.specs.Prelude.{◌≡◌, ◌++◌, ℕ, take, IfErr, OnErr, OnOk};
ghost use Rattle.disk_model.specs.Faults.{HasCauseOf};
ghost use Rattle.plan_core.specs.declared.stop.FlowEnd.{FlowEnd as Ending};
ghost use Rattle.flow_engine.specs.Flows.{IsFlow};
ghost use Rattle.flow_engine.specs.declared.ends.End.TheVariants.{Sink as sink};
ghost use Rattle.update_run.specs.Updates.{CutsLine, is_stop as stops, line_of};

use disk_model::{Sink, SinkFault};
use flow_engine::{End, FlowId};
use plan_core::{FlowEnd, Plan};
use report_text::flow_line;
use std::alloc::Global;

/// Writes the line of how a flow ended. Where the output fails it got a front of it, and where memory
/// runs out as well.
pub(crate) fn tell<S: Sink>(
    alloc: Global,
    plan: &Plan,
    flow: FlowId,
    end: &FlowEnd,
    out: &mut S,
) -> Result<(), End>
    requires { IsFlow plan.now flow }
    ensures line { S.tells → OnOk result (S.written out.new ≡ S.written out.old ++ line_of plan.now flow end.now) }
    ensures front { S.tells → OnErr result ((bytes : ℕ) × (S.written out.new ≡ S.written out.old ++ take bytes (line_of plan.now flow end.now))) }
    ensures cut { IfErr result CutsLine }
    ensures cause { HasCauseOf End.Sink (S.faults out.old) (S.faults out.new) result }
{
    let dataset = &plan.as_slice()[flow.dataset as usize];
    let line = flow_line(alloc, dataset, flow.flow, end)?;
    match out.write(line.as_slice()) {
        Ok(()) => Ok(()),
        Err(SinkFault::Failed) => Err(End::Sink),
        Err(SinkFault::Memory) => Err(End::Memory),
    }
}

/// Whether a flow stopped. One that is skipped doesn't.
pub(crate) fn is_stop(end: &FlowEnd) -> bool
    ensures { result ≡ stops end.now }
{
    match end {
        FlowEnd::Completed { .. } => false,
        FlowEnd::Current => false,
        FlowEnd::Stopped { .. } => true,
        FlowEnd::Skipped { .. } => false,
    }
}
