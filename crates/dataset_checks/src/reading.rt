//! What a flow reads.

ghost use Rattle.std.specs.Prelude.{◌≡◌, Ok, Err, IfOk, IfErr};
ghost use Rattle.std.specs.Option.{option_copied};
ghost use Rattle.select_checks.specs.Ends.{Judges};
ghost use Rattle.statement_checks.specs.declared.fault.CheckFault.TheVariants.{BadOption};
ghost use Rattle.plan_core.specs.Sound as sound;
ghost use Rattle.dataset_checks.specs.Reading as spec;

use crate::end::no_flow_fault;
use feed_checks::track_fault;
use origin_checks::{Resolved, Source, stream_break};
use plan_core::Dataset;
use select_checks::SelectEnd;
use sql_tree::CdcTree;
use statement_checks::CheckFault;
use std::alloc::{AllocError, Global};
use value_core::{Name, Text};

fn bad_option(alloc: Global, word: &Text) -> Result<CheckFault, AllocError>
    ensures { IfOk result (λ fault. fault ≡ BadOption word.now) }
{
    let word = word.copy(alloc)?;
    Ok(CheckFault::BadOption { word })
}

fn opened_as<'a>(
    alloc: Global,
    name: &Name,
    resolved: &'a Resolved,
) -> Result<&'a Source, SelectEnd>
    ensures reads { IfOk result (λ reads. spec.opened_as name.now resolved.now ≡ Ok reads.now) }
    ensures fault { IfErr result (λ end. Judges (spec.opened_as name.now resolved.now) (Err end)) }
{
    match resolved {
        Resolved::From(reads) => Ok(reads),
        Resolved::Bad { word } => Err(SelectEnd::Fault(bad_option(alloc, word)?)),
        Resolved::Nothing => Err(SelectEnd::Fault(no_flow_fault(alloc, name.as_str())?)),
    }
}

/// What is read under that name, where its options keep their rules.
pub(crate) fn opened<'a>(
    alloc: Global,
    name: &Name,
    resolved: Option<&'a Resolved>,
) -> Result<&'a Source, SelectEnd>
    ensures reads { IfOk result (λ reads. spec.opened name.now (option_copied resolved.entry) ≡ Ok reads.now) }
    ensures fault { IfErr result (λ end. Judges (spec.opened name.now (option_copied resolved.entry)) (Err end)) }
{
    match resolved {
        Some(resolved) => opened_as(alloc, name, resolved),
        None => Err(SelectEnd::Fault(no_flow_fault(alloc, name.as_str())?)),
    }
}

fn dataset_named<'a>(sofar: &'a [Dataset], name: &Name) -> Option<&'a Dataset>
    ensures { option_copied result ≡ sound.dataset_named sofar.now name.now }
{
    sofar.iter().find(|dataset| dataset.name.is_same(name))
}

/// The dataset among those so far that is read.
pub(crate) fn found_in<'a>(sofar: &'a [Dataset], reads: &Source) -> Option<&'a Dataset>
    ensures { option_copied result ≡ spec.found_in sofar.now reads.now }
{
    match reads {
        Source::Dataset { stream: _, name } => dataset_named(sofar, name),
        Source::Files { stream: _, read: _ } => None,
    }
}

fn unmixed(mixed: bool) -> Option<CheckFault>
    ensures { result ≡ spec.unmixed mixed }
{
    if mixed {
        Some(CheckFault::MixedFlows)
    } else {
        None
    }
}

/// The first check that a streaming flow breaks by what it reads and by the flows beside it.
pub(crate) fn reading_fault(
    alloc: Global,
    mixed: bool,
    reads: &Source,
    found: Option<&Dataset>,
) -> Result<Option<CheckFault>, AllocError>
    ensures { IfOk result (λ fault. fault ≡ spec.reading_fault mixed reads.now (option_copied found.entry)) }
{
    let fault = stream_break(alloc, reads, found)?;
    if fault.is_some() {
        return Ok(fault);
    }
    Ok(unmixed(mixed))
}

/// The first such check that a change feed breaks, behind that of TRACK HISTORY.
pub(crate) fn feed_reading_fault(
    alloc: Global,
    mixed: bool,
    feed: &CdcTree,
    reads: &Source,
    found: Option<&Dataset>,
) -> Result<Option<CheckFault>, AllocError>
    ensures { IfOk result (λ fault. fault ≡ spec.feed_reading_fault mixed feed.now reads.now (option_copied found.entry)) }
{
    let fault = track_fault(alloc, feed)?;
    if fault.is_some() {
        return Ok(fault);
    }
    reading_fault(alloc, mixed, reads, found)
}
