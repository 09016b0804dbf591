// Why an update is refused before it commits anything.
ghost use Rattle.std.specs.Prelude.{◌≡◌, IfOk, bytes_eq};
ghost use Rattle.update_plan.specs.Refusals as spec;

use commit_payloads::Definition;
use plan_core::{Dataset, Plan};
use std::alloc::{AllocError, Global};
use value_core::{Name, Names, Text};

/// What a full refresh begins anew.
#[derive(Debug, Drop)]
pub enum Refresh {
    /// No dataset.
    Nothing,
    /// Every dataset of the plan.
    All,
    /// The datasets of these names, and all tables that stream from one of them, directly or not.
    Only(Names),
}

/// Why no update of a plan begins.
#[derive(Debug, Drop)]
pub enum PlanEnd {
    /// A stored dataset whose definition text is not the plan's; both texts.
    Changed {
        name: Name,
        stored: Text,
        given: Text,
    },
    /// A stored dataset that the plan does not declare.
    Removed {
        name: Name,
    },
    /// A name to be refreshed that the plan does not declare, as it is listed.
    UnknownTable {
        name: Name,
    },
    /// There was no memory.
    Memory,
}

impl From<AllocError> for PlanEnd {
    ghost use Rattle.std.specs.Prelude.{◌≡◌};
    ghost use Rattle.update_plan.specs.declared.ends.PlanEnd.TheVariants.{Memory};

    ghost from_gives = { λ _ e. e ≡ Memory };

    fn from(_: AllocError) -> PlanEnd {
        PlanEnd::Memory
    }
}

/// A name that no dataset of the plan has.
fn if_unknown(alloc: Global, plan: &Plan, name: &Name) -> Result<Option<PlanEnd>, AllocError>
    ensures { IfOk result (λ end. end ≡ spec.if_unknown plan.now name.now) }
{
    if plan.find(name).is_some() {
        return Ok(None);
    }
    let name = name.copy(alloc)?;
    Ok(Some(PlanEnd::UnknownTable { name }))
}

/// The first of these names that no dataset of the plan has.
fn first_unknown(alloc: Global, plan: &Plan, names: &[Name]) -> Result<Option<PlanEnd>, AllocError>
    ensures { IfOk result (λ end. end ≡ spec.first_unknown plan.now names.now) }
{
    for name in names {
        let end = if_unknown(alloc, plan, name)?;
        if end.is_some() {
            return Ok(end);
        }
    }
    Ok(None)
}

fn is_same_text(one: &Text, other: &Text) -> bool
    ensures { result ≡ bytes_eq one.now other.now }
{
    one.as_str() == other.as_str()
}

/// A stored definition whose text is not that of the dataset of its name.
fn if_changed(
    alloc: Global,
    definition: &Definition,
    dataset: &Dataset,
) -> Result<Option<PlanEnd>, AllocError>
    ensures { IfOk result (λ end. end ≡ spec.if_changed definition.now dataset.now) }
{
    if is_same_text(&definition.text, &dataset.text) {
        return Ok(None);
    }
    let name = definition.name.copy(alloc)?;
    let stored = definition.text.copy(alloc)?;
    let given = dataset.text.copy(alloc)?;
    Ok(Some(PlanEnd::Changed {
        name,
        stored,
        given,
    }))
}

fn removed(alloc: Global, definition: &Definition) -> Result<Option<PlanEnd>, AllocError>
    ensures { IfOk result (λ end. end ≡ spec.removed definition.now) }
{
    let name = definition.name.copy(alloc)?;
    Ok(Some(PlanEnd::Removed { name }))
}

/// A stored definition that the plan lacks or has with another text.
fn if_unlike(
    alloc: Global,
    plan: &Plan,
    definition: &Definition,
) -> Result<Option<PlanEnd>, AllocError>
    ensures { IfOk result (λ end. end ≡ spec.if_unlike plan.now definition.now) }
{
    match plan.find(&definition.name) {
        Some(dataset) => if_changed(alloc, definition, dataset),
        None => removed(alloc, definition),
    }
}

/// The first of these stored definitions that the plan lacks or has with another text.
fn first_unlike(
    alloc: Global,
    plan: &Plan,
    stored: &[Definition],
) -> Result<Option<PlanEnd>, AllocError>
    ensures { IfOk result (λ end. end ≡ spec.first_unlike plan.now stored.now) }
{
    for definition in stored {
        let end = if_unlike(alloc, plan, definition)?;
        if end.is_some() {
            return Ok(end);
        }
    }
    Ok(None)
}

/// The first of these names that is unknown, or else the first of the stored definitions that is unlike.
fn first_of_both(
    alloc: Global,
    plan: &Plan,
    stored: &[Definition],
    names: &[Name],
) -> Result<Option<PlanEnd>, AllocError>
    ensures { IfOk result (λ end. end ≡ spec.first_of_both plan.now stored.now names.now) }
{
    let end = first_unknown(alloc, plan, names)?;
    if end.is_some() {
        return Ok(end);
    }
    first_unlike(alloc, plan, stored)
}

/// Why the update is refused.
pub(crate) fn refusal(
    alloc: Global,
    plan: &Plan,
    stored: &[Definition],
    refresh: &Refresh,
) -> Result<Option<PlanEnd>, AllocError>
    ensures { IfOk result (λ end. end ≡ spec.refusal plan.now stored.now refresh.now) }
{
    match refresh {
        Refresh::Nothing => first_unlike(alloc, plan, stored),
        Refresh::All => Ok(None),
        Refresh::Only(names) => first_of_both(alloc, plan, stored, names.as_slice()),
    }
}
