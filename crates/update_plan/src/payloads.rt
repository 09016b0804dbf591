// What an update commits before its flows.
ghost use Rattle.std.specs.Prelude.{◌≡◌, [], ◌∷◌, ◌++◌, IfOk, OnOk, true};
ghost use Rattle.std.specs.List.{list_any};
ghost use Rattle.commit_payloads.specs.declared.payload.Payload.TheVariants.{Define};
ghost use Rattle.plan_definitions.specs.Stored.{definitions_by};
ghost use Rattle.update_plan.specs.Payloads as spec;

use crate::copies::copy_of_all;
use crate::ends::Refresh;
use crate::resets::reset_of;
use commit_payloads::{Definition, Definitions, Payload, Payloads};
use plan_core::{Dataset, Plan};
use plan_definitions::{definition_of, definitions_of};
use std::alloc::{AllocError, Global};
use value_core::{ListOf, Name};

fn is_stored(stored: &[Definition], name: &Name) -> bool
    ensures { result ≡ spec.is_stored stored.now name.now }
{
    stored
        .iter()
        .any(|definition| definition.name.is_same(name))
}

fn is_new(stored: &[Definition], dataset: &Dataset) -> bool
    ensures { result ≡ spec.is_new stored.now dataset.now }
{
    !is_stored(stored, &dataset.name)
}

fn has_new(plan: &[Dataset], stored: &[Definition]) -> bool
    ensures { result ≡ list_any (spec.is_new stored.now) plan.now }
{
    plan.iter().any(|dataset| is_new(stored, dataset))
}

/// Puts the definitions of new datasets behind the others.
fn put_new(
    alloc: Global,
    list: &mut Definitions,
    plan: &Plan,
    stored: &[Definition],
) -> Result<(), AllocError>
    ensures { OnOk result (list.new ≡ list.old ++ spec.new_definitions plan.now stored.now) }
{
    for dataset in plan.as_slice() {
        if is_new(stored, dataset) {
            list.push(definition_of(alloc, plan, dataset)?)?;
        }
    }
    Ok(())
}

/// The stored definitions, and behind them the new ones.
fn with_new(alloc: Global, plan: &Plan, stored: &[Definition]) -> Result<Definitions, AllocError>
    ensures { IfOk result (λ list. list ≡ stored.now ++ spec.new_definitions plan.now stored.now) }
{
    let mut list = copy_of_all(alloc, stored)?;
    put_new(alloc, &mut list, plan, stored)?;
    Ok(list)
}

/// All datasets anew.
fn all_anew(alloc: Global, plan: &Plan) -> Result<Payloads, AllocError>
    ensures { IfOk result (λ payloads. payloads ≡ Define true (definitions_by plan.now) ∷ []) }
{
    let list = definitions_of(alloc, plan)?;
    let mut payloads = ListOf::new(alloc);
    payloads.push(Payload::Define { fresh: true, list })?;
    Ok(payloads)
}

/// The datasets that are new, where there are some.
fn additions(alloc: Global, plan: &Plan, stored: &[Definition]) -> Result<Payloads, AllocError>
    ensures { IfOk result (λ payloads. payloads ≡ spec.additions plan.now stored.now) }
{
    let mut payloads = ListOf::new(alloc);
    if !has_new(plan.as_slice(), stored) {
        return Ok(payloads);
    }
    let list = with_new(alloc, plan, stored)?;
    payloads.push(Payload::Define { fresh: false, list })?;
    Ok(payloads)
}

/// The datasets that are new, and then a reset.
fn additions_and_reset(
    alloc: Global,
    plan: &Plan,
    stored: &[Definition],
    names: &[Name],
) -> Result<Payloads, AllocError>
    ensures { IfOk result (λ payloads. spec.AreAdditionsAndReset plan.now stored.now names.now payloads) }
{
    let mut payloads = additions(alloc, plan, stored)?;
    let names = reset_of(alloc, plan.as_slice(), names)?;
    payloads.push(Payload::Reset { names })?;
    Ok(payloads)
}

/// What an update that is not refused commits before its flows. Fails for want of memory alone.
pub(crate) fn planned(
    alloc: Global,
    plan: &Plan,
    stored: &[Definition],
    refresh: &Refresh,
) -> Result<Payloads, AllocError>
    ensures { IfOk result (λ payloads. spec.ArePlanned plan.now stored.now refresh.now payloads) }
{
    match refresh {
        Refresh::Nothing => additions(alloc, plan, stored),
        Refresh::All => all_anew(alloc, plan),
        Refresh::Only(names) => additions_and_reset(alloc, plan, stored, names.as_slice()),
    }
}
