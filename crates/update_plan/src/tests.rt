// What an update of small plans commits, and why it is refused.
use crate::{PlanEnd, Refresh, plan_update};
use commit_payloads::Definitions;
use plan_core::{Body, Dataset, Plan};
use plan_definitions::definitions_of;
use std::alloc::{AllocError, Global};
use std::test::Fail;
use value_core::{ListOf, Name, Text};

const CHANGED: usize = 10;

const REMOVED: usize = 11;

const UNKNOWN: usize = 12;

const MEMORY: usize = 13;

fn table(alloc: Global, name: Name, text: Text) -> Dataset {
    Dataset {
        name,
        text,
        body: Body::Append(ListOf::new(alloc)),
        columns: ListOf::new(alloc),
        expectations: ListOf::new(alloc),
        level: 0,
    }
}

fn add(alloc: Global, plan: &mut Plan, name: &str, text: &str) -> Result<bool, AllocError> {
    let name = Name::new(alloc, name)?;
    let text = Text::new(alloc, text)?;
    plan.add(alloc, table(alloc, name, text))
}

fn plan_of(alloc: Global, names: &[&str], text: &str) -> Result<Plan, AllocError> {
    let mut plan = Plan::new(alloc);
    for name in names {
        add(alloc, &mut plan, name, text)?;
    }
    Ok(plan)
}

fn only(alloc: Global, name: &str) -> Result<Refresh, AllocError> {
    let mut names = ListOf::new(alloc);
    names.push(Name::new(alloc, name)?)?;
    Ok(Refresh::Only(names))
}

/// How many payloads come, or why none do.
fn answer(alloc: Global, plan: &Plan, stored: &Definitions, refresh: &Refresh) -> usize {
    match plan_update(alloc, plan, stored, refresh) {
        Ok(payloads) => payloads.len(),
        Err(
            PlanEnd::Changed {
                name: _,
                stored: _,
                given: _,
            },
        ) => CHANGED,
        Err(PlanEnd::Removed { name: _ }) => REMOVED,
        Err(PlanEnd::UnknownTable { name: _ }) => UNKNOWN,
        Err(PlanEnd::Memory) => MEMORY,
    }
}

/// The answer where a store has these tables, and then a plan of this text declares those.
fn row(
    alloc: Global,
    stored: &[&str],
    declared: &[&str],
    text: &str,
    refresh: &Refresh,
) -> Result<usize, AllocError> {
    let old = plan_of(alloc, stored, "text")?;
    let stored = definitions_of(alloc, &old)?;
    let plan = plan_of(alloc, declared, text)?;
    Ok(answer(alloc, &plan, &stored, refresh))
}

fn are_planned(alloc: Global) -> Result<bool, AllocError> {
    let first = row(alloc, &[], &["t", "u"], "text", &Refresh::Nothing)?;
    let second = row(alloc, &["t"], &["T"], "text", &Refresh::Nothing)?;
    let anew = row(alloc, &["t", "v"], &["t"], "other", &Refresh::All)?;
    Ok(first == 1 && second == 0 && anew == 1)
}

fn are_reset(alloc: Global) -> Result<bool, AllocError> {
    let names = only(alloc, "T")?;
    let reset = row(alloc, &["t"], &["t"], "text", &names)?;
    let more = row(alloc, &["t"], &["u", "t"], "text", &names)?;
    Ok(reset == 1 && more == 2)
}

fn are_refused(alloc: Global) -> Result<bool, AllocError> {
    let names = only(alloc, "w")?;
    let unknown = row(alloc, &["t", "v"], &["t"], "other", &names)?;
    let changed = row(alloc, &["t", "v"], &["t"], "other", &Refresh::Nothing)?;
    let removed = row(alloc, &["v", "t"], &["t"], "other", &Refresh::Nothing)?;
    Ok(unknown == UNKNOWN && changed == CHANGED && removed == REMOVED)
}

#[test]
fn new_tables_are_defined_once(rt: HostRuntime) -> Result<(), Fail> {
    let is_so = are_planned(rt.alloc())?;
    assert!(rt; is_so);
    Ok(())
}

#[test]
fn named_tables_are_reset_behind_new_ones(rt: HostRuntime) -> Result<(), Fail> {
    let is_so = are_reset(rt.alloc())?;
    assert!(rt; is_so);
    Ok(())
}

#[test]
fn listed_names_are_judged_first(rt: HostRuntime) -> Result<(), Fail> {
    let is_so = are_refused(rt.alloc())?;
    assert!(rt; is_so);
    Ok(())
}
