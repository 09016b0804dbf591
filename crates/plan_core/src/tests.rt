use crate::{
    Action, AppendFlow, AppendFlows, Body, Cdc, Dataset, Expectation, Expectations, FlowEnd, Item,
    Items, Origin, Place, Plan, Stop, StopOr, Verdict,
};
use std::alloc::{AllocError, Global};
use std::test::Fail;
use value_core::{Column, Kind, ListOf, Name, Schema, Text};

fn crosses_threads<T: Send + Sync>() {}

#[test]
fn parts_cross_threads() {
    crosses_threads::<Expectation>();
    crosses_threads::<Expectations>();
    crosses_threads::<Verdict>();
    crosses_threads::<AppendFlow>();
    crosses_threads::<AppendFlows>();
    crosses_threads::<Cdc>();
    crosses_threads::<Item>();
    crosses_threads::<Items>();
    crosses_threads::<FlowEnd>();
    crosses_threads::<StopOr>();
}

/// A table of that name and level, with no flow and no column.
fn table(alloc: Global, name: &str, level: u32) -> Result<Dataset, AllocError> {
    Ok(Dataset {
        name: Name::new(alloc, name)?,
        text: Text::new(alloc, "")?,
        body: Body::Append(ListOf::new(alloc)),
        columns: ListOf::new(alloc),
        expectations: ListOf::new(alloc),
        level,
    })
}

/// Adds a table of that name and level, and whether the plan took it.
fn add_table(plan: &mut Plan, alloc: Global, name: &str, level: u32) -> Result<bool, AllocError> {
    let dataset = table(alloc, name, level)?;
    plan.add(alloc, dataset)
}

/// The tables `Orders` at level 1 and `orders_2` at level 2.
fn two_tables(alloc: Global) -> Result<Plan, AllocError> {
    let mut plan = Plan::new(alloc);
    add_table(&mut plan, alloc, "Orders", 1)?;
    add_table(&mut plan, alloc, "orders_2", 2)?;
    Ok(plan)
}

/// The level of what is found of that name among the two tables.
fn found_level(alloc: Global, name: &str) -> Result<Option<u32>, AllocError> {
    let plan = two_tables(alloc)?;
    let name = Name::new(alloc, name)?;
    Ok(plan.find(&name).map(|dataset| dataset.level))
}

#[test]
fn a_dataset_is_found_by_its_folded_name(rt: HostRuntime) -> Result<(), Fail> {
    let alloc = rt.alloc();
    assert!(rt; found_level(alloc, "oRDERS")? == Some(1));
    assert!(rt; found_level(alloc, "Orders_2")? == Some(2));
    assert!(rt; found_level(alloc, "orders_")?.is_none());
    assert!(rt; found_level(alloc, "")?.is_none());
    Ok(())
}

#[test]
fn a_plan_keeps_the_first_of_a_name(rt: HostRuntime) -> Result<(), Fail> {
    let alloc = rt.alloc();
    let mut plan = two_tables(alloc)?;
    assert!(rt; !add_table(&mut plan, alloc, "ORDERS", 3)?);
    assert!(rt; add_table(&mut plan, alloc, "customers", 4)?);
    assert!(rt; plan.as_slice().len() == 3);
    assert!(rt; plan.as_slice().first().map(|first| first.level) == Some(1));
    Ok(())
}
