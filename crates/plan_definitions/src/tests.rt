// What a store knows of a plan's datasets.
use crate::{definition_of, definitions_of};
use commit_payloads::StoredBody;
use plan_core::{Body, Dataset, Plan};
use sqlite_items::Boxed;
use std::alloc::{AllocError, Global};
use std::test::Fail;
use value_core::{ListOf, Name, Text};

fn dataset_of(alloc: Global, name: Name, text: Text) -> Dataset {
    Dataset {
        name,
        text,
        body: Body::Append(ListOf::new(alloc)),
        columns: ListOf::new(alloc),
        expectations: ListOf::new(alloc),
        level: 0,
    }
}

fn boxed_table(alloc: Global, name: &str) -> Result<Boxed<Dataset>, AllocError> {
    let text = Text::new(alloc, "text")?;
    let name = Name::new(alloc, name)?;
    let dataset = dataset_of(alloc, name, text);
    Boxed::new(alloc, dataset)
}

/// How an append table without flows is defined.
fn is_defined(alloc: Global) -> Result<bool, AllocError> {
    let plan = Plan::new(alloc);
    let table = boxed_table(alloc, "t")?;
    let definition = definition_of(alloc, &plan, table.get())?;
    let is_append = definition.body == StoredBody::Append;
    Ok(is_append && definition.name.as_str() == "t" && definition.flows.is_empty())
}

#[test]
fn a_table_is_defined_by_its_parts(rt: HostRuntime) -> Result<(), Fail> {
    let alloc = rt.alloc();
    let is_so = is_defined(alloc)?;
    assert!(rt; is_so);
    Ok(())
}

#[test]
fn a_plan_without_datasets_defines_none(rt: HostRuntime) -> Result<(), Fail> {
    let alloc = rt.alloc();
    let plan = Plan::new(alloc);
    let definitions = definitions_of(alloc, &plan)?;
    assert!(rt; definitions.is_empty());
    Ok(())
}
