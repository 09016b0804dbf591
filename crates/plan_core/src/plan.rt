ghost use Rattle.std.specs.Prelude.{◌≡◌, if◌then◌else◌, [], ◌∷◌, ◌++◌, None, is_none, is_some, option_map, option_to_list, string_bytes, IfOk, IfSome, IsOk, OnErr, OnOk};
ghost use Rattle.std.specs.Option.{option_copied};
ghost use Rattle.std.specs.Map.{lookup};
ghost use Rattle.value_core.specs.NameFold.{same_name};
ghost use Rattle.plan_core.specs.Sound.{dataset_named};

use crate::expectation::Expectations;
use crate::flow::{AppendFlows, Cdc};
use crate::folded::Folded;
use crate::query::Query;
use indexmap::IndexMap;
use std::alloc::{AllocError, Global};
use std::marker::Model;
use value_core::{Name, Schema, Text};

/// What fills a dataset.
#[derive(Debug, Drop)]
pub enum Body {
    /// A streaming table that only gains rows.
    Append(AppendFlows),
    /// A streaming table that a change feed keeps.
    Cdc(Cdc),
    /// A materialized view.
    View(Query),
}

/// A streaming table or a materialized view.
#[derive(Debug, Drop)]
pub struct Dataset {
    pub name: Name,
    /// The canonical print of its statement and of its flows.
    pub text: Text,
    pub body: Body,
    pub columns: Schema,
    pub expectations: Expectations,
    /// 0 where it reads no dataset, else one more than the greatest level of those that it reads.
    pub level: u32,
}

/// A checked pipeline, which contracts see as its datasets in declared order. No two of them have
/// one name but for the case of ASCII letters.
#[derive(Debug, Drop)]
pub struct Plan {
    datasets: IndexMap<Folded<String>, Dataset>,
}

impl Model for Plan {
    ghost use Rattle.std.specs.Prelude.{List, string_bytes};
    ghost use Rattle.indexmap.specs.IndexMap.{values};
    ghost use Rattle.plan_core.specs.declared.plan.Dataset.{Dataset};
    ghost use Rattle.plan_core.specs.contracts.plan.Dataset as dataset;
    ghost use Rattle.plan_core.specs.Named.{AreNamed};
    ghost use Rattle.std.specs.Coded.{coded_list};

    ghost Value = { List Dataset };

    ghost coded = { coded_list dataset.the_row.coded };

    ghost view = { λ plan. values plan.datasets };

    ghost invariant = { λ plan. AreNamed (λ key. string_bytes key.text) plan.datasets.entries };
}

/// Puts a value behind the others under the key that is given, if one is, which no other has;
/// whether it did.
fn put_last<V: Drop>(
    table: &mut IndexMap<Folded<String>, V>,
    key: Result<Option<Folded<String>>, AllocError>,
    value: V,
) -> Result<bool, AllocError>
    requires { IfOk key (λ given. IfSome given (λ one. lookup (λ other. same_name (string_bytes one.text) (string_bytes other.text)) table.old.entries ≡ None)) }
    ensures is_new { IfOk result (λ added. IfOk key (λ given. added ≡ is_some given)) }
    ensures given { OnOk result (IsOk key) }
    ensures put { OnOk result (IfOk key (λ given. table.new.entries ≡ table.old.entries ++ option_to_list (option_map (λ one. (one, value)) given))) }
    ensures kept { OnErr result (table.new.entries ≡ table.old.entries) }
{
    let Some(key) = key? else {
        return Ok(false);
    };
    table.insert(key, value)?;
    Ok(true)
}

impl Plan {
    /// The plan without datasets. Takes no memory.
    pub fn new(alloc: Global) -> Plan
        ensures { result ≡ [] }
    {
        Plan {
            datasets: IndexMap::new(alloc),
        }
    }

    /// Adds a dataset behind the others, and whether it did: a plan that has a dataset of its name,
    /// but for the case of ASCII letters, stays as it is. Fails for want of memory alone, and the
    /// plan stays as it is then too.
    pub fn add(&mut self, alloc: Global, dataset: Dataset) -> Result<bool, AllocError>
        ensures is_new { IfOk result (λ added. added ≡ is_none (dataset_named self.old dataset.name)) }
        ensures added { IfOk result (λ added. self.new ≡ (if added then self.old ++ dataset ∷ [] else self.old)) }
        ensures kept { OnErr result (self.new ≡ self.old) }
    {
        let key = self.free_key(alloc, &dataset.name);
        put_last(&mut self.datasets, key, dataset)
    }

    /// The key of a name; none where a dataset has this name.
    fn free_key(&self, alloc: Global, name: &Name) -> Result<Option<Folded<String>>, AllocError>
        ensures free { IfOk result (λ key. is_some key ≡ is_none (dataset_named self.now name.now)) }
        ensures spelled { IfOk result (λ key. IfSome key (λ one. string_bytes one.text ≡ name.now)) }
    {
        if self.find(name).is_some() {
            return Ok(None);
        }
        let text = String::from_str(alloc, name.as_str())?;
        Ok(Some(Folded { text }))
    }

    /// The datasets in declared order.
    pub fn as_slice(&self) -> &[Dataset]
        ensures { result.now ≡ self.now }
    {
        self.datasets.values().as_slice()
    }

    /// The dataset of that name but for the case of ASCII letters; `None` exactly where no dataset
    /// has it. Takes no memory.
    pub fn find(&self, name: &Name) -> Option<&Dataset>
        ensures { option_copied result ≡ dataset_named self.now name.now }
    {
        let sought = Folded {
            text: name.as_str(),
        };
        self.datasets.get(sought)
    }
}
