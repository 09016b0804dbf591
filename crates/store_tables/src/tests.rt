// A store without datasets; what payloads make of one is tried beside the rules by which they follow.
ghost use Rattle.std.specs.Prelude.{◌≡◌, ◌<◌};

use crate::{Contents, Undo};
use std::alloc::Global;
use std::marker::Brand;
use std::process::Abort;
use std::sync::ledger::{Blank, Ledger};
use std::test::Fail;
use value_core::{Name, Steps};

/// Nothing stands under a name where there is no dataset.
fn has_none<L: Ledger, R: Abort>(rt: &R, alloc: Global, blank: Blank) -> Result<(), Fail>
    requires name { blank.name ≡ L.name }
    requires parts { blank.parts ≡ L.parts }
    requires some { 0 < blank.parts }
{
    let mut steps = Steps::<L>::new(blank);
    let mut contents = Contents::new(alloc);
    let name = Name::new(alloc, "t")?;
    assert!(rt; contents.definition(&name).is_none());
    assert!(rt; contents.table(&name).is_none());
    assert!(rt; contents.cursor(&name, &name).is_none());
    assert!(rt; contents.tallies(&name).is_none());
    assert!(rt; contents.events(&name, &mut steps).is_none());
    contents.undo(Undo::Added { before: 0 });
    assert!(rt; contents.definitions().is_empty());
    Ok(())
}

#[test]
fn a_store_without_datasets_has_nothing(rt: HostRuntime) -> Result<(), Fail> {
    let alloc = rt.alloc();
    has_none::<Brand, _>(&rt, alloc, Blank::new(1))
}
