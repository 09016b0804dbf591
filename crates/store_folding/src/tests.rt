// A store without datasets; one with datasets and readers is folded by the store that stands on two logs.
ghost use Rattle.std.specs.Prelude.{◌≡◌, ◌<◌};

use crate::fold;
use commit_payloads::Payload;
use std::alloc::Global;
use std::marker::Brand;
use std::process::Abort;
use std::sync::ledger::{Blank, Ledger};
use std::test::Fail;
use store_tables::Contents;
use value_core::Steps;

/// How many definitions and states the record of a store without datasets has.
fn parts_of<L: Ledger>(alloc: Global, blank: Blank) -> Result<usize, Fail>
    requires name { blank.name ≡ L.name }
    requires parts { blank.parts ≡ L.parts }
    requires some { 0 < blank.parts }
{
    let mut steps = Steps::<L>::new(blank);
    let contents = Contents::new(alloc);
    match fold(alloc, &contents, &mut steps)? {
        Payload::Base(state) => Ok(state.list.len() + state.states.len()),
        _ => Ok(1),
    }
}

#[test]
fn a_store_without_datasets_folds_to_nothing(rt: HostRuntime) -> Result<(), Fail> {
    let alloc = rt.alloc();
    let parts = parts_of::<Brand>(alloc, Blank::new(1))?;
    assert!(rt; parts == 0);
    Ok(())
}
