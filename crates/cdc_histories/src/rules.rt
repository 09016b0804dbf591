// The rules of a flow that its histories go by.
ghost use Rattle.std.specs.Prelude.{◌≡◌, IfOk};

use plan_core::{Cdc, Origin};
use sqlite_items::Boxed;
use std::alloc::{AllocError, Global};
use value_core::{ListOf, Name, Places};

/// A flow with these rules, whose other parts are empty.
fn flow_with(alloc: Global, name: Name, source: Name, ignore_null: bool, tracked: Places) -> Cdc
    ensures ignore_null { result.ignore_null ≡ ignore_null }
    ensures tracked { result.tracked ≡ tracked }
{
    Cdc {
        name,
        origin: Origin::Table { name: source },
        keys: ListOf::new(alloc),
        sequence: ListOf::new(alloc),
        delete_when: None,
        truncate_when: None,
        outputs: ListOf::new(alloc),
        ignore_null,
        scd2: true,
        tracked,
    }
}

/// The same places.
fn copy_of(alloc: Global, places: &[u32]) -> Result<Places, AllocError>
    ensures { IfOk result (λ copy. copy ≡ places.now) }
{
    let mut copy: Places = ListOf::new(alloc);
    for place in places {
        copy.push(*place)?;
    }
    Ok(copy)
}

/// A flow of the same name that has the rules of this one: IGNORE NULL UPDATES and TRACK HISTORY ON.
pub(crate) fn rules_of(alloc: Global, flow: &Cdc) -> Result<Boxed<Cdc>, AllocError>
    ensures ignore_null { IfOk result (λ rules. rules.ignore_null ≡ flow.now.ignore_null) }
    ensures tracked { IfOk result (λ rules. rules.tracked ≡ flow.now.tracked) }
{
    let name = flow.name.copy(alloc)?;
    let source = flow.name.copy(alloc)?;
    let tracked = copy_of(alloc, flow.tracked.as_slice())?;
    Boxed::new(
        alloc,
        flow_with(alloc, name, source, flow.ignore_null, tracked),
    )
}
