// An update of a pipeline that has no table.
ghost use Rattle.store_core.specs.Store.{store_state};
ghost use Rattle.table_update.specs.Commit.{IsOfNothing};
ghost use Rattle.table_update.specs.Update.{NoTableEnds};

use crate::end::UpdateEnd;
use std::alloc::Global;
use store_core::Store;

/// The first stored definition is removed; where there is none, there is nothing to do.
pub(crate) fn nothing(alloc: Global, store: &Store) -> UpdateEnd
    ensures ends { NoTableEnds (store_state store.now) result }
    ensures own { IsOfNothing result }
{
    let Some((first, _)) = store.definitions().as_slice().split_first() else {
        return UpdateEnd::Current;
    };
    match first.name.copy(alloc) {
        Ok(name) => UpdateEnd::Removed { name },
        Err(_) => UpdateEnd::Memory,
    }
}
