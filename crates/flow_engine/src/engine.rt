// What an update runs on.
use pair_store::Store;

/// A store, and which datasets of its plan stopped or were skipped so far in this update: one mark a
/// dataset, in declared order.
///
/// It serves one update. What later forms of flows keep of their datasets (the ledger of a change feed,
/// the histories of its keys, the groups of a view) stands here too, one a dataset, and is told by the
/// store's state alone.
#[derive(Drop)]
pub struct Engine {
    pub(crate) store: Store,
    pub(crate) halted: Vec<bool>,
}
