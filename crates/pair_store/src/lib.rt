//! A store of datasets over two files: what was committed, and nothing else, is there again after a crash, and a store that
//! has grown is folded into the other file.
#![tactic(auto)]

mod bodies;
mod commit;
mod compact;
mod ends;
mod load;
mod refusal;
mod store;

pub use ends::CommitEnd;
pub use refusal::StoreRefusal;
pub use store::Store;

#[cfg(test)]
mod tests;
