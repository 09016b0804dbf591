//! A table by its versions: its rows at a base version, and the change of each version after it.
#![tactic(auto)]

mod laws;
mod rows;
mod table;

pub use laws::{
    a_change_leads_on, a_fold_keeps_later_versions, a_net_change_finds_its_rows,
    a_version_has_one_content,
};
pub use table::{Table, VersionEnd};

#[cfg(test)]
mod tests;
