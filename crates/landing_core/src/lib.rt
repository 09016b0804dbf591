//! Landing folders: which files are there, and the lines that are new in them.
#![tactic(auto)]

mod ends;
mod fresh;
mod heads;
mod landing;
mod lines;
mod mem_landing;
mod names;
mod places;
mod reading;
mod sure_landing;

pub use ends::LineEnd;
pub use fresh::{Fresh, Heads, fresh_lines};
pub use landing::{Landing, LandingFile, ListEnd, Listed, Listing};
pub use lines::{FreshLine, FreshLines};
pub use mem_landing::MemLanding;
pub use names::is_ascending;
pub use places::is_same_places;
pub use sure_landing::SureLanding;

#[cfg(test)]
mod tests;
