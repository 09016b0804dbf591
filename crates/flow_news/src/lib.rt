//! What is new of a source to a flow of a streaming table: rows that follow on a position, and the position behind them; and
//! what such rows come to before the disk is called.
#![tactic(auto)]

mod counts;
mod files;
mod laws;
mod news;
mod offer;
mod read;
mod source;

pub use counts::find_overflow;
pub use laws::{
    a_flow_goes_on_by_what_it_finds, a_flow_of_a_ready_store_goes_on,
    what_is_found_blames_a_landing_that_failed,
};
pub use news::{NewRows, News};
pub use offer::{FolderListing, Offer};
pub use read::find_news;
