// What the landing folders of a plan list.
use append_offers::FolderListing;
use value_core::{ListOf, Text};

/// What was listed of a folder.
#[derive(Drop)]
pub struct FolderOf {
    pub dir: Text,
    pub listing: FolderListing,
}

/// What an update listed at its beginning, once a folder.
pub type Listings = ListOf<FolderOf>;
