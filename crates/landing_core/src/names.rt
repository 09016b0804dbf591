// Whether names are in order.
ghost use Rattle.std.specs.Prelude.{◌↔◌, IsTrue};
ghost use Rattle.landing_core.specs.Folders.{listed_names};
ghost use Rattle.landing_core.specs.Names.{AreAscending};

use crate::landing::Listed;
use std::cmp::Ordering;

/// Whether the names of these files strictly ascend by their bytes, as in a listing.
pub fn is_ascending(listing: &[Listed]) -> bool
    ensures { IsTrue result ↔ AreAscending (listed_names listing.now) }
{
    for (i, listed) in listing.iter().enumerate() {
        if i + 1 < listing.len()
            && listed.file.as_str().cmp(&listing[i + 1].file.as_str()) != Ordering::Less
        {
            return false;
        }
    }
    true
}
