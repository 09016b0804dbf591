// What a flow waits for, and by what it reads.
ghost use Rattle.std.specs.Prelude.{◌≡◌, None, Some, MatchOption};
ghost use Rattle.flow_news.specs.declared.offer.FolderListing.TheVariants.{NoFolder};
ghost use Rattle.flow_engine.specs.Flows as flows;
ghost use Rattle.flow_engine.specs.Flows.{blocked_by, listing_for, listing_in};

use crate::listings::{FolderOf, Listings};
use append_offers::FolderListing;
use plan_core::{Dataset, Origin};
use value_core::Text;

/// Whether a flow over this origin reads a dataset.
fn reads(from: &Origin, dataset: &Dataset) -> bool
    ensures { result ≡ flows.reads from.now dataset.now }
{
    match from {
        Origin::Files { .. } => false,
        Origin::Table { name } => dataset.name.is_same(name),
    }
}

/// The first dataset in declared order that a flow over this origin reads, and that is marked.
pub(crate) fn blocked<'a>(
    from: &Origin,
    plan: &'a [Dataset],
    halted: &[bool],
) -> Option<&'a Dataset>
    ensures { MatchOption result (blocked_by from.now plan.now halted.now ≡ None) (λ dataset. blocked_by from.now plan.now halted.now ≡ Some dataset.now.name) }
{
    let mut marks = halted;
    for dataset in plan {
        let Some((is_halted, more)) = marks.split_first() else {
            return None;
        };
        if *is_halted && reads(from, dataset) {
            return Some(dataset);
        }
        marks = more;
    }
    None
}

/// What was listed of a folder; `none` where nothing was.
fn listed_in<'a>(listings: &'a [FolderOf], dir: &Text, none: &'a FolderListing) -> &'a FolderListing
    requires { none.now ≡ NoFolder }
    ensures { result.now ≡ listing_in listings.now dir.now }
{
    for one in listings {
        if one.dir.as_str() == dir.as_str() {
            return &one.listing;
        }
    }
    none
}

/// What was listed of the folder of an origin; `none` where it reads a dataset.
pub(crate) fn listing_of<'a>(
    listings: &'a Listings,
    from: &Origin,
    none: &'a FolderListing,
) -> &'a FolderListing
    requires { none.now ≡ NoFolder }
    ensures { result.now ≡ listing_for listings.now from.now }
{
    match from {
        Origin::Files { dir, .. } => listed_in(listings.as_slice(), dir, none),
        Origin::Table { .. } => none,
    }
}
