// The folders of a plan are listed.
ghost use Rattle.std.specs.Prelude.{◌≡◌, ◌≤◌, ◌++◌, [], ◌∷◌, IfOk, OnOk};
ghost use Rattle.update_run.specs.Folders.{AreBlamed, Differ, FailOnly, HasFailedWithin, folder_of, folders_in, folders_listed, folders_of, folders_read, has_folder, with_folders};
ghost use Rattle.update_run.specs.Runs.{AllListed, AreListings, IsListedAs};

use append_offers::FolderListing;
use flow_engine::{FolderOf, Listings};
use landing_core::{Landing, ListEnd};
use plan_core::{AppendFlow, Body, Origin, Plan};
use std::alloc::{AllocError, Global};
use value_core::{ListOf, Text};

/// Whether a folder was listed.
fn is_listed(listings: &[FolderOf], dir: &str) -> bool
    ensures { result ≡ has_folder (folders_listed listings.now) dir.now }
{
    for known in listings {
        if known.dir.as_str() == dir {
            return true;
        }
    }
    false
}

/// What a folder lists, or the landing's counts before and after a listing that failed.
fn list_one<L: Landing>(
    alloc: Global,
    landing: &mut L,
    dir: &str,
) -> Result<FolderListing, AllocError>
    ensures listed { IfOk result (IsListedAs L.tells dir.now (L.present landing.old)) }
    ensures failed { IfOk result (HasFailedWithin (L.faults landing.old) (L.faults landing.new)) }
    ensures present { L.tells → L.present landing.new ≡ L.present landing.old }
    ensures ever { L.tells → L.ever landing.new ≡ L.ever landing.old }
    ensures later { L.faults landing.old ≤ L.faults landing.new }
{
    let before = landing.faults();
    match landing.list(alloc, dir) {
        Ok(listing) => Ok(FolderListing::Files(listing)),
        Err(ListEnd::Failed) => {
            let after = landing.faults();
            Ok(FolderListing::Failed { before, after })
        }
        Err(ListEnd::Memory) => Err(AllocError),
    }
}

/// Lists a folder that wasn't listed.
fn list_other<L: Landing>(
    alloc: Global,
    landing: &mut L,
    listings: &mut Listings,
    dir: &Text,
) -> Result<(), AllocError>
    requires whole { AreListings L.tells (L.present landing.old) listings.old }
    ensures folders { OnOk result (folders_listed listings.new ≡ folders_listed listings.old ++ dir.now ∷ []) }
    ensures whole { OnOk result (AreListings L.tells (L.present landing.new) listings.new) }
    ensures failed { OnOk result (FailOnly (L.faults landing.old) (L.faults landing.new) listings.old listings.new) }
    ensures present { L.tells → L.present landing.new ≡ L.present landing.old }
    ensures ever { L.tells → L.ever landing.new ≡ L.ever landing.old }
    ensures later { L.faults landing.old ≤ L.faults landing.new }
{
    let listing = list_one(alloc, landing, dir.as_str())?;
    let dir = dir.copy(alloc)?;
    listings.push(FolderOf { dir, listing })?;
    Ok(())
}

/// Lists the folder of an origin, if it is one that wasn't listed.
fn list_origin<L: Landing>(
    alloc: Global,
    landing: &mut L,
    listings: &mut Listings,
    origin: &Origin,
) -> Result<(), AllocError>
    requires whole { AreListings L.tells (L.present landing.old) listings.old }
    ensures folders { OnOk result (folders_listed listings.new ≡ with_folders (folders_listed listings.old) (folder_of origin.now)) }
    ensures whole { OnOk result (AreListings L.tells (L.present landing.new) listings.new) }
    ensures failed { OnOk result (FailOnly (L.faults landing.old) (L.faults landing.new) listings.old listings.new) }
    ensures present { L.tells → L.present landing.new ≡ L.present landing.old }
    ensures ever { L.tells → L.ever landing.new ≡ L.ever landing.old }
    ensures later { L.faults landing.old ≤ L.faults landing.new }
{
    let Origin::Files { dir, .. } = origin else {
        return Ok(());
    };
    if is_listed(listings.as_slice(), dir.as_str()) {
        return Ok(());
    }
    list_other(alloc, landing, listings, dir)
}

/// Lists the folders of append flows that weren't listed.
fn list_flows<L: Landing>(
    alloc: Global,
    landing: &mut L,
    listings: &mut Listings,
    flows: &[AppendFlow],
) -> Result<(), AllocError>
    requires whole { AreListings L.tells (L.present landing.old) listings.old }
    ensures folders { OnOk result (folders_listed listings.new ≡ with_folders (folders_listed listings.old) (folders_of flows.now)) }
    ensures whole { OnOk result (AreListings L.tells (L.present landing.new) listings.new) }
    ensures failed { OnOk result (FailOnly (L.faults landing.old) (L.faults landing.new) listings.old listings.new) }
    ensures present { L.tells → L.present landing.new ≡ L.present landing.old }
    ensures ever { L.tells → L.ever landing.new ≡ L.ever landing.old }
    ensures later { L.faults landing.old ≤ L.faults landing.new }
{
    for flow in flows {
        list_origin(alloc, landing, listings, &flow.origin)?;
    }
    Ok(())
}

/// Lists the folders of a dataset that weren't listed.
fn list_body<L: Landing>(
    alloc: Global,
    landing: &mut L,
    listings: &mut Listings,
    body: &Body,
) -> Result<(), AllocError>
    requires whole { AreListings L.tells (L.present landing.old) listings.old }
    ensures folders { OnOk result (folders_listed listings.new ≡ with_folders (folders_listed listings.old) (folders_in body.now)) }
    ensures whole { OnOk result (AreListings L.tells (L.present landing.new) listings.new) }
    ensures failed { OnOk result (FailOnly (L.faults landing.old) (L.faults landing.new) listings.old listings.new) }
    ensures present { L.tells → L.present landing.new ≡ L.present landing.old }
    ensures ever { L.tells → L.ever landing.new ≡ L.ever landing.old }
    ensures later { L.faults landing.old ≤ L.faults landing.new }
{
    match body {
        Body::Append(flows) => list_flows(alloc, landing, listings, flows.as_slice()),
        Body::Cdc(_) => Ok(()),
        Body::View(_) => Ok(()),
    }
}

/// What each folder lists that an append flow of a plan reads: each folder once, byte for byte, in the
/// order in which the flows first name them.
///
/// A folder whose listing failed has the landing's counts of faults before and after it, and the others
/// are listed all the same. `Err` comes for want of memory alone.
pub fn list_all<L: Landing>(
    alloc: Global,
    plan: &Plan,
    landing: &mut L,
) -> Result<Listings, AllocError>
    ensures folders { IfOk result (λ listings. folders_listed listings ≡ with_folders [] (folders_read plan.now)) }
    ensures once { IfOk result (λ listings. Differ (folders_listed listings)) }
    ensures listed { IfOk result (AllListed L.tells plan.now (L.present landing.old)) }
    // A listing is told as failed only where the landing's count rose in it.
    ensures failed { IfOk result (AreBlamed (L.faults landing.old) (L.faults landing.new)) }
    ensures present { L.tells → L.present landing.new ≡ L.present landing.old }
    ensures ever { L.tells → L.ever landing.new ≡ L.ever landing.old }
    ensures later { L.faults landing.old ≤ L.faults landing.new }
{
    let mut listings = ListOf::new(alloc);
    for dataset in plan.as_slice() {
        list_body(alloc, landing, &mut listings, &dataset.body)?;
    }
    Ok(listings)
}
