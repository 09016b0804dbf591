// What is new of files.
ghost use Rattle.std.specs.Prelude.{◌≡◌, ◌≤◌, IfOk};
ghost use Rattle.value_core.specs.FilePlaces.{IsPlaces};
ghost use Rattle.value_core.specs.declared.cursor.Cursor.TheVariants.{Files};
ghost use Rattle.landing_core.specs.Folders.{AreThere, listed_names};
ghost use Rattle.landing_core.specs.Fresh.{shrunk};
ghost use Rattle.landing_core.specs.Names.{AreAscending};
ghost use Rattle.plan_core.specs.declared.flow.Origin.TheVariants as origin;
ghost use Rattle.plan_core.specs.declared.flow.Origin.{Origin as AnOrigin};
ghost use Rattle.flow_news.specs.Finds.{Follow, OfFiles, OfFolder, OfListed, found_of};
ghost use Rattle.flow_news.specs.News.{IsListing, rows_read};

use crate::news::{NewRows, News};
use crate::offer::FolderListing;
use landing_core::{Fresh, Landing, LineEnd, Listing, fresh_lines, is_same_places};
use landing_history::places_have_one_form;
use plan_core::Stop;
use std::alloc::{AllocError, Global};
use value_core::{Cursor, FilePlaces, Shape, Text};

/// What is new of lines that were read from these places on.
fn lines_news(alloc: Global, places: &FilePlaces, fresh: Fresh) -> Result<News, AllocError>
    ensures { (from : AnOrigin) → IfOk result (λ news. Follow (Files places.now) (rows_read from fresh) (Files fresh.cursor) (found_of from news)) }
{
    if is_same_places(fresh.cursor.as_slice(), places.as_slice()) {
        return Ok(News::Idle);
    }
    let behind = Cursor::Files(fresh.cursor.copy(alloc)?);
    Ok(News::Come {
        rows: NewRows::Lines(fresh),
        behind,
    })
}

/// What is new of listed files that are read from these places on.
fn listed_news<L: Landing>(
    alloc: Global,
    landing: &mut L,
    dir: &Text,
    shape: &Shape,
    listing: &Listing,
    places: &FilePlaces,
) -> Result<News, AllocError>
    requires form { IsPlaces places.now }
    requires listed { AreAscending (listed_names listing.now) }
    requires there { L.tells → AreThere dir.now (L.present landing.old) listing.now }
    ensures news { IfOk result (λ news. OfListed L.tells (L.faults landing.old) (L.faults landing.new) (L.present landing.old) shape.now dir.now listing.now places.now (shrunk places.now listing.now) (found_of (origin.Files dir.now shape.now) news)) }
    ensures present { L.tells → L.present landing.new ≡ L.present landing.old }
    ensures ever { L.tells → L.ever landing.new ≡ L.ever landing.old }
    ensures later { L.faults landing.old ≤ L.faults landing.new }
{
    places_have_one_form();
    let before = landing.faults();
    match fresh_lines(
        alloc,
        landing,
        dir.as_str(),
        listing,
        places,
        shape.format,
        shape.header,
    ) {
        Ok(fresh) => lines_news(alloc, places, fresh),
        Err(LineEnd::Shrunk { file, cursor, size }) => {
            Ok(News::Halted(Stop::Shrunk { file, cursor, size }))
        }
        Err(LineEnd::Failed) => {
            let after = landing.faults();
            Ok(News::Halted(Stop::Landing { before, after }))
        }
        Err(LineEnd::Memory) => Err(AllocError),
    }
}

/// What is new of a folder that is read from these places on.
fn folder_news<L: Landing>(
    alloc: Global,
    landing: &mut L,
    dir: &Text,
    shape: &Shape,
    listing: &FolderListing,
    places: &FilePlaces,
) -> Result<News, AllocError>
    requires form { IsPlaces places.now }
    requires listing { IsListing L.tells dir.now (L.present landing.old) listing.now }
    ensures news { IfOk result (λ news. OfFolder L.tells (L.faults landing.old) (L.faults landing.new) (L.present landing.old) shape.now dir.now listing.now places.now (found_of (origin.Files dir.now shape.now) news)) }
    ensures present { L.tells → L.present landing.new ≡ L.present landing.old }
    ensures ever { L.tells → L.ever landing.new ≡ L.ever landing.old }
    ensures later { L.faults landing.old ≤ L.faults landing.new }
{
    match listing {
        FolderListing::NoFolder => unreachable!(),
        FolderListing::Failed { before, after } => Ok(News::Halted(Stop::Landing {
            before: *before,
            after: *after,
        })),
        FolderListing::Files(listing) => listed_news(alloc, landing, dir, shape, listing, places),
    }
}

/// What is new of a folder to a flow that stands at this position.
pub(crate) fn files_news<L: Landing>(
    alloc: Global,
    landing: &mut L,
    dir: &Text,
    shape: &Shape,
    listing: &FolderListing,
    cursor: &Cursor,
) -> Result<News, AllocError>
    requires listing { IsListing L.tells dir.now (L.present landing.old) listing.now }
    ensures news { IfOk result (λ news. OfFiles L.tells (L.faults landing.old) (L.faults landing.new) (L.present landing.old) shape.now dir.now listing.now cursor.now (found_of (origin.Files dir.now shape.now) news)) }
    ensures present { L.tells → L.present landing.new ≡ L.present landing.old }
    ensures ever { L.tells → L.ever landing.new ≡ L.ever landing.old }
    ensures later { L.faults landing.old ≤ L.faults landing.new }
{
    match cursor {
        Cursor::Files(places) => {
            if !places.is_ascending() {
                return Ok(News::Unfit);
            }
            folder_news(alloc, landing, dir, shape, listing, places)
        }
        Cursor::At(_) => Ok(News::Unfit),
        Cursor::Never => Ok(News::Unfit),
    }
}
