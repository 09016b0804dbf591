// The lines that are new in a folder.
ghost use Rattle.std.specs.Prelude.{◌≡◌, ◌+◌, ◌≤◌, ◌++◌, ◌∷◌, [], ℕ, List, length, OnOk, IfOk, IfErr, MatchOption};
ghost use Rattle.disk_model.specs.Faults.{HasCauseOf};
ghost use Rattle.landing_core.specs.Folders.{AreThere, bytes_of, listed_names};
ghost use Rattle.landing_core.specs.Fresh.{new_lines, new_rows, head_in, heads_of, reach, reach_of, shrunk};
ghost use Rattle.landing_core.specs.Lines.{head_text};
ghost use Rattle.landing_core.specs.Names.{AreAscending};
ghost use Rattle.landing_core.specs.Places.{AreAboveZero, NoneFalls, place_of, placed_names, moved};
ghost use Rattle.landing_core.specs.Ends.{EndsBy, IsNoShrinkage};

use crate::ends::LineEnd;
use crate::heads::{Form, find_head};
use crate::landing::{Landing, Listed, Listing};
use crate::lines::{FreshLines, Reading};
use crate::places::{find_place, move_place};
use crate::reading::read_lines;
use std::alloc::{AllocError, Global};
use value_core::{FilePlace, FilePlaces, Format, Line, ListOf};

/// The heads of the listed files, one a file in their order, empty where no header is wanted or
/// none is there.
pub type Heads = ListOf<Line>;

/// The lines that are new with the heads of their files, and how far the files are read then.
#[derive(Drop)]
pub struct Fresh {
    pub heads: Heads,
    pub lines: FreshLines,
    pub cursor: FilePlaces,
}

/// What was read so far.
#[derive(Drop)]
struct Progress {
    heads: Heads,
    lines: FreshLines,
    places: Vec<FilePlace>,
}

/// The first listed file that is shorter than its place.
fn find_shrunk<'a>(places: &[FilePlace], listing: &'a [Listed]) -> Option<&'a Listed>
    ensures { MatchOption result (shrunk places.now listing.now ≡ None) (λ found. shrunk places.now listing.now ≡ Some found.now) }
{
    for listed in listing {
        if listed.size < find_place(places, listed.file.as_str()) {
            return Some(listed);
        }
    }
    None
}

/// The places once more.
fn copy_places(alloc: Global, places: &[FilePlace]) -> Result<Vec<FilePlace>, AllocError>
    ensures { IfOk result (λ copy. copy.items ≡ places.now) }
{
    let mut copy = Vec::new(alloc);
    for known in places {
        copy.push(FilePlace {
            file: known.file.copy(alloc)?,
            place: known.place,
        })?;
    }
    Ok(copy)
}

/// How far a file was read that is shorter now.
fn shrinkage(alloc: Global, places: &[FilePlace], listed: &Listed) -> LineEnd
    ensures { EndsBy (Some listed.now) places.now result }
{
    match listed.file.copy(alloc) {
        Ok(file) => LineEnd::Shrunk {
            file,
            cursor: find_place(places, listed.file.as_str()),
            size: listed.size,
        },
        Err(_) => LineEnd::Memory,
    }
}

/// Adds the head and the new lines of one listed file, and notes how far it was read.
fn take_file<L: Landing>(
    alloc: Global,
    landing: &mut L,
    dir: &str,
    places: &[FilePlace],
    form: Form,
    number: u64,
    listed: &Listed,
    fresh: &mut Progress,
) -> Result<(), LineEnd>
    requires within { place_of places.now listed.now.file ≤ listed.now.size }
    requires there { L.tells → listed.now.size ≤ length (bytes_of dir.now listed.now.file (L.present landing.old)) }
    ensures heads { L.tells → OnOk result (fresh.new.heads ≡ fresh.old.heads ++ head_text (head_in form.format form.header dir.now (L.present landing.old) listed.now) ∷ []) }
    ensures lines { L.tells → OnOk result (fresh.new.lines ≡ fresh.old.lines ++ new_rows form.format form.header dir.now (L.present landing.old) places.now number listed.now) }
    ensures places { L.tells → OnOk result (fresh.new.places.items ≡ moved listed.now.file (reach_of dir.now (L.present landing.old) places.now listed.now) fresh.old.places.items) }
    ensures later { OnOk result ((place : ℕ) × (place_of places.now listed.now.file ≤ place) × (fresh.new.places.items ≡ moved listed.now.file place fresh.old.places.items)) }
    ensures present { L.tells → L.present landing.new ≡ L.present landing.old }
    ensures ever { L.tells → L.ever landing.new ≡ L.ever landing.old }
    ensures err { IfErr result IsNoShrinkage }
    ensures cause { HasCauseOf LineEnd.Failed (L.faults landing.old) (L.faults landing.new) result }
{
    let place = find_place(places, listed.file.as_str());
    let head = find_head(alloc, landing, dir, form, listed)?;
    let reading = Reading {
        format: form.format,
        head: head.place,
        number,
    };
    let reach = read_lines(
        alloc,
        landing,
        dir,
        listed,
        place,
        reading,
        &mut fresh.lines,
    )?;
    fresh.heads.push(head.text)?;
    move_place(&mut fresh.places, listed.file.copy(alloc)?, reach)?;
    Ok(())
}

/// The lines that are new in the listed files of a folder, with the heads of the files, and how far
/// the files are read then. Each byte of a file behind its place is read once, in pieces; the
/// memory taken is a small multiple of the lines that are new.
///
/// A new line is a row unless it is blank (in CSV an empty line, in JSON one of spaces and tabs).
/// It is given without its LF, without one CR before that, and without a byte order mark at the
/// file's beginning (RFC 8259 §8.1 lets a reader pass over one). A last line without LF isn't read.
pub fn fresh_lines<L: Landing>(
    alloc: Global,
    landing: &mut L,
    dir: &str,
    listing: &Listing,
    cursor: &FilePlaces,
    format: Format,
    header: bool,
) -> Result<Fresh, LineEnd>
    requires ascending { AreAscending (placed_names cursor.now) }
    requires above_zero { AreAboveZero cursor.now }
    requires listed { AreAscending (listed_names listing.now) }
    requires there { L.tells → AreThere dir.now (L.present landing.old) listing.now }

    ensures heads { L.tells → IfOk result (λ fresh. fresh.heads ≡ heads_of format header dir.now (L.present landing.old) listing.now) }
    ensures lines { L.tells → IfOk result (λ fresh. fresh.lines ≡ new_lines format header dir.now (L.present landing.old) cursor.now 0 listing.now) }
    ensures cursor { L.tells → IfOk result (λ fresh. fresh.cursor ≡ reach dir.now (L.present landing.old) cursor.now listing.now) }

    // Whatever the landing tells, the new places are places again, and none falls.
    ensures ascending { IfOk result (λ fresh. AreAscending (placed_names fresh.cursor)) }
    ensures above_zero { IfOk result (λ fresh. AreAboveZero fresh.cursor) }
    ensures later { IfOk result (λ fresh. NoneFalls cursor.now fresh.cursor) }

    ensures present { L.tells → L.present landing.new ≡ L.present landing.old }
    ensures ever { L.tells → L.ever landing.new ≡ L.ever landing.old }

    // A file that is shorter than its place is found before any read.
    ensures unshrunk { OnOk result (shrunk cursor.now listing.now ≡ None) }
    ensures err { IfErr result (EndsBy (shrunk cursor.now listing.now) cursor.now) }
    ensures cause { HasCauseOf LineEnd.Failed (L.faults landing.old) (L.faults landing.new) result }
{
    if let Some(listed) = find_shrunk(cursor.as_slice(), listing.as_slice()) {
        return Err(shrinkage(alloc, cursor.as_slice(), listed));
    }
    read_files(
        alloc,
        landing,
        dir,
        listing.as_slice(),
        cursor.as_slice(),
        Form { format, header },
    )
}

/// The lines that are new in files that are all as long as their places or longer.
fn read_files<L: Landing>(
    alloc: Global,
    landing: &mut L,
    dir: &str,
    listing: &[Listed],
    cursor: &[FilePlace],
    form: Form,
) -> Result<Fresh, LineEnd>
    requires ascending { AreAscending (placed_names cursor.now) }
    requires above_zero { AreAboveZero cursor.now }
    requires there { L.tells → AreThere dir.now (L.present landing.old) listing.now }
    requires unshrunk { shrunk cursor.now listing.now ≡ None }
    ensures heads { L.tells → IfOk result (λ fresh. fresh.heads ≡ heads_of form.format form.header dir.now (L.present landing.old) listing.now) }
    ensures lines { L.tells → IfOk result (λ fresh. fresh.lines ≡ new_lines form.format form.header dir.now (L.present landing.old) cursor.now 0 listing.now) }
    ensures cursor { L.tells → IfOk result (λ fresh. fresh.cursor ≡ reach dir.now (L.present landing.old) cursor.now listing.now) }
    ensures ascending { IfOk result (λ fresh. AreAscending (placed_names fresh.cursor)) }
    ensures above_zero { IfOk result (λ fresh. AreAboveZero fresh.cursor) }
    ensures later { IfOk result (λ fresh. NoneFalls cursor.now fresh.cursor) }
    ensures present { L.tells → L.present landing.new ≡ L.present landing.old }
    ensures ever { L.tells → L.ever landing.new ≡ L.ever landing.old }
    ensures err { IfErr result IsNoShrinkage }
    ensures cause { HasCauseOf LineEnd.Failed (L.faults landing.old) (L.faults landing.new) result }
{
    let mut fresh = Progress {
        heads: ListOf::new(alloc),
        lines: ListOf::new(alloc),
        places: copy_places(alloc, cursor)?,
    };
    for (k, listed) in listing.iter().enumerate() {
        take_file(
            alloc, landing, dir, cursor, form, k as u64, listed, &mut fresh,
        )?;
    }
    let Progress {
        heads,
        lines,
        places,
    } = fresh;
    Ok(Fresh {
        heads,
        lines,
        cursor: ListOf::from_vec(places),
    })
}
