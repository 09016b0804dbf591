// The folders below a root.
ghost use Rattle.std.specs.Prelude.{◌≡◌, IfOk};
ghost use Rattle.landing_core.specs.Folders.{listed_names};
ghost use Rattle.landing_core.specs.Names.{AreAscending};

use crate::faults::Faults;
use crate::whole::read_whole;
use disk_model::Failed;
use landing_core::{Landing, ListEnd, Listed, Listing, is_ascending};
use std::alloc::{AllocError, Global};
use std::fs::{File, read_dir};
use std::io;
use std::io::ErrorKind;
use std::rt::Files;
use value_core::{ListOf, Text};

/// The folders below a root. Each listing makes room for the longest path in it, so that a read
/// takes no memory.
#[derive(Drop)]
pub struct FolderLanding<'a, R> {
    rt: &'a R,
    root: &'a str,
    path: String,
    faults: Faults,
}

impl<'a, R> FolderLanding<'a, R> {
    /// The folders below this one, whose names are paths from it. They have not failed yet.
    pub fn new(alloc: Global, rt: &'a R, root: &'a str) -> FolderLanding<'a, R>
        ensures { result.faults.count ≡ 0 }
    {
        FolderLanding {
            rt,
            root,
            path: String::new(alloc),
            faults: Faults::new(),
        }
    }
}

/// Puts the path of a folder, or of a file in it, in place of what `path` says.
fn set_path(path: &mut String, root: &str, dir: &str, file: &str) -> Result<(), AllocError> {
    path.clear();
    path.push_str(root)?;
    path.push('/')?;
    path.push_str(dir)?;
    path.push('/')?;
    path.push_str(file)
}

/// Whether a file of this name is listed.
fn is_listed_name(name: &str) -> bool {
    !name.starts_with('.') && !name.starts_with('_')
}

/// The files of a folder, in the order in which the system gives them. A name that isn't UTF-8 is
/// an error. A folder that doesn't exist has none.
fn read_entries<R: Files + AllocGlobal + Clone + Drop>(
    rt: &R,
    alloc: Global,
    path: &str,
) -> io::Result<Vec<Listed>> {
    let mut listed = Vec::new(alloc);
    let entries = match read_dir(rt, path) {
        Ok(entries) => entries,
        Err(error) if error.kind() == ErrorKind::NotFound => return Ok(listed),
        Err(error) => return Err(error),
    };
    for entry in entries {
        let entry = entry?;
        let about = entry.metadata()?;
        if about.is_file() && is_listed_name(entry.file_name()) {
            let file = Text::new(alloc, entry.file_name())?;
            listed.push(Listed {
                file,
                size: about.len(),
            })?;
        }
    }
    Ok(listed)
}

/// The entries in ascending order of their names. Two of one name are an error.
fn in_order(mut listed: Vec<Listed>) -> io::Result<Listing>
    ensures { IfOk result (λ listing. AreAscending (listed_names listing)) }
{
    listed.sort_unstable_by(|a, b| a.file.as_str().cmp(&b.file.as_str()));
    if !is_ascending(listed.as_slice()) {
        return Err(ErrorKind::InvalidData.into());
    }
    Ok(ListOf::from_vec(listed))
}

/// How many bytes the longest of the names has.
fn longest_name(listed: &[Listed]) -> usize {
    let mut longest = 0;
    for entry in listed {
        longest = longest.max(entry.file.as_str().len());
    }
    longest
}

/// What a folder lists, with room for the path of each file in it.
fn list_folder<R: Files + AllocGlobal + Clone + Drop>(
    rt: &R,
    alloc: Global,
    path: &mut String,
    root: &str,
    dir: &str,
) -> io::Result<Listing>
    ensures { IfOk result (λ listing. AreAscending (listed_names listing)) }
{
    set_path(path, root, dir, "")?;
    let listed = read_entries(rt, alloc, path.as_str())?;
    path.reserve(longest_name(listed.as_slice()))?;
    in_order(listed)
}

/// Fills `into` with the bytes of a file at a place.
fn read_file<R: Files<File = File>>(
    rt: &R,
    path: &str,
    at: u64,
    into: &mut [u8],
) -> io::Result<()> {
    let file = File::open(rt, path)?;
    read_whole(&file, at, into)?;
    Ok(())
}

impl<R: Files<File = File> + AllocGlobal + Clone + Drop> Landing for FolderLanding<'_, R> {
    ghost use Rattle.std.specs.Prelude.{[]};

    ghost tells = { ⊥ };

    ghost present = { λ _. [] };

    ghost ever = { λ _. [] };

    ghost faults = { λ landing. landing.faults.count };

    fn faults(&self) -> u64 {
        self.faults.count
    }

    fn list(&mut self, alloc: Global, dir: &str) -> Result<Listing, ListEnd> {
        let answer = list_folder(self.rt, alloc, &mut self.path, self.root, dir);
        if let Err(error) = &answer
            && error.kind() == ErrorKind::OutOfMemory
        {
            return Err(ListEnd::Memory);
        }
        match self.faults.note(answer) {
            Ok(listing) => Ok(listing),
            Err(_) => Err(ListEnd::Failed),
        }
    }

    fn read_at(&mut self, dir: &str, file: &str, at: u64, into: &mut [u8]) -> Result<(), Failed> {
        let answer = match set_path(&mut self.path, self.root, dir, file) {
            Ok(()) => read_file(self.rt, self.path.as_str(), at, into),
            Err(error) => Err(error.into()),
        };
        self.faults.note(answer)
    }
}
