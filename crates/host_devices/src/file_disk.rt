// A disk of two files of the operating system.
ghost use Rattle.std.specs.Prelude.{◌≡◌, ◌≤◌, ◌^◌, IfOk};

use crate::faults::Faults;
use crate::whole::{read_whole, write_whole};
use disk_model::{Disk, Failed, Side};
use std::fs::{File, OpenOptions};
use std::io;
use std::io::ErrorKind;
use std::rt::Files;

/// How long each file may get, in bytes.
const ROOM: u64 = 1 << 40;

/// A file that is opened at its first call, and made where it is missing.
#[derive(Drop)]
struct Lazy<'a> {
    path: &'a str,
    file: Option<File>,
    /// Whether the folder was synced that has the file's name.
    named: bool,
}

impl<'a> Lazy<'a> {
    fn new(path: &'a str) -> Lazy<'a> {
        Lazy {
            path,
            file: None,
            named: false,
        }
    }
}

/// The folder that has the name of the file at a path.
fn folder_of(path: &str) -> &str {
    match path.rsplit_once('/') {
        Some(("", _)) => "/",
        Some((folder, _)) => folder,
        None => ".",
    }
}

/// Opens the file if that wasn't done yet.
fn open<R: Files<File = File>>(rt: &R, lazy: &mut Lazy) -> io::Result<()> {
    if lazy.file.is_none() {
        let file = OpenOptions::new()
            .read(true)
            .write(true)
            .create(true)
            .open(rt, lazy.path)?;
        lazy.file = Some(file);
    }
    Ok(())
}

/// The file's length. A file that is longer than its room is refused.
fn length_of<R: Files<File = File>>(rt: &R, lazy: &mut Lazy) -> io::Result<u64>
    ensures { IfOk result (λ n. n ≤ 2 ^ 40) }
{
    open(rt, lazy)?;
    let len = match &lazy.file {
        Some(file) => file.metadata()?.len(),
        None => return Err(ErrorKind::NotFound.into()),
    };
    if len > ROOM {
        return Err(ErrorKind::FileTooLarge.into());
    }
    Ok(len)
}

fn fill<R: Files<File = File>>(
    rt: &R,
    lazy: &mut Lazy,
    at: u64,
    into: &mut [u8],
) -> io::Result<()> {
    open(rt, lazy)?;
    match &lazy.file {
        Some(file) => {
            read_whole(file, at, into)?;
            Ok(())
        }
        None => Err(ErrorKind::NotFound.into()),
    }
}

fn put<R: Files<File = File>>(rt: &R, lazy: &mut Lazy, at: u64, piece: &[u8]) -> io::Result<()> {
    open(rt, lazy)?;
    match &lazy.file {
        Some(file) => {
            write_whole(file, at, piece)?;
            Ok(())
        }
        None => Err(ErrorKind::NotFound.into()),
    }
}

fn shorten<R: Files<File = File>>(rt: &R, lazy: &mut Lazy, to: u64) -> io::Result<()> {
    open(rt, lazy)?;
    match &lazy.file {
        Some(file) => file.set_len(to),
        None => Err(ErrorKind::NotFound.into()),
    }
}

/// Syncs the file, and at the first call its folder too. A file's sync keeps its bytes and not its name in
/// the folder, so a power cut could lose a file that was just made. The folder is synced whoever made the
/// file, since a run that made it may have been broken off before it came to that.
fn flush<R: Files<File = File>>(rt: &R, lazy: &mut Lazy) -> io::Result<()> {
    open(rt, lazy)?;
    match &lazy.file {
        Some(file) => file.sync_all()?,
        None => return Err(ErrorKind::NotFound.into()),
    }
    if !lazy.named {
        File::open(rt, folder_of(lazy.path))?.sync_all()?;
        lazy.named = true;
    }
    Ok(())
}

/// Two files of the operating system, each opened at the first call on it and made where it is
/// missing. Each may get 2^40 bytes long. The first sync of a file syncs its name in its folder too.
#[derive(Drop)]
pub struct FileDisk<'a, R: Files<File = File>> {
    rt: &'a R,
    left: Lazy<'a>,
    right: Lazy<'a>,
    faults: Faults,
}

impl<'a, R: Files<File = File>> FileDisk<'a, R> {
    /// A disk of the files at these paths, which has not failed yet.
    pub fn new(rt: &'a R, left: &'a str, right: &'a str) -> FileDisk<'a, R>
        ensures { result.faults.count ≡ 0 }
    {
        FileDisk {
            rt,
            left: Lazy::new(left),
            right: Lazy::new(right),
            faults: Faults::new(),
        }
    }
}

impl<R: Files<File = File>> Disk for FileDisk<'_, R> {
    ghost use Rattle.std.specs.Prelude.{◌^◌};
    ghost use Rattle.disk_model.specs.Disk.{untold};

    ghost tells = { ⊥ };

    ghost tells_moments = { ⊥ };

    ghost state = { λ _. untold };

    ghost faults = { λ disk. disk.faults.count };

    ghost room = { λ _. 2 ^ 40 };

    fn faults(&self) -> u64 {
        self.faults.count
    }

    fn room(&self) -> u64 {
        ROOM
    }

    fn len(&mut self, side: Side) -> Result<u64, Failed> {
        let answer = match side {
            Side::Left => length_of(self.rt, &mut self.left),
            Side::Right => length_of(self.rt, &mut self.right),
        };
        self.faults.note(answer)
    }

    fn read_at(&mut self, side: Side, at: u64, into: &mut [u8]) -> Result<(), Failed> {
        let answer = match side {
            Side::Left => fill(self.rt, &mut self.left, at, into),
            Side::Right => fill(self.rt, &mut self.right, at, into),
        };
        self.faults.note(answer)
    }

    fn write_at(&mut self, side: Side, at: u64, piece: &[u8]) -> Result<(), Failed> {
        let answer = match side {
            Side::Left => put(self.rt, &mut self.left, at, piece),
            Side::Right => put(self.rt, &mut self.right, at, piece),
        };
        self.faults.note(answer)
    }

    fn cut(&mut self, side: Side, to: u64) -> Result<(), Failed> {
        let answer = match side {
            Side::Left => shorten(self.rt, &mut self.left, to),
            Side::Right => shorten(self.rt, &mut self.right, to),
        };
        self.faults.note(answer)
    }

    fn sync(&mut self, side: Side) -> Result<(), Failed> {
        let answer = match side {
            Side::Left => flush(self.rt, &mut self.left),
            Side::Right => flush(self.rt, &mut self.right),
        };
        self.faults.note(answer)
    }
}
