// The bytes of a file, from its front.
ghost use Rattle.std.specs.Prelude.{◌≡◌, ◌≤◌, length, IfOk};

use crate::faults::Faults;
use disk_model::{Failed, Source};
use std::fs::File;
use std::io;
use std::io::Read;
use std::rt::Files;

/// The bytes of a file, which is opened at the first call.
#[derive(Drop)]
pub struct FileSource<'a, R: Files> {
    rt: &'a R,
    path: &'a str,
    file: Option<R::File>,
    faults: Faults,
}

impl<'a, R: Files> FileSource<'a, R> {
    /// An input from the file at this path, which is opened at the first read. It has not failed yet.
    pub fn new(rt: &'a R, path: &'a str) -> FileSource<'a, R>
        ensures { result.faults.count ≡ 0 }
    {
        FileSource {
            rt,
            path,
            file: None,
            faults: Faults::new(),
        }
    }
}

/// Opens the file if that wasn't done yet, and reads some of what stands next.
fn read_some<R: Files>(
    rt: &R,
    path: &str,
    slot: &mut Option<R::File>,
    into: &mut [u8],
) -> io::Result<usize>
    ensures { IfOk result (λ n. n ≤ length into.old) }
{
    if slot.is_none() {
        *slot = Some(File::open(rt, path)?);
    }
    match slot {
        Some(file) => file.read(into),
        None => Err(io::ErrorKind::NotFound.into()),
    }
}

impl<R: Files> Source for FileSource<'_, R> {
    ghost use Rattle.std.specs.Prelude.{[]};

    ghost tells = { ⊥ };

    ghost left = { λ _. [] };

    ghost faults = { λ source. source.faults.count };

    fn read(&mut self, into: &mut [u8]) -> Result<usize, Failed> {
        let answer = read_some(self.rt, self.path, &mut self.file, into);
        self.faults.note(answer)
    }
}
