// Landing folders in memory, some of whose calls fail.
ghost use Rattle.std.specs.Prelude.{◌≡◌, ◌↔◌, ◌+◌, ◌≤◌, ◌++◌, [], length, slice_range, IfOk, IsErr, IsErrOf, OnOk, OnErr};
ghost use Rattle.disk_model.specs.Failing.{next_number, IsListed};
ghost use Rattle.disk_model.specs.Faults.{HasCause, HasCauseOf, one_more_fault};
ghost use Rattle.landing_core.specs.Folders.{AreThere, bytes_of, listed_names, listing_of, with_file, without_file, SameFiles, HoldsPresent};
ghost use Rattle.landing_core.specs.MemLanding.{landing_failing, landing_made};
ghost use Rattle.landing_core.specs.Names.{AreAscending};

use crate::landing::{Landing, ListEnd, Listing};
use crate::sure_landing::SureLanding;
use disk_model::{Failed, Failing};
use std::alloc::{AllocError, Global};

/// Landing folders in memory, some of whose calls fail. A failing call changes nothing but the
/// count.
#[derive(Drop)]
pub struct MemLanding {
    inner: SureLanding,
    failing: Failing,
}

impl MemLanding {
    /// Folders without files. The calls of `list` and `read_at` with these numbers, counted
    /// together from 1, fail.
    pub fn new(alloc: Global, failing: Vec<u64>) -> MemLanding
        ensures present { ⟦<MemLanding as Landing>⟧.present result ≡ [] }
        ensures ever { ⟦<MemLanding as Landing>⟧.ever result ≡ [] }
        ensures faults { ⟦<MemLanding as Landing>⟧.faults result ≡ 0 }
        ensures made { landing_made result ≡ 0 }
        ensures failing { landing_failing result ≡ failing.items }
    {
        MemLanding {
            inner: SureLanding::new(alloc),
            failing: Failing::new(failing),
        }
    }

    /// Sets the whole bytes of a file, which is there from then on.
    pub fn put(&mut self, dir: &str, file: &str, bytes: &[u8]) -> Result<(), AllocError>
        ensures ok { OnOk result (⟦<MemLanding as Landing>⟧.present self.new ≡ with_file dir.now file.now bytes.now (⟦<MemLanding as Landing>⟧.present self.old)) }
        ensures ever { OnOk result (SameFiles (⟦<MemLanding as Landing>⟧.ever self.new) (with_file dir.now file.now bytes.now (⟦<MemLanding as Landing>⟧.ever self.old))) }
        ensures err { OnErr result (⟦<MemLanding as Landing>⟧.present self.new ≡ ⟦<MemLanding as Landing>⟧.present self.old) }
        ensures err_ever { OnErr result (⟦<MemLanding as Landing>⟧.ever self.new ≡ ⟦<MemLanding as Landing>⟧.ever self.old) }
        ensures kept { HoldsPresent (⟦<MemLanding as Landing>⟧.present self.new) (⟦<MemLanding as Landing>⟧.ever self.new) }
        ensures faults { ⟦<MemLanding as Landing>⟧.faults self.new ≡ ⟦<MemLanding as Landing>⟧.faults self.old }
        ensures made { landing_made self.new ≡ landing_made self.old }
        ensures failing { landing_failing self.new ≡ landing_failing self.old }
    {
        self.inner.put(dir, file, bytes)
    }

    /// Adds bytes at the end of a file, which is there from then on.
    pub fn grow(&mut self, dir: &str, file: &str, bytes: &[u8]) -> Result<(), AllocError>
        ensures ok { OnOk result (⟦<MemLanding as Landing>⟧.present self.new ≡ with_file dir.now file.now (bytes_of dir.now file.now (⟦<MemLanding as Landing>⟧.present self.old) ++ bytes.now) (⟦<MemLanding as Landing>⟧.present self.old)) }
        ensures ever { OnOk result (SameFiles (⟦<MemLanding as Landing>⟧.ever self.new) (with_file dir.now file.now (bytes_of dir.now file.now (⟦<MemLanding as Landing>⟧.present self.old) ++ bytes.now) (⟦<MemLanding as Landing>⟧.ever self.old))) }
        ensures err { OnErr result (⟦<MemLanding as Landing>⟧.present self.new ≡ ⟦<MemLanding as Landing>⟧.present self.old) }
        ensures err_ever { OnErr result (⟦<MemLanding as Landing>⟧.ever self.new ≡ ⟦<MemLanding as Landing>⟧.ever self.old) }
        ensures kept { HoldsPresent (⟦<MemLanding as Landing>⟧.present self.new) (⟦<MemLanding as Landing>⟧.ever self.new) }
        ensures faults { ⟦<MemLanding as Landing>⟧.faults self.new ≡ ⟦<MemLanding as Landing>⟧.faults self.old }
        ensures made { landing_made self.new ≡ landing_made self.old }
        ensures failing { landing_failing self.new ≡ landing_failing self.old }
    {
        self.inner.grow(dir, file, bytes)
    }

    /// Takes a file away, if it is there. Its bytes are kept among those that were ever there.
    pub fn remove(&mut self, dir: &str, file: &str)
        ensures present { ⟦<MemLanding as Landing>⟧.present self.new ≡ without_file dir.now file.now (⟦<MemLanding as Landing>⟧.present self.old) }
        ensures ever { SameFiles (⟦<MemLanding as Landing>⟧.ever self.new) (⟦<MemLanding as Landing>⟧.ever self.old) }
        ensures kept { HoldsPresent (⟦<MemLanding as Landing>⟧.present self.new) (⟦<MemLanding as Landing>⟧.ever self.new) }
        ensures faults { ⟦<MemLanding as Landing>⟧.faults self.new ≡ ⟦<MemLanding as Landing>⟧.faults self.old }
        ensures made { landing_made self.new ≡ landing_made self.old }
        ensures failing { landing_failing self.new ≡ landing_failing self.old }
    {
        self.inner.remove(dir, file);
    }
}

impl Landing for MemLanding {
    ghost tells = { Unit {0} };

    ghost present = { λ landing. ⟦<SureLanding as Landing>⟧.present landing.inner };

    ghost ever = { λ landing. ⟦<SureLanding as Landing>⟧.ever landing.inner };

    ghost faults = { λ landing. landing.failing.faults };

    fn faults(&self) -> u64 {
        self.failing.faults
    }

    // It fails exactly where its number is listed.
    fn list(&mut self, alloc: Global, dir: &str) -> Result<Listing, ListEnd>
        ensures fails { IsErrOf result ListEnd.Failed ↔ IsListed (landing_failing self.old) (landing_made self.old) }
        ensures counted { IsErrOf result ListEnd.Failed → self.new.failing.faults ≡ one_more_fault self.old.failing.faults }
        ensures listing { IfOk result (λ listing. listing ≡ listing_of dir.now (⟦<SureLanding as Landing>⟧.present self.old.inner)) }
        ensures there { IfOk result (λ listing. AreThere dir.now (⟦<SureLanding as Landing>⟧.present self.old.inner) listing) }
        ensures ascending { IfOk result (λ listing. AreAscending (listed_names listing)) }
        ensures made { landing_made self.new ≡ next_number (landing_made self.old) }
        ensures failing { landing_failing self.new ≡ landing_failing self.old }
        ensures present { ⟦<SureLanding as Landing>⟧.present self.new.inner ≡ ⟦<SureLanding as Landing>⟧.present self.old.inner }
        ensures ever { ⟦<SureLanding as Landing>⟧.ever self.new.inner ≡ ⟦<SureLanding as Landing>⟧.ever self.old.inner }
        ensures cause { HasCauseOf ListEnd.Failed self.old.failing.faults self.new.failing.faults result }
    {
        match self.failing.turn() {
            Ok(()) => self.inner.list(alloc, dir),
            Err(_) => Err(ListEnd::Failed),
        }
    }

    // It fails exactly where its number is listed.
    fn read_at(&mut self, dir: &str, file: &str, at: u64, into: &mut [u8]) -> Result<(), Failed>
        requires { at + length into.old ≤ length (bytes_of dir.now file.now (⟦<SureLanding as Landing>⟧.present self.old.inner)) }
        ensures fails { IsErr result ↔ IsListed (landing_failing self.old) (landing_made self.old) }
        ensures counted { OnErr result (self.new.failing.faults ≡ one_more_fault self.old.failing.faults) }
        ensures bytes { OnOk result (into.new ≡ slice_range (bytes_of dir.now file.now (⟦<SureLanding as Landing>⟧.present self.old.inner)) at (at + length into.old)) }
        ensures made { landing_made self.new ≡ next_number (landing_made self.old) }
        ensures failing { landing_failing self.new ≡ landing_failing self.old }
        ensures present { ⟦<SureLanding as Landing>⟧.present self.new.inner ≡ ⟦<SureLanding as Landing>⟧.present self.old.inner }
        ensures ever { ⟦<SureLanding as Landing>⟧.ever self.new.inner ≡ ⟦<SureLanding as Landing>⟧.ever self.old.inner }
        ensures cause { HasCause self.old.failing.faults self.new.failing.faults result }
    {
        self.failing.turn()?;
        self.inner.read_at(dir, file, at, into)
    }
}
