// Landing folders, as a reader of them sees them.
ghost use Rattle.std.specs.Prelude.{◌≡◌, ◌+◌, ◌≤◌, ℕ, List, length, slice_range, IfOk, OnOk};
ghost use Rattle.disk_model.specs.Faults.{HasCause, HasCauseOf};
ghost use Rattle.landing_core.specs.declared.landing.LandingFile.{LandingFile};
ghost use Rattle.landing_core.specs.Folders.{AreThere, listing_of, listed_names, bytes_of};
ghost use Rattle.landing_core.specs.Names.{AreAscending};

use disk_model::Failed;
use std::alloc::Global;
use value_core::{Line, ListOf, Text};

/// A file of a landing folder.
#[derive(Drop)]
pub struct LandingFile {
    pub dir: Text,
    pub file: Text,
    pub bytes: Line,
}

/// A file in a folder's listing, with its size in bytes.
#[derive(Drop)]
pub struct Listed {
    pub file: Text,
    pub size: u64,
}

/// What a folder lists, a file each.
pub type Listing = ListOf<Listed>;

/// Why a folder wasn't listed.
#[derive(Clone, Copy, Debug, PartialEq, Eq)]
pub enum ListEnd {
    Failed,
    Memory,
}

/// Folders of files that only grow. Their count of faults never falls, and a call answers that it
/// failed only where the count rose; no call changes a file.
pub trait Landing {
    /// That the folders tell what they hold.
    ghost tells: { Type 0 };

    /// The files that are there, where it tells.
    ghost present: { Self → List LandingFile };

    /// The files that were ever there, each with all bytes that it has held.
    ghost ever: { Self → List LandingFile };

    /// How often it has failed, up to the last value of a `u64`.
    ghost faults: { Self → ℕ };

    /// How often it has failed.
    fn faults(&self) -> u64
        ensures { result ≡ faults self.now };

    /// The files of a folder with their sizes in bytes, ascending by the bytes of their names. Files
    /// whose names begin with `.` or `_` aren't listed, nor are folders; a folder that doesn't exist
    /// lists nothing.
    fn list(&mut self, alloc: Global, dir: &str) -> Result<Listing, ListEnd>
        ensures listing { tells → IfOk result (λ listing. listing ≡ listing_of dir.now (present self.old)) }
        ensures there { tells → IfOk result (λ listing. AreThere dir.now (present self.old) listing) }
        ensures ascending { IfOk result (λ listing. AreAscending (listed_names listing)) }
        ensures present { tells → present self.new ≡ present self.old }
        ensures ever { tells → ever self.new ≡ ever self.old }
        ensures cause { HasCauseOf ListEnd.Failed (faults self.old) (faults self.new) result };

    /// Fills `into` with the bytes of a file at a place. It takes no memory. Where the landing doesn't
    /// tell, a file that is too short for that fails.
    fn read_at(&mut self, dir: &str, file: &str, at: u64, into: &mut [u8]) -> Result<(), Failed>
        requires { tells → at + length into.old ≤ length (bytes_of dir.now file.now (present self.old)) }
        ensures bytes { tells → OnOk result (into.new ≡ slice_range (bytes_of dir.now file.now (present self.old)) at (at + length into.old)) }
        ensures present { tells → present self.new ≡ present self.old }
        ensures ever { tells → ever self.new ≡ ever self.old }
        ensures cause { HasCause (faults self.old) (faults self.new) result };
}
