// Whether a payload follows.
ghost use Rattle.std.specs.Prelude.{◌≡◌, ◌↔◌, IsTrue, IsNone, IfSome};

use crate::contents::Contents;
use crate::fits_define::{all_append, are_distinct, begins_with};
use commit_records::{Definition, Payload, is_writable};
use value_core::Name;

/// The version at which a dataset takes no further one.
const VERSION_LIMIT: u64 = 1 << 62;

impl Contents {
    ghost use Rattle.store_state.specs.Follows.{Fits, FitsDefine, IsAtLimit, IsNext, WithinVersions, IsFullTable, HasVersions};

    /// Whether a payload may be the next one: it may be written, which in memory is to have a spelling,
    /// and follows what is there.
    ///
    /// Definitions follow where all are of append tables with distinct names, and the ones that are there come first,
    /// unchanged and in order, unless all datasets begin anew. A batch follows where its append table is there, its flow is
    /// one of the table's, its cursor has the form of the flow's origin and doesn't fall (a version isn't above
    /// the source's), it removes no row and has no event, its rows are of the table's columns, and there is one count an
    /// expectation, which with the kept one stays at or below 2^63 - 1. The table stands below version 2^62.
    /// No other payload follows.
    pub fn follows(&self, payload: &Payload) -> bool
        ensures { IsTrue result ↔ (IsNext self.now payload.now × WithinVersions self.now payload.now) }
    {
        self.is_next(payload) && self.full_version(payload).is_none()
    }

    /// The same, the limit of versions left aside.
    fn is_next(&self, payload: &Payload) -> bool
        ensures { IsTrue result ↔ IsNext self.now payload.now }
    {
        is_writable(payload) && self.fits(payload)
    }

    /// The dataset to which the payload adds a version, where it stands at the last one, 2^62.
    pub fn full_version(&self, payload: &Payload) -> Option<&Name>
        ensures none { IsNone result ↔ WithinVersions self.now payload.now }
        ensures name { IfSome result (λ name. IsAtLimit self.now payload.now name.now) }
    {
        match payload {
            Payload::Define { .. } => None,
            Payload::Take(batch) => self.full_table(&batch.table),
            Payload::Refresh(_) => None,
            Payload::Reset { .. } => None,
            Payload::Base(_) => None,
        }
    }

    /// The same of a name's dataset.
    fn full_table(&self, name: &Name) -> Option<&Name>
        ensures none { IsNone result ↔ HasVersions self.now name.now }
        ensures name { IfSome result (λ full. IsFullTable self.now name.now full.now) }
    {
        match self.find(name) {
            Some((definition, part)) => {
                if part.table.now() < VERSION_LIMIT {
                    None
                } else {
                    Some(&definition.name)
                }
            }
            None => None,
        }
    }

    fn fits(&self, payload: &Payload) -> bool
        ensures { IsTrue result ↔ Fits self.now payload.now }
    {
        match payload {
            Payload::Define { fresh, list } => self.fits_define(*fresh, list.as_slice()),
            Payload::Take(batch) => self.fits_take(batch),
            Payload::Refresh(_) => false,
            Payload::Reset { .. } => false,
            Payload::Base(_) => false,
        }
    }

    fn fits_define(&self, fresh: bool, list: &[Definition]) -> bool
        ensures { IsTrue result ↔ FitsDefine self.now fresh list.now }
    {
        if !all_append(list) {
            return false;
        }
        if !are_distinct(list) {
            return false;
        }
        fresh || begins_with(list, self.definitions().as_slice())
    }
}
