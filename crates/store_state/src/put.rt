// What a payload makes of the contents.
ghost use Rattle.std.specs.Prelude.{◌≡◌, false, IfOk, IsSomeAnd, OnErr, OnOk, length, map, take};
ghost use Rattle.store_state.specs.Dataset.{begun};
ghost use Rattle.store_state.specs.Parts.{side_by_side};

use crate::contents::Contents;
use crate::find::place_of;
use crate::part::Part;
use crate::undo::Undo;
use commit_records::{Definition, Definitions, Payload, Take};
use std::alloc::{AllocError, Global};
use std::mem;

/// What is kept of datasets that begin.
fn first_parts(alloc: Global, list: &[Definition]) -> Result<Vec<Part>, AllocError>
    ensures begun { IfOk result (λ parts. side_by_side list.now parts.items ≡ map begun list.now) }
    ensures each { IfOk result (λ parts. length parts.items ≡ length list.now) }
{
    let mut parts = Vec::new(alloc);
    for definition in list {
        parts.push(Part::new(alloc, definition)?)?;
    }
    Ok(parts)
}

impl Contents {
    ghost use Rattle.store_state.specs.Dataset.{after_payload, dataset_of, defined, definitions_of, taken, updated};
    ghost use Rattle.store_state.specs.Follows.{Fits, FitsTake};
    ghost use Rattle.store_state.specs.Undo.{undone};

    /// Takes a payload that follows, and gives what takes it back. `Err` for want of memory alone; then
    /// nothing has changed.
    pub fn put(&mut self, payload: Payload) -> Result<Undo, AllocError>
        requires fits { Fits self.old payload }
        ensures ok { IfOk result (λ undo. (self.new ≡ after_payload self.old payload) × (undone self.new undo ≡ self.old)) }
        ensures err { OnErr result (self.new ≡ self.old) }
    {
        match payload {
            Payload::Define { fresh, list } => {
                if fresh {
                    self.begin(list)
                } else {
                    self.add(list)
                }
            }
            Payload::Take(batch) => self.take(batch),
            Payload::Refresh(_) => unreachable!(),
            Payload::Reset { .. } => unreachable!(),
            Payload::Base(_) => unreachable!(),
        }
    }

    /// Lets all datasets begin anew.
    fn begin(&mut self, list: Definitions) -> Result<Undo, AllocError>
        ensures ok { OnOk result (self.new ≡ map begun list) }
        ensures back { IfOk result (λ undo. undone self.new undo ≡ self.old) }
        ensures err { OnErr result (self.new ≡ self.old) }
    {
        let alloc = self.alloc;
        let parts = first_parts(alloc, list.as_slice())?;
        let anew = Contents {
            alloc,
            definitions: list,
            parts,
        };
        Ok(Undo::Began(mem::replace(self, anew)))
    }

    /// Lets the datasets begin that are defined behind the ones that are there.
    fn add(&mut self, list: Definitions) -> Result<Undo, AllocError>
        requires { take (length self.old) list ≡ definitions_of self.old }
        ensures ok { OnOk result (self.new ≡ defined false list self.old) }
        ensures back { IfOk result (λ undo. undone self.new undo ≡ self.old) }
        ensures err { OnErr result (self.new ≡ self.old) }
    {
        let before = self.parts.len();
        let (_, behind) = list.as_slice().split_at(before);
        let mut more = first_parts(self.alloc, behind)?;
        self.parts.append(&mut more)?;
        self.definitions = list;
        Ok(Undo::Added { before })
    }

    /// Takes a batch into its table.
    fn take(&mut self, batch: Take) -> Result<Undo, AllocError>
        requires { IsSomeAnd (dataset_of self.old batch.table) (FitsTake self.old batch) }
        ensures ok { OnOk result (self.new ≡ updated batch.table (taken batch) self.old) }
        ensures back { IfOk result (λ undo. undone self.new undo ≡ self.old) }
        ensures err { OnErr result (self.new ≡ self.old) }
    {
        let alloc = self.alloc;
        let Some(place) = place_of(self.definitions.as_slice(), &batch.table) else {
            unreachable!()
        };
        let definition = &self.definitions.as_slice()[place];
        let undo = self.parts[place].take(alloc, definition, batch)?;
        Ok(undo)
    }
}
