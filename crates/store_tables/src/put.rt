// What a payload makes of the contents.
ghost use Rattle.std.specs.Prelude.{◌≡◌, true, false, IfOk, IsSomeAnd, OnErr, OnOk, length, map, take};
ghost use Rattle.commit_payloads.specs.Forms.{IsBase, IsBatch, IsRenewal};
ghost use Rattle.commit_payloads.specs.Payloads.{IsWritable};
ghost use Rattle.state_model.specs.After.{begun};
ghost use Rattle.state_model.specs.Saved as saved;
ghost use Rattle.store_tables.specs.Members.{AreFrom, AreSavedTables};
ghost use Rattle.store_tables.specs.Parts.{side_by_side};

use crate::contents::Contents;
use crate::find::place_of;
use crate::members::{empty_members, fill_again, no_rests};
use crate::part::Part;
use crate::undo::Undo;
use commit_payloads::{DatasetStates, Definition, Definitions, Payload, Refresh, State, Take};
use std::alloc::{AllocError, Global};
use std::mem;
use value_core::Names;

/// What is kept of datasets that begin.
fn first_parts(alloc: Global, list: &[Definition]) -> Result<Vec<Part>, AllocError>
    ensures begun { IfOk result (λ parts. side_by_side list.now parts.items ≡ map begun list.now) }
    ensures each { IfOk result (λ parts. length parts.items ≡ length list.now) }
{
    let mut parts = Vec::new(alloc);
    for definition in list {
        parts.push(Part::new(alloc, definition)?)?;
    }
    Ok(parts)
}

/// What was saved of datasets.
fn saved_parts(alloc: Global, states: DatasetStates) -> Result<Vec<Part>, AllocError>
    requires { AreSavedTables states }
    ensures { IfOk result (λ parts. AreFrom states parts.items) }
{
    let mut parts = Vec::new(alloc);
    for state in states.into_vec() {
        parts.push(Part::from_saved(state))?;
    }
    Ok(parts)
}

impl Contents {
    ghost use Rattle.state_model.specs.After.{after_payload, defined, refreshed, reset, taken, updated};
    ghost use Rattle.state_model.specs.Dataset.{dataset_of, definitions_of};
    ghost use Rattle.state_model.specs.Follows.{AllHaveVersions, Fits, FitsBase, FitsRefresh, FitsTake, HasVersions, WithinVersions, are_distinct};
    ghost use Rattle.store_tables.specs.Parts.{AreBeside};
    ghost use Rattle.store_tables.specs.Undo.{undone};

    /// Takes a payload that follows, and gives what takes it back. `Err` for want of memory alone; then nothing has changed.
    pub fn put(&mut self, payload: Payload) -> Result<Undo, AllocError>
        requires form { IsWritable payload }
        requires fits { Fits self.old payload }
        requires versions { WithinVersions self.old payload }
        ensures ok { IfOk result (λ undo. (self.new ≡ after_payload self.old payload) × (undone self.new undo ≡ self.old)) }
        ensures err { OnErr result (self.new ≡ self.old) }
    {
        match payload {
            Payload::Define { fresh, list } => {
                if fresh {
                    self.begin(list)
                } else {
                    self.add(list)
                }
            }
            Payload::Take(batch) => self.take(batch),
            Payload::Refresh(refresh) => self.refresh(refresh),
            Payload::Reset { names } => self.reset(names),
            Payload::Base(state) => self.begin_saved(state),
        }
    }

    /// Lets these datasets stand in the place of all others.
    fn set(&mut self, list: Definitions, parts: Vec<Part>) -> Undo
        requires { AreBeside list parts.items }
        ensures now { self.new ≡ side_by_side list parts.items }
        ensures back { undone self.new result ≡ self.old }
    {
        let anew = Contents {
            alloc: self.alloc,
            definitions: list,
            parts,
        };
        Undo::Began(mem::replace(self, anew))
    }

    /// Lets all datasets begin anew.
    fn begin(&mut self, list: Definitions) -> Result<Undo, AllocError>
        requires { are_distinct list ≡ true }
        ensures ok { OnOk result (self.new ≡ map begun list) }
        ensures back { IfOk result (λ undo. undone self.new undo ≡ self.old) }
        ensures err { OnErr result (self.new ≡ self.old) }
    {
        let parts = first_parts(self.alloc, list.as_slice())?;
        let undo = self.set(list, parts);
        Ok(undo)
    }

    /// Lets the datasets be as they were saved.
    fn begin_saved(&mut self, state: State) -> Result<Undo, AllocError>
        requires form { IsBase state }
        requires fits { FitsBase self.old (saved.read_back state) }
        ensures ok { OnOk result (self.new ≡ saved.read_back state) }
        ensures back { IfOk result (λ undo. undone self.new undo ≡ self.old) }
        ensures err { OnErr result (self.new ≡ self.old) }
    {
        let State { list, states } = state;
        let parts = saved_parts(self.alloc, states)?;
        let undo = self.set(list, parts);
        Ok(undo)
    }

    /// Lets the datasets begin that are defined behind the ones that are there.
    fn add(&mut self, list: Definitions) -> Result<Undo, AllocError>
        requires distinct { are_distinct list ≡ true }
        requires kept { take (length self.old) list ≡ definitions_of self.old }
        ensures ok { OnOk result (self.new ≡ defined false list self.old) }
        ensures back { IfOk result (λ undo. undone self.new undo ≡ self.old) }
        ensures err { OnErr result (self.new ≡ self.old) }
    {
        let before = self.parts.len();
        let (_, behind) = list.as_slice().split_at(before);
        let mut more = first_parts(self.alloc, behind)?;
        self.parts.append(&mut more)?;
        self.definitions = list;
        Ok(Undo::Added { before })
    }

    /// Takes a batch into its table.
    fn take(&mut self, batch: Take) -> Result<Undo, AllocError>
        requires form { IsBatch batch }
        requires fits { IsSomeAnd (dataset_of self.old batch.table) (FitsTake self.old batch) }
        requires versions { HasVersions self.old batch.table }
        ensures ok { OnOk result (self.new ≡ updated batch.table (taken batch) self.old) }
        ensures back { IfOk result (λ undo. undone self.new undo ≡ self.old) }
        ensures err { OnErr result (self.new ≡ self.old) }
    {
        let alloc = self.alloc;
        let Some(place) = place_of(self.definitions.as_slice(), &batch.table) else {
            unreachable!()
        };
        let definition = &self.definitions.as_slice()[place];
        let undo = self.parts[place].take(alloc, definition, batch)?;
        Ok(undo)
    }

    /// Takes a refresh into its view.
    fn refresh(&mut self, refresh: Refresh) -> Result<Undo, AllocError>
        requires form { IsRenewal refresh }
        requires fits { IsSomeAnd (dataset_of self.old refresh.view) (FitsRefresh self.old refresh) }
        requires versions { HasVersions self.old refresh.view }
        ensures ok { OnOk result (self.new ≡ updated refresh.view (refreshed refresh) self.old) }
        ensures back { IfOk result (λ undo. undone self.new undo ≡ self.old) }
        ensures err { OnErr result (self.new ≡ self.old) }
    {
        let alloc = self.alloc;
        let Some(place) = place_of(self.definitions.as_slice(), &refresh.view) else {
            unreachable!()
        };
        let undo = self.parts[place].refresh(alloc, refresh)?;
        Ok(undo)
    }

    /// Empties the datasets of these names.
    fn reset(&mut self, names: Names) -> Result<Undo, AllocError>
        requires { AllHaveVersions self.old names }
        ensures ok { OnOk result (self.new ≡ reset names self.old) }
        ensures back { IfOk result (λ undo. undone self.new undo ≡ self.old) }
        ensures err { OnErr result (self.new ≡ self.old) }
    {
        let alloc = self.alloc;
        let mut rests = no_rests(alloc, self.parts.as_slice())?;
        let list = self.definitions.as_slice();
        match empty_members(alloc, list, &mut self.parts, names.as_slice(), &mut rests) {
            Ok(()) => Ok(Undo::Emptied { rests }),
            Err(error) => {
                fill_again(&mut self.parts, rests);
                Err(error)
            }
        }
    }
}
