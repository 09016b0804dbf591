// An append table, and the payloads that it is stored by.
ghost use Rattle.std.specs.Prelude.{◌≡◌, IfOk};
ghost use Rattle.value_core.specs.Order.{Row};
ghost use Rattle.table_update.specs.Table as spec;

use commit_records::{Definition, Payload, StoredBody, StoredFlow, StoredOrigin, Take};
use std::alloc::{AllocError, Global};
use value_core::{Change, Column, Cursor, FilePlaces, ListOf, Name, Rows, Schema, Shape, Text};

/// A column of a table, and the place among the columns of a line, from 0, of the one that it takes.
#[derive(Debug, Drop)]
pub struct Output {
    pub place: usize,
    pub column: Column,
}

/// Outputs in order.
pub type Outputs = ListOf<Output>;

/// An append table that takes the lines of one landing folder, with a flow of its own name.
///
/// Each line is a row of the columns of `shape`, of which the table keeps its outputs (Databricks SQL
/// reference, CREATE STREAMING TABLE and `read_files`).
#[derive(Debug, Drop)]
pub struct AppendTable {
    pub name: Name,
    /// Its statement in canonical print, by which a changed definition is noticed.
    pub text: Text,
    /// The landing folder, below the landing root.
    pub folder: Text,
    /// How lines are read, and the columns that they have.
    pub shape: Shape,
    /// The table's columns in order.
    pub outputs: Outputs,
}

impl AppendTable {
    /// The table's columns.
    fn columns(&self, alloc: Global) -> Result<Schema, AllocError>
        ensures { IfOk result (λ columns. columns ≡ spec.columns_of self.now.outputs) }
    {
        let mut columns = ListOf::new(alloc);
        for output in self.outputs.as_slice() {
            columns.push(output.column.copy(alloc)?)?;
        }
        Ok(columns)
    }

    /// What a store knows of the table beside its rows.
    fn definition(&self, alloc: Global) -> Result<Definition, AllocError>
        ensures { IfOk result (λ definition. definition ≡ spec.definition_of self.now) }
    {
        let mut flows = ListOf::new(alloc);
        flows.push(StoredFlow {
            name: self.name.copy(alloc)?,
            origin: StoredOrigin::Folder(self.folder.copy(alloc)?),
        })?;
        Ok(Definition {
            name: self.name.copy(alloc)?,
            text: self.text.copy(alloc)?,
            body: StoredBody::Append,
            columns: self.columns(alloc)?,
            expectations: ListOf::new(alloc),
            flows,
            keys: ListOf::new(alloc),
            sequence: ListOf::new(alloc),
        })
    }

    /// The payload that defines the table.
    pub(crate) fn define(&self, alloc: Global) -> Result<Payload, AllocError>
        ensures { IfOk result (λ payload. payload ≡ spec.define self.now) }
    {
        let mut list = ListOf::new(alloc);
        list.push(self.definition(alloc)?)?;
        Ok(Payload::Define { fresh: false, list })
    }

    /// The payload by which the table takes rows, which are in row order, and its flow has read up to
    /// these places.
    pub(crate) fn take(
        &self,
        alloc: Global,
        added: Rows,
        places: FilePlaces,
    ) -> Result<Payload, AllocError>
        ensures { IfOk result (λ payload. payload ≡ spec.take_with self.now added places) }
    {
        Ok(Payload::Take(Take {
            table: self.name.copy(alloc)?,
            flow: self.name.copy(alloc)?,
            cursor: Cursor::Files(places),
            change: Change {
                removed: ListOf::new(alloc),
                added,
            },
            counts: ListOf::new(alloc),
            events: ListOf::new(alloc),
        }))
    }
}
