// Datasets that are there, and the rows that they have.
ghost use Rattle.std.specs.Prelude.{◌≡◌, ◌↔◌, IfOk, IsTrue, is_some};
ghost use Rattle.value_core.specs.Changes.{Holds};
ghost use Rattle.table_versions.specs.Versions.{content_now};
ghost use Rattle.state_model.specs.Dataset.{dataset_of};

use payload_parts::holds;
use std::alloc::{AllocError, Global};
use std::sync::ledger::Ledger;
use store_tables::Contents;
use table_versions::{Table, VersionEnd, a_version_has_one_content};
use value_core::{Name, Rows, Steps};

/// Whether there is a dataset of a name.
pub(crate) fn is_defined(contents: &Contents, name: &Name) -> bool
    ensures { result ≡ is_some (dataset_of contents.now name.now) }
{
    contents.definition(name).is_some()
}

/// Whether a table has these rows, each as often as it is there. It counts one look for each row of the table, and none
/// where there are no rows to be there.
pub(crate) fn are_there<L: Ledger>(
    alloc: Global,
    table: &Table,
    rows: &Rows,
    steps: &mut Steps<L>,
) -> Result<bool, AllocError>
    ensures { IfOk result (λ are. IsTrue are ↔ Holds (content_now table.now) rows.now) }
{
    a_version_has_one_content();
    if rows.is_empty() {
        return Ok(true);
    }
    match table.content(alloc, table.now(), steps) {
        Ok(content) => {
            let are = holds(alloc, content, rows)?;
            Ok(are)
        }
        Err(_) => Err(AllocError),
    }
}
