// Rows with how often each is held, and changes of them.
ghost use Rattle.std.specs.Prelude.{◌≡◌, ◌↔◌, false, true, [], ◌∷◌, IfOk, IsTrue, OnOk};
ghost use Rattle.value_core.specs.Changes.{IsChange};
ghost use Rattle.net_changes.specs.Chains.{Follow};
ghost use Rattle.payload_parts.specs.Bag.{Advances, CountsRows, Lacks, FindsTooFew, RowsCame, times_of};

use std::alloc::{AllocError, Global};
use std::collections::BTreeMap;
use value_core::{Change, Row};

/// Rows, each with how often it is held.
#[derive(Debug, Drop)]
struct RowBag {
    times: BTreeMap<Row, u64>,
}

impl RowBag {
    /// The bag without rows. Takes no memory.
    fn new(alloc: Global) -> RowBag
        ensures { CountsRows result.times.entries [] }
    {
        RowBag {
            times: BTreeMap::new(alloc),
        }
    }

    /// Puts a row in. Fails for want of memory alone, of which a number of 2^64 is one.
    fn put(&mut self, alloc: Global, row: &Row) -> Result<(), AllocError>
        ensures { OnOk result (RowsCame self.old.times.entries self.new.times.entries (row.now ∷ [])) }
    {
        let held = self.times.get(row).copied().unwrap_or(0);
        let Some(times) = held.checked_add(1) else {
            return Err(AllocError);
        };
        let key = row.copy(alloc)?;
        self.times.insert(key, times)?;
        Ok(())
    }

    /// Takes a row out. `false` where it isn't held.
    fn take(&mut self, alloc: Global, row: &Row) -> Result<bool, AllocError>
        ensures went { IfOk result (λ held. IsTrue held → RowsCame self.new.times.entries self.old.times.entries (row.now ∷ [])) }
        ensures lacks { IfOk result (λ held. held ≡ false → times_of self.old.times.entries row.now ≡ 0) }
    {
        let held = self.times.get(row).copied().unwrap_or(0);
        if held == 0 {
            return Ok(false);
        }
        let key = row.copy(alloc)?;
        self.times.insert(key, held - 1)?;
        Ok(true)
    }

    /// Puts rows in.
    fn put_all(&mut self, alloc: Global, rows: &[Row]) -> Result<(), AllocError>
        ensures { OnOk result (RowsCame self.old.times.entries self.new.times.entries rows.now) }
    {
        for row in rows {
            self.put(alloc, row)?;
        }
        Ok(())
    }

    /// Takes rows out. `false` where one isn't held as often.
    fn take_all(&mut self, alloc: Global, rows: &[Row]) -> Result<bool, AllocError>
        ensures went { IfOk result (λ held. IsTrue held → RowsCame self.new.times.entries self.old.times.entries rows.now) }
        ensures lacks { IfOk result (λ held. held ≡ false → Lacks self.old.times.entries rows.now) }
    {
        for row in rows {
            if !self.take(alloc, row)? {
                return Ok(false);
            }
        }
        Ok(true)
    }

    /// Makes a net change. `false` where it doesn't find the rows that it removes.
    fn change(&mut self, alloc: Global, change: &Change) -> Result<bool, AllocError>
        requires { IsChange change.now }
        ensures leads { IfOk result (λ found. IsTrue found → Advances self.old.times.entries self.new.times.entries change.now) }
        ensures refuses { IfOk result (λ found. found ≡ false → FindsTooFew self.old.times.entries change.now) }
    {
        if !self.take_all(alloc, change.removed.as_slice())? {
            return Ok(false);
        }
        self.put_all(alloc, change.added.as_slice())?;
        Ok(true)
    }
}

/// Whether each change is net and finds the rows that it removes, in the rows after those before it. `Err` for want of
/// memory alone, of which it takes a copy of each row that is there or comes.
pub(crate) fn changes_follow(
    alloc: Global,
    rows: &[Row],
    changes: &[Change],
) -> Result<bool, AllocError>
    ensures { IfOk result (λ follow. IsTrue follow ↔ Follow rows.now changes.now) }
{
    let mut bag = RowBag::new(alloc);
    bag.put_all(alloc, rows)?;
    for change in changes {
        if !change.is_net() {
            return Ok(false);
        }
        if !bag.change(alloc, change)? {
            return Ok(false);
        }
    }
    Ok(true)
}
