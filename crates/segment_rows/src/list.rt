// Lists: how many items, and the items.
ghost use Rattle.std.specs.Prelude.{◌≤◌, ◌≡◌, ◌++◌, length, IfOk, OnOk};
ghost use Rattle.std.specs.List.{flat_map, AllByRecursion};
ghost use Rattle.segment_rows.specs.FieldLaws.{list_exact};
ghost use Rattle.segment_rows.specs.Ranges.{IsList};
ghost use Rattle.segment_rows.specs.Reading.{Reads, items_at, list_at};
ghost use Rattle.segment_rows.specs.Spelling.{spelled_list};

use crate::field::Field;
use crate::number::take_number;
use std::alloc::{AllocError, Global};
use value_core::ListOf;

/// Appends the spellings of the items.
fn put_items<T: Field>(items: &[T], out: &mut Vec<u8>) -> Result<(), AllocError>
    ensures bytes { OnOk result (out.new.items ≡ out.old.items ++ flat_map T.spelled items.now) }
    ensures range { OnOk result (AllByRecursion T.in_range items.now) }
{
    for item in items {
        item.put(out)?;
    }
    Ok(())
}

/// Reads so many items, one after the other.
fn take_items<T: Field>(
    alloc: Global,
    count: u64,
    bytes: &[u8],
    at: usize,
) -> Result<Option<(ListOf<T>, usize)>, AllocError>
    requires { at ≤ length bytes.now }
    ensures { IfOk result (λ found. Reads (items_at T.reading count) bytes.now at found) }
{
    let mut items = ListOf::new(alloc);
    let mut place = at;
    for _ in 0..count {
        let Some((item, end)) = T::take(alloc, bytes, place)? else {
            return Ok(None);
        };
        items.push(item)?;
        place = end;
    }
    Ok(Some((items, place)))
}

impl<T: Field> Field for ListOf<T> {
    ghost spelled = { spelled_list T.spelled };

    ghost in_range = { IsList T.in_range };

    ghost reading = { list_at T.reading };

    ghost exact = { list_exact T.exact };

    fn put(&self, out: &mut Vec<u8>) -> Result<(), AllocError> {
        let items = self.as_slice();
        (items.len() as u64).put(out)?;
        put_items(items, out)
    }

    #[tactic(auto, unfolding(crate::specs::Reading::list_at))]
    fn take(
        alloc: Global,
        bytes: &[u8],
        at: usize,
    ) -> Result<Option<(ListOf<T>, usize)>, AllocError> {
        let Some((count, at)) = take_number(bytes, at) else {
            return Ok(None);
        };
        take_items(alloc, count, bytes, at)
    }
}
