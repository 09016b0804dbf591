// What stands under a name.
ghost use Rattle.std.specs.Prelude.{◌≡◌, ◌<◌, None, Some, IfSome, MatchOption, find, length};
ghost use Rattle.std.specs.Option.{option_copied};
ghost use Rattle.state_model.specs.Dataset.{cursor_in, is_defined, is_flow};
ghost use Rattle.store_tables.specs.Places.{IsFirst};

use commit_payloads::{Definition, StoredFlow};
use value_core::{Cursor, Name};

/// The place of the first definition of a name.
pub(crate) fn place_of(list: &[Definition], name: &Name) -> Option<usize>
    ensures first { MatchOption result (find (is_defined name.now) list.now ≡ None) (IsFirst (is_defined name.now) list.now) }
    ensures within { IfSome result (λ place. place < length list.now) }
{
    for (i, definition) in list.iter().enumerate() {
        if definition.name.is_same(name) {
            return Some(i);
        }
    }
    None
}

/// The place of the first flow of a name.
pub(crate) fn flow_place(flows: &[StoredFlow], name: &Name) -> Option<usize>
    ensures first { MatchOption result (find (is_flow name.now) flows.now ≡ None) (IsFirst (is_flow name.now) flows.now) }
    ensures within { IfSome result (λ place. place < length flows.now) }
{
    for (i, flow) in flows.iter().enumerate() {
        if flow.name.is_same(name) {
            return Some(i);
        }
    }
    None
}

/// How far the flow of a name has read. There is one cursor a flow, in their order.
pub(crate) fn cursor_named<'a>(
    flows: &[StoredFlow],
    cursors: &'a [Cursor],
    name: &Name,
) -> Option<&'a Cursor>
    ensures { option_copied result ≡ cursor_in flows.now cursors.now name.now }
{
    let mut rest = cursors;
    for flow in flows {
        let (cursor, more) = rest.split_first()?;
        if flow.name.is_same(name) {
            return Some(cursor);
        }
        rest = more;
    }
    None
}
