// Which definitions may follow.
ghost use Rattle.std.specs.Prelude.{◌≡◌, ◌↔◌, IsTrue, length, take};
ghost use Rattle.store_state.specs.Follows as follows;

use crate::equal::are_equal;
use crate::find::place_of;
use commit_records::{Definition, StoredBody};

/// Whether a definition is one of an append table.
pub(crate) fn is_append(definition: &Definition) -> bool
    ensures { result ≡ follows.is_append definition.now }
{
    match definition.body {
        StoredBody::Append => true,
        StoredBody::Scd1 => false,
        StoredBody::Scd2 => false,
        StoredBody::View => false,
    }
}

pub(crate) fn all_append(list: &[Definition]) -> bool
    ensures { result ≡ follows.all_append list.now }
{
    for definition in list {
        if !is_append(definition) {
            return false;
        }
    }
    true
}

/// Whether no name is that of a later definition.
pub(crate) fn are_distinct(list: &[Definition]) -> bool
    ensures { result ≡ follows.are_distinct list.now }
{
    let mut rest = list;
    while let Some((definition, more)) = rest.split_first() {
        if let Some(_place) = place_of(more, &definition.name) {
            return false;
        }
        rest = more;
    }
    true
}

/// Whether a list begins with these definitions, unchanged and in order.
pub(crate) fn begins_with(list: &[Definition], first: &[Definition]) -> bool
    ensures { IsTrue result ↔ (take (length first.now) list.now ≡ first.now) }
{
    if list.len() < first.len() {
        return false;
    }
    are_equal(&list[..first.len()], first)
}
