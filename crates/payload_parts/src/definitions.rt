// Which definitions may follow.
ghost use Rattle.std.specs.Prelude.{◌≡◌, ◌↔◌, IsTrue, find, is_some, length, take};
ghost use Rattle.std.specs.List.{list_any};
ghost use Rattle.value_core.specs.NameFold.{same_name};
ghost use Rattle.state_model.specs.Dataset as dataset;
ghost use Rattle.state_model.specs.Follows as rules;

use crate::equal::are_equal;
use commit_payloads::{Definition, StoredBody};
use value_core::Name;

/// Whether a definition is one of an append table.
pub fn is_append(definition: &Definition) -> bool
    ensures { result ≡ rules.is_append definition.now }
{
    match definition.body {
        StoredBody::Append => true,
        StoredBody::Scd1 => false,
        StoredBody::Scd2 => false,
        StoredBody::View => false,
    }
}

/// Whether a definition is one of a view.
pub fn is_view(definition: &Definition) -> bool
    ensures { result ≡ rules.is_view definition.now.body }
{
    match definition.body {
        StoredBody::Append => false,
        StoredBody::Scd1 => false,
        StoredBody::Scd2 => false,
        StoredBody::View => true,
    }
}

/// Whether a dataset keeps events.
pub(crate) fn keeps_events(definition: &Definition) -> bool
    ensures { result ≡ rules.keeps_events definition.now.body }
{
    match definition.body {
        StoredBody::Append => false,
        StoredBody::Scd1 => true,
        StoredBody::Scd2 => true,
        StoredBody::View => false,
    }
}

/// Whether one of these definitions has a name.
pub(crate) fn is_defined(list: &[Definition], name: &Name) -> bool
    ensures { result ≡ is_some (find (dataset.is_defined name.now) list.now) }
{
    for definition in list {
        if definition.name.is_same(name) {
            return true;
        }
    }
    false
}

/// Whether no name is that of a later definition.
pub fn are_distinct(list: &[Definition]) -> bool
    ensures { result ≡ rules.are_distinct list.now }
{
    let mut rest = list;
    while let Some((definition, more)) = rest.split_first() {
        if is_defined(more, &definition.name) {
            return false;
        }
        rest = more;
    }
    true
}

/// Whether a list begins with these definitions, unchanged and in order.
pub fn begins_with(list: &[Definition], first: &[Definition]) -> bool
    ensures { IsTrue result ↔ (take (length first.now) list.now ≡ first.now) }
{
    if list.len() < first.len() {
        return false;
    }
    are_equal(&list[..first.len()], first)
}

/// Whether no name is that of a later one.
pub fn names_differ(names: &[Name]) -> bool
    ensures { result ≡ rules.names_differ names.now }
{
    let mut rest = names;
    while let Some((name, more)) = rest.split_first() {
        if is_among(more, name) {
            return false;
        }
        rest = more;
    }
    true
}

/// Whether a name is one of these.
fn is_among(names: &[Name], name: &Name) -> bool
    ensures { result ≡ list_any (same_name name.now) names.now }
{
    for other in names {
        if name.is_same(other) {
            return true;
        }
    }
    false
}
