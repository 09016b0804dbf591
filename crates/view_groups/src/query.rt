// Whether a query groups.
ghost use Rattle.std.specs.Prelude.{◌≡◌, not};
ghost use Rattle.std.specs.List.{list_any};
ghost use Rattle.plan_core.specs.Sound as sound;

use plan_core::{Item, Query};

/// Whether a query has GROUP BY or an aggregate (Databricks SQL reference, GROUP BY clause). Takes no memory.
pub fn is_grouped(query: &Query) -> bool
    ensures { result ≡ sound.is_grouped query.now }
{
    if has_groups(query) {
        return true;
    }
    any_aggregate(query.items.as_slice())
}

/// Whether a query has GROUP BY.
fn has_groups(query: &Query) -> bool
    ensures { result ≡ not (sound.is_empty query.now.groups) }
{
    !query.groups.as_slice().is_empty()
}

/// Whether one of some items is an aggregate.
fn any_aggregate(items: &[Item]) -> bool
    ensures { result ≡ list_any sound.is_aggregate items.now }
{
    for item in items {
        if is_aggregate(item) {
            return true;
        }
    }
    false
}

/// Whether an item is an aggregate.
fn is_aggregate(item: &Item) -> bool
    ensures { result ≡ sound.is_aggregate item.now }
{
    !matches!(item, Item::Plain(_) | Item::Key(_))
}
