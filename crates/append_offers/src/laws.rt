ghost use Rattle.std.specs.Prelude.{◌≡◌, length, ℕ};
ghost use Rattle.value_core.specs.declared.cursor.Cursor.TheVariants.{At, Never};
ghost use Rattle.value_core.specs.Bags.{in_row_order};
ghost use Rattle.net_changes.specs.Chains.{all_added};
ghost use Rattle.table_versions.specs.Versions.{Versions, changes_since, content_now};
ghost use Rattle.state_steps.specs.Consumed.{RemoveNone};
ghost use Rattle.flow_news.specs.Looks.{table_looks};

/// A law: a flow may take one look for each row that it takes from its source, where the source, as of
/// every flow of a store that stands, lost no row since the version at which the flow stands.
pub fn a_flow_looks_once_at_a_row()
    ensures first { (table : Versions) → table_looks table Never ≡ length (in_row_order (content_now table)) }
    ensures since { (table : Versions) (version : ℕ) → RemoveNone (changes_since table version) → table_looks table (At version) ≡ length (all_added (changes_since table version)) }
{}
