ghost use Rattle.std.specs.Prelude.{◌≡◌, ℕ, List};
ghost use Rattle.value_core.specs.declared.change.Change.{Change};
ghost use Rattle.value_core.specs.Bags.{IsInOrder, net_change};
ghost use Rattle.value_core.specs.Changes.{Holds, IsChange};
ghost use Rattle.value_core.specs.Order.{Row};
ghost use Rattle.table_versions.specs.Versions.{Versions, IsKept, IsTable, content_at, content_now, grown, now_of};
ghost use Rattle.table_versions.specs.Laws.{KeepsLater, Leads};

/// A law: from its new base on, a table whose changes were folded has the contents and the changes that it had.
pub fn a_fold_keeps_later_versions()
    ensures { (table : Versions) (to : ℕ) → IsKept table to → KeepsLater table to }
{}

/// A law: the net change of a table's rows to others is one that the table may be given.
pub fn a_net_change_finds_its_rows()
    ensures form { (old new : List Row) → IsChange (net_change old new) }
    ensures there { (old new : List Row) → Holds old (net_change old new).removed }
{}

/// A law: a change leads from the version now to the next, the versions before stay as they were, and taking it back
/// gives the table from before.
pub fn a_change_leads_on()
    ensures { (table : Versions) (change : Change) → Leads table change }
{}

/// A law: the rows at each version of a table stand in row order, and those at the last are those now.
pub fn a_version_has_one_content()
    ensures order { (table : Versions) (version : ℕ) → IsTable table → IsInOrder (content_at table version) }
    ensures last { (table : Versions) → content_at table (now_of table) ≡ content_now table }
    ensures first { (table : Versions) → content_at table table.base ≡ table.rows }
{}
