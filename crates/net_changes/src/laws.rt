ghost use Rattle.std.specs.Prelude.{◌≡◌, ◌++◌, List};
ghost use Rattle.value_core.specs.declared.change.Change.{Change};
ghost use Rattle.value_core.specs.Bags.{net_change};
ghost use Rattle.value_core.specs.Order.{Row};
ghost use Rattle.net_changes.specs.Chains.{all_added, all_removed, content_after, Follow};

/// A law: the net change of a table over several changes is that of all rows that they remove and all that they add.
pub fn changes_have_one_net()
    ensures { (rows : List Row) (changes : List Change) → Follow rows changes → net_change rows (content_after rows changes) ≡ net_change (all_removed changes) (all_added changes) }
{}

/// A law: two net changes one after the other come to the net change of all that goes and all that comes.
pub fn nets_follow()
    ensures { (first second third : List Row) → net_change first third ≡ net_change ((net_change first second).removed ++ (net_change second third).removed) ((net_change first second).added ++ (net_change second third).added) }
{}

/// A law: rows that stay, before and behind, are no part of a net change.
pub fn nets_within()
    ensures { (before old new behind : List Row) → net_change (before ++ (old ++ behind)) (before ++ (new ++ behind)) ≡ net_change old new }
{}
