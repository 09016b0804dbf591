//! Laws of what a change feed gives.

ghost use Rattle.std.specs.Prelude.{◌≡◌, IsTrue, List, ℕ, Ok};
ghost use Rattle.sql_tree.specs.declared.statement.CdcTree.{CdcTree};
ghost use Rattle.value_core.specs.declared.schema.Column.{Column};
ghost use Rattle.plan_core.specs.declared.flow.Origin.{Origin};
ghost use Rattle.plan_core.specs.Sound.{IsSoundFeed, is_condition_over, kinds_of, target_kinds};
ghost use Rattle.feed_checks.specs.declared.parts.FeedParts.{FeedParts};
ghost use Rattle.feed_checks.specs.Feeds.{feed_flow, feed_parts, sequence_kinds};

/// A law: where its conditions are typed over the columns of its source, what a change feed gives is
/// sound over them, whatever the flow's name and origin are.
pub fn feeds_are_sound()
    ensures { (feed : CdcTree) (source : List Column) (parts : FeedParts) → feed_parts feed source ≡ Ok parts → IsTrue (is_condition_over (kinds_of source) parts.delete_when) → IsTrue (is_condition_over (kinds_of source) parts.truncate_when) → (name : List ℕ) (origin : Origin) → IsSoundFeed (kinds_of source) (sequence_kinds source parts) (kinds_of parts.given) (feed_flow name origin parts) }
{}

/// A law: the columns of the target have the kinds of the outputs, and for SCD type 2 twice those of
/// the sequence.
pub fn targets_have_kinds()
    ensures { (feed : CdcTree) (source : List Column) (parts : FeedParts) → feed_parts feed source ≡ Ok parts → kinds_of parts.columns ≡ target_kinds parts.scd2 (sequence_kinds source parts) (kinds_of parts.given) }
{}
