// The histories of all keys, each folded by one of several workers.
ghost use Rattle.std.specs.Prelude.{◌≡◌, ◌≤◌, [], Bool, List, ℕ, IfOk, OnOk};
ghost use Rattle.value_core.specs.Bags.{in_row_order};
ghost use Rattle.cdc_histories.specs.Building.{AreBuilt, AreParts, AreUp, HaveCome, IsFolded, IsPart};
ghost use Rattle.cdc_histories.specs.declared.cutting.KeyEvents.{KeyEvents as Part};

use crate::cutting::KeyEvents;
use crate::folding::{KeyHistory, fold_part};
use event_history::History;
use par_rows::{Gate, map_rows};
use plan_core::Cdc;
use std::alloc::{AllocError, Global};
use std::collections::BTreeMap;
use std::thread::Threads;
use value_core::Row;

/// The history of each part, or want of memory, in the order of the parts.
pub(crate) fn fold_parts<H: Threads + Sync, G: Gate + Sync>(
    rt: &H,
    alloc: Global,
    gate: &G,
    workers: u32,
    flow: &Cdc,
    parts: &[KeyEvents],
) -> Result<Vec<Result<KeyHistory, AllocError>>, AllocError>
    requires workers { (1 ≤ workers) × (workers ≤ 64) }
    requires parts { AreParts parts.now }
    ensures { IfOk result (λ answers. HaveCome flow.now.ignore_null flow.now.tracked parts.now answers.items) }
{
    let fold = move |_number: u64, part: &KeyEvents| -> Result<KeyHistory, AllocError>
        requires { IsPart part.now }
        ensures { IfOk result (IsFolded flow.entry.now.ignore_null flow.entry.now.tracked part.entry.now) }
    { fold_part(alloc, flow, part) };
    let answers = map_rows(rt, alloc, gate, workers, parts, &fold)?;
    Ok(answers)
}

/// Puts the history of each part into a map without entries, and its rows behind `rows`, if no part wanted memory.
pub(crate) fn put_together(
    answers: Vec<Result<KeyHistory, AllocError>>,
    histories: &mut BTreeMap<Row, History>,
    rows: &mut Vec<Row>,
) -> Result<(), AllocError>
    requires none { (histories.old.entries ≡ []) × (rows.old.items ≡ []) }
    ensures { (ignore_null : Bool) (tracked : List ℕ) (parts : List Part) → AreParts parts → AreUp parts → HaveCome ignore_null tracked parts answers.items → OnOk result (AreBuilt ignore_null tracked parts histories.new.entries rows.new.items) }
{
    for answer in answers {
        let KeyHistory {
            key,
            history,
            rows: mine,
        } = answer?;
        histories.insert(key, history)?;
        rows.append(&mut mine.into_vec())?;
    }
    Ok(())
}

/// Puts rows in row order.
pub(crate) fn sort(rows: &mut Vec<Row>)
    ensures { rows.new.items ≡ in_row_order rows.old.items }
{
    rows.sort_unstable();
}
