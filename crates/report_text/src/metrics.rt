// The counts of expectations as they are printed.
ghost use Rattle.std.specs.Prelude.{◌≡◌, ◌++◌, IfOk, OnOk};
ghost use Rattle.report_text.specs.Metrics.{action_word as the_action_word, metrics_head as the_head, print_expectation, print_tally, tally_line, tally_lines};

use crate::words::{put, put_counted, put_named, put_word};
use commit_payloads::{Definition, StoredAction, StoredExpectation};
use std::alloc::{AllocError, Global};
use value_core::{Name, Tally};

fn action_word(action: StoredAction) -> &'static str
    ensures { result.now ≡ the_action_word action }
{
    match action {
        StoredAction::Warn => "warn",
        StoredAction::DropRow => "drop",
        StoredAction::FailUpdate => "fail",
    }
}

fn put_action(out: &mut Vec<u8>, before: &str, action: StoredAction) -> Result<(), AllocError>
    ensures { OnOk result (out.new.items ≡ out.old.items ++ (before.now ++ the_action_word action)) }
{
    put(out, before)?;
    put(out, action_word(action))
}

fn put_expectation(
    out: &mut Vec<u8>,
    dataset: &Name,
    expectation: &StoredExpectation,
) -> Result<(), AllocError>
    ensures { OnOk result (out.new.items ≡ out.old.items ++ print_expectation dataset.now expectation.now) }
{
    put_word(out, dataset.as_str())?;
    put_named(out, "|", expectation.name.as_str())?;
    put_action(out, "|", expectation.action)
}

fn put_tally(alloc: Global, out: &mut Vec<u8>, tally: &Tally) -> Result<(), AllocError>
    ensures { OnOk result (out.new.items ≡ out.old.items ++ print_tally tally.now) }
{
    put_counted(alloc, out, "|", tally.passed)?;
    put_counted(alloc, out, "|", tally.failed)
}

fn put_tally_line(
    alloc: Global,
    out: &mut Vec<u8>,
    dataset: &Name,
    expectation: &StoredExpectation,
    tally: &Tally,
) -> Result<(), AllocError>
    ensures { OnOk result (out.new.items ≡ out.old.items ++ tally_line dataset.now expectation.now tally.now) }
{
    put_expectation(out, dataset, expectation)?;
    put_tally(alloc, out, tally)?;
    out.push(b'\n')?;
    Ok(())
}

fn put_tally_lines(
    alloc: Global,
    out: &mut Vec<u8>,
    dataset: &Name,
    expectations: &[StoredExpectation],
    tallies: &[Tally],
) -> Result<(), AllocError>
    ensures { OnOk result (out.new.items ≡ out.old.items ++ tally_lines dataset.now expectations.now tallies.now) }
{
    let mut rest = tallies;
    for expectation in expectations {
        let Some((tally, behind)) = rest.split_first() else {
            return Ok(());
        };
        put_tally_line(alloc, out, dataset, expectation, tally)?;
        rest = behind;
    }
    Ok(())
}

/// The first line of what is printed of counts. `Err` for want of memory alone.
pub fn metrics_head(alloc: Global) -> Result<Vec<u8>, AllocError>
    ensures { IfOk result (λ text. text.items ≡ the_head) }
{
    let mut text = Vec::new(alloc);
    put(&mut text, "dataset|expectation|action|passed|failed\n")?;
    Ok(text)
}

/// Puts the lines of a dataset behind what `out` has: one for each of its expectations, in stored order, that has a
/// count. `Err` for want of memory alone; then `out` may have some of them.
pub fn put_metrics(
    alloc: Global,
    out: &mut Vec<u8>,
    definition: &Definition,
    tallies: &[Tally],
) -> Result<(), AllocError>
    ensures { OnOk result (out.new.items ≡ out.old.items ++ tally_lines definition.now.name definition.now.expectations tallies.now) }
{
    put_tally_lines(
        alloc,
        out,
        &definition.name,
        definition.expectations.as_slice(),
        tallies,
    )
}
