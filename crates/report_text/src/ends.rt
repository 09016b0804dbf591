// The line of a flow or view that ended.
ghost use Rattle.std.specs.Prelude.{◌≡◌, ◌++◌, IfOk, OnOk};
ghost use Rattle.std.specs.Fmt.{decimal};
ghost use Rattle.report_text.specs.Words.{print_word};
ghost use Rattle.report_text.specs.Ends.{name_at as the_name_at, print_begin, print_completed, print_end, print_flow, print_flow_line, print_stop};

use crate::stops::put_stop;
use crate::words::{put, put_counted, put_named};
use plan_core::{AppendFlow, Body, Dataset, FlowEnd, Stop};
use std::alloc::{AllocError, Global};
use value_core::Name;

/// The name of the flow at a place, and nothing past the last.
fn name_at(flows: &[AppendFlow], place: u32) -> &str
    ensures { result.now ≡ the_name_at flows.now place }
{
    match flows.get(place as usize) {
        Some(flow) => flow.name.as_str(),
        None => "",
    }
}

fn put_flow(out: &mut Vec<u8>, flow: &str, table: &Name) -> Result<(), AllocError>
    ensures { OnOk result (out.new.items ≡ out.old.items ++ print_flow flow.now table.now) }
{
    put_named(out, "flow ", flow)?;
    put_named(out, " into ", table.as_str())?;
    put(out, ": ")
}

/// Puts a name between two texts.
fn put_amid(out: &mut Vec<u8>, before: &str, name: &Name, behind: &str) -> Result<(), AllocError>
    ensures { OnOk result (out.new.items ≡ out.old.items ++ (before.now ++ print_word name.now ++ behind.now)) }
{
    put_named(out, before, name.as_str())?;
    put(out, behind)
}

fn put_begin(out: &mut Vec<u8>, name: &Name, body: &Body, place: u32) -> Result<(), AllocError>
    ensures { OnOk result (out.new.items ≡ out.old.items ++ print_begin name.now body.now place) }
{
    match body {
        Body::Append(flows) => put_flow(out, name_at(flows.as_slice(), place), name),
        Body::Cdc(feed) => put_flow(out, feed.name.as_str(), name),
        Body::View(_) => put_amid(out, "view ", name, ": "),
    }
}

/// Puts two texts, each with a number behind it.
fn put_both(
    alloc: Global,
    out: &mut Vec<u8>,
    first: &str,
    one: u64,
    second: &str,
    two: u64,
) -> Result<(), AllocError>
    ensures { OnOk result (out.new.items ≡ out.old.items ++ ((first.now ++ decimal one) ++ (second.now ++ decimal two))) }
{
    put_counted(alloc, out, first, one)?;
    put_counted(alloc, out, second, two)
}

fn put_completed(
    alloc: Global,
    out: &mut Vec<u8>,
    body: &Body,
    read: u64,
    version: u64,
) -> Result<(), AllocError>
    ensures { OnOk result (out.new.items ≡ out.old.items ++ print_completed body.now read version) }
{
    match body {
        Body::Append(_) | Body::Cdc(_) => put_both(
            alloc,
            out,
            "completed, ",
            read,
            " rows read, version ",
            version,
        ),
        Body::View(_) => put_counted(alloc, out, "completed, version ", version),
    }
}

/// Puts a text, and then why a flow stopped.
fn put_stopped(alloc: Global, out: &mut Vec<u8>, before: &str, why: &Stop) -> Result<(), AllocError>
    ensures { OnOk result (out.new.items ≡ out.old.items ++ (before.now ++ print_stop why.now)) }
{
    put(out, before)?;
    put_stop(alloc, out, why)
}

fn put_end(alloc: Global, out: &mut Vec<u8>, body: &Body, end: &FlowEnd) -> Result<(), AllocError>
    ensures { OnOk result (out.new.items ≡ out.old.items ++ print_end body.now end.now) }
{
    match end {
        FlowEnd::Completed { read, version } => put_completed(alloc, out, body, *read, *version),
        FlowEnd::Current => put(out, "current"),
        FlowEnd::Stopped { why } => put_stopped(alloc, out, "stopped: ", why),
        FlowEnd::Skipped { name } => put_named(out, "skipped: ", name.as_str()),
    }
}

/// The line of the flow at a place of a dataset, from 0: `flow FLOW into TABLE: ` and how it ended, or `view NAME: `
/// and how it ended. A change feed and a view have one flow, and nothing stands for the name of a flow that a table
/// doesn't have. `Err` for want of memory alone.
pub fn flow_line(
    alloc: Global,
    dataset: &Dataset,
    flow: u32,
    end: &FlowEnd,
) -> Result<Vec<u8>, AllocError>
    ensures { IfOk result (λ line. line.items ≡ print_flow_line dataset.now flow end.now) }
{
    let mut line = Vec::new(alloc);
    put_begin(&mut line, &dataset.name, &dataset.body, flow)?;
    put_end(alloc, &mut line, &dataset.body, end)?;
    line.push(b'\n')?;
    Ok(line)
}
