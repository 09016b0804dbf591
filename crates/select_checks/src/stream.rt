//! The select of a streaming flow.

ghost use Rattle.std.specs.Prelude.{◌≡◌, ◌∷◌, [], ◌&&◌, IfOk};
ghost use Rattle.std.specs.List.{list_all};
ghost use Rattle.statement_checks.specs.Repeats.{first_of};
ghost use Rattle.select_names.specs.SelectNames as names;
ghost use Rattle.select_checks.specs.Ends.{Judges};
ghost use Rattle.select_checks.specs.Kinded as kinded;
ghost use Rattle.select_checks.specs.Outputs as outputs;
ghost use Rattle.select_checks.specs.Streams as spec;

use crate::end::SelectEnd;
use crate::kinded::{filter_over, is_filter, unboxed};
use crate::naming::naming_fault;
use crate::outputs::{columns_given, exprs_given, have_kinds, select_outputs};
use plan_core::Exprs;
use row_expr::Expr;
use select_names::{is_grouped_select, unknown_name};
use sql_tree::Select;
use sqlite_items::Boxed;
use statement_checks::CheckFault;
use std::alloc::{AllocError, Global};
use value_core::Schema;

/// What the select of a streaming flow gives: WHERE and the outputs over the columns that it reads,
/// and the columns that the outputs are.
#[derive(Debug, Drop)]
pub struct StreamSelect {
    pub filter: Option<Expr>,
    pub outputs: Exprs,
    pub columns: Schema,
}

fn aggregate_fault(select: &Select) -> Option<CheckFault>
    ensures { result ≡ spec.is_not_grouped select.now }
{
    if is_grouped_select(select) {
        Some(CheckFault::AggregateInStream)
    } else {
        None
    }
}

fn are_kinded(alloc: Global, source: &Schema, select: &Select) -> Result<bool, AllocError>
    ensures { IfOk result (λ are. are ≡ (kinded.is_filter source.now select.now.filter && list_all (outputs.has_kind source.now) select.now.outs)) }
{
    if !is_filter(alloc, source, &select.filter)? {
        return Ok(false);
    }
    have_kinds(alloc, source, select.outs.as_slice())
}

fn kind_fault(
    alloc: Global,
    source: &Schema,
    select: &Select,
) -> Result<Option<CheckFault>, AllocError>
    ensures { IfOk result (λ fault. fault ≡ spec.outputs_have_kinds source.now select.now) }
{
    if are_kinded(alloc, source, select)? {
        Ok(None)
    } else {
        Ok(Some(CheckFault::TypeMismatch))
    }
}

/// The fault of an output without a kind, or else of its name.
fn output_fault(
    alloc: Global,
    select: &Select,
    source: &Schema,
) -> Result<Option<CheckFault>, AllocError>
    ensures { IfOk result (λ fault. fault ≡ first_of (spec.outputs_have_kinds source.now select.now ∷ names.outputs_are_named select.now.outs ∷ names.outputs_differ source.now select.now.outs ∷ [])) }
{
    let fault = kind_fault(alloc, source, select)?;
    if fault.is_some() {
        return Ok(fault);
    }
    naming_fault(alloc, source, select.outs.as_slice())
}

/// The fault of an unknown name, or else of an output.
fn ungrouped_fault(
    alloc: Global,
    select: &Select,
    source: &Schema,
) -> Result<Option<CheckFault>, AllocError>
    ensures { IfOk result (λ fault. fault ≡ first_of (names.names_are_columns source.now select.now ∷ spec.outputs_have_kinds source.now select.now ∷ names.outputs_are_named select.now.outs ∷ names.outputs_differ source.now select.now.outs ∷ [])) }
{
    let fault = unknown_name(alloc, source.as_slice(), select)?;
    if fault.is_some() {
        return Ok(fault);
    }
    output_fault(alloc, select, source)
}

/// The fault of the first check that the select of a streaming flow breaks.
fn stream_fault(
    alloc: Global,
    select: &Select,
    source: &Schema,
) -> Result<Option<CheckFault>, AllocError>
    ensures { IfOk result (λ fault. fault ≡ first_of (spec.stream_checks select.now source.now)) }
{
    let fault = aggregate_fault(select);
    if fault.is_some() {
        return Ok(fault);
    }
    ungrouped_fault(alloc, select, source)
}

fn stream_with(filter: Option<Boxed<Expr>>, outputs: Exprs, columns: Schema) -> StreamSelect
    ensures filter { result.filter ≡ filter }
    ensures outputs { result.outputs ≡ outputs }
    ensures columns { result.columns ≡ columns }
{
    StreamSelect {
        filter: unboxed(filter),
        outputs,
        columns,
    }
}

/// What a select gives that breaks no check.
fn stream_given(alloc: Global, select: &Select, source: &Schema) -> Result<StreamSelect, AllocError>
    ensures { IfOk result (λ given. given ≡ spec.stream_with (kinded.filter_over source.now select.now.filter) (outputs.select_outputs source.now select.now.outs)) }
{
    let filter = filter_over(alloc, source, &select.filter)?;
    let outputs = select_outputs(alloc, source, select.outs.as_slice())?;
    let columns = columns_given(alloc, outputs.as_slice())?;
    let exprs = exprs_given(alloc, outputs)?;
    Ok(stream_with(filter, exprs, columns))
}

/// What the select of a streaming flow gives over the columns that it reads, whose origin is not
/// looked at (Databricks SQL reference, SELECT). The first fault of these is answered, and else what
/// is given: AggregateInStream where GROUP BY or an aggregate stands; UnknownName of the first name
/// in the text that no column has; TypeMismatch where WHERE is no condition or an output has no
/// kind; NoName of the first output that is no plain column and has no name, numbered from 1, where
/// `*` is one output; Duplicate of the first output that has the name of an earlier one. A plain
/// column without a name keeps the spelling of the source. Names are compared but for the case of
/// ASCII letters. How many outputs there are is not limited. Memory comes for want of it, and for an
/// output whose number 32 bits don't hold.
pub fn check_stream_select(
    alloc: Global,
    select: &Select,
    source: &Schema,
) -> Result<StreamSelect, SelectEnd>
    ensures { Judges (spec.stream_select select.now source.now) result }
{
    if let Some(fault) = stream_fault(alloc, select, source)? {
        return Err(SelectEnd::Fault(fault));
    }
    Ok(stream_given(alloc, select, source)?)
}
