// The status of a run.
ghost use Rattle.std.specs.Prelude.{◌≡◌};
ghost use Rattle.message_text.specs.Statuses as spec;

use crate::refusal::Refusal;
use pair_store::{CommitEnd, StoreRefusal};
use plan_check::CheckRefusal;
use sql_tokens::SqlRefusal;
use update_plan::PlanEnd;

/// How a run ends.
#[derive(Clone, Copy, Debug, PartialEq, Eq)]
pub enum Status {
    /// Every command succeeded.
    Ok,
    /// The words are of no form.
    Usage,
    /// The text has no reading, or breaks a check.
    Pipeline,
    /// The store, or what is asked of it, is refused.
    Store,
    /// The disk failed.
    Disk,
    /// The output failed.
    Sink,
    /// The pipeline text couldn't be read.
    Text,
    /// A flow stopped.
    Stopped,
    /// There was no memory.
    Memory,
}

fn unread_status(refusal: SqlRefusal) -> Status
    ensures { result ≡ spec.unread_status refusal }
{
    match refusal {
        SqlRefusal::TextTooLong
        | SqlRefusal::BadToken { .. }
        | SqlRefusal::LiteralTooLarge { .. }
        | SqlRefusal::Unexpected { .. }
        | SqlRefusal::ExprTooLong { .. } => Status::Pipeline,
        SqlRefusal::Memory => Status::Memory,
    }
}

fn unchecked_status(refusal: &CheckRefusal) -> Status
    ensures { result ≡ spec.unchecked_status refusal.now }
{
    match refusal {
        CheckRefusal::Refused(_) | CheckRefusal::Cycle { .. } => Status::Pipeline,
        CheckRefusal::Memory => Status::Memory,
    }
}

fn unloaded_status(refusal: &StoreRefusal) -> Status
    ensures { result ≡ spec.unloaded_status refusal.now }
{
    match refusal {
        StoreRefusal::Foreign { .. }
        | StoreRefusal::Damaged { .. }
        | StoreRefusal::SameEpoch { .. }
        | StoreRefusal::Full { .. } => Status::Store,
        StoreRefusal::Failed => Status::Disk,
        StoreRefusal::Memory => Status::Memory,
    }
}

fn unplanned_status(end: &PlanEnd) -> Status
    ensures { result ≡ spec.unplanned_status end.now }
{
    match end {
        PlanEnd::Changed { .. } | PlanEnd::Removed { .. } | PlanEnd::UnknownTable { .. } => {
            Status::Store
        }
        PlanEnd::Memory => Status::Memory,
    }
}

fn uncommitted_status(end: &CommitEnd) -> Status
    ensures { result ≡ spec.uncommitted_status end.now }
{
    match end {
        CommitEnd::Failed { .. } => Status::Disk,
        CommitEnd::Full { .. } | CommitEnd::VersionFull { .. } | CommitEnd::EpochFull { .. } => {
            Status::Store
        }
        CommitEnd::Memory => Status::Memory,
    }
}

/// The status of a run that ends so. Want of memory is one, wherever it came.
pub fn status_of(refusal: &Refusal) -> Status
    ensures { result ≡ spec.status_of refusal.now }
{
    match refusal {
        Refusal::Usage => Status::Usage,
        Refusal::TextFailed => Status::Text,
        Refusal::Unread(refusal) => unread_status(*refusal),
        Refusal::Unchecked(refusal) => unchecked_status(refusal),
        Refusal::NotBuilt { .. } => Status::Pipeline,
        Refusal::Unloaded(refusal) => unloaded_status(refusal),
        Refusal::Unplanned(end) => unplanned_status(end),
        Refusal::Uncommitted(end) => uncommitted_status(end),
        Refusal::Unfit { .. } | Refusal::UnknownTable { .. } | Refusal::NoVersion { .. } => {
            Status::Store
        }
        Refusal::SinkFailed => Status::Sink,
        Refusal::Memory => Status::Memory,
    }
}
