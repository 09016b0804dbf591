// What a flow comes to before the disk is called.
use commit_payloads::Take;
use landing_core::Listing;
use plan_core::Stop;

/// What the folder of a flow listed.
#[derive(Drop)]
pub enum FolderListing {
    /// The flow reads no folder.
    NoFolder,
    /// The files of the folder.
    Files(Listing),
    /// The listing failed: the landing's count of faults before and after.
    Failed { before: u64, after: u64 },
}

/// What a flow comes to before the disk is called.
#[derive(Debug, Drop)]
pub enum Offer {
    /// Its position stays, so there is nothing to commit.
    Idle,
    /// It commits nothing, for this cause.
    Halted(Stop),
    /// It read so many rows, and this is the batch that they make.
    Ready { read: u64, batch: Take },
    /// It can't go on from where the store has it: the store lacks its dataset, the flow or its
    /// source, or its position isn't of its source's kind, or is a version that isn't kept.
    Unfit,
}
