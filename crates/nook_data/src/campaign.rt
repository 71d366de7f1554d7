//! What a campaign consists of, and the rows of its table.

use crate::lists::Items;
use crate::scenario::{Faults, Scenario};

/// A scenario that is run once for each fault of a list. The fault strikes the part with index `part`, after the part's
/// own faults.
#[derive(Drop)]
pub struct Campaign {
    pub base: Scenario,
    pub part: u32,
    pub faults: Faults,
}

/// What a campaign reports of its run with one fault: the status of the run, and sums over all its parts and threads.
#[derive(Clone, Copy)]
pub struct MemberRow {
    /// 7 if a part broke its contract, else 1 if a part was given up, else 0.
    pub status: u32,
    /// The number of events in all journals.
    pub events: u64,
    /// The number of failures of all parts.
    pub failures: u64,
    /// The number of Gone answers of all threads.
    pub gone: u64,
    /// The number of sends, samples and Busy answers that were lost in all parts.
    pub lost: u64,
}

/// One row for each fault of a campaign, in the order of the faults.
pub type Table = Items<MemberRow>;
