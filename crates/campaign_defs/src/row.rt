//! The rows of a campaign's table.

use nook_data::campaign::MemberRow;
use nook_data::lists::Items;
use nook_data::steps::FailCause;

/// How a member's run compares with the base's, and what its struck part did.
#[derive(Clone, Copy)]
pub struct Detail {
    /// Whether each thread has the same answers as in the base's run.
    pub same_answers: bool,
    /// Whether each part has the same final lines as in the base's run.
    pub same_left: bool,
    /// The number of the first clause that the struck part broke.
    pub clause: Option<u8>,
    /// The cause of the struck part's first failure.
    pub cause: Option<FailCause>,
}

/// The row of a run.
#[derive(Clone, Copy)]
pub struct Row {
    pub counts: MemberRow,
    /// Present if the campaign asks for it.
    pub detail: Option<Detail>,
    /// The number of the guard's traps in all parts; present if the campaign is guarded.
    pub traps: Option<u64>,
}

/// The rows of some runs, in order.
pub type Rows = Items<Row>;
