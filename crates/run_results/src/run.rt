//! What a run produced.

use nook_data::calls::AnswerTable;
use nook_data::journal::Journal;
use nook_data::lists::Items;
use nook_io::listeners::TapTotals;

/// Each part's journal.
pub type Journals = Items<Journal>;

/// A run: each part's journal, each thread's answers, each listener's total.
pub struct Run {
    pub journals: Journals,
    pub answers: AnswerTable,
    pub taps: TapTotals,
}

impl Drop for Run {
    /// Written by hand, so that it is proved once and not in each function that owns a run.
    fn drop(self) {
        let Run {
            journals: _,
            answers: _,
            taps: _,
        } = self;
    }
}
