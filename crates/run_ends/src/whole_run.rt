//! What a whole run produces.
use run_results::{PartEnds, Run};

/// What a whole run produced: its journals, answers and totals, and the final state of each part.
#[derive(Drop)]
pub struct WholeRun {
    pub run: Run,
    pub ends: PartEnds,
}
