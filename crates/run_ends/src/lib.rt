//! What a whole run produces, by a schedule or by threads: a journal and a final state of each part, and the answers.
#![tactic(auto)]

mod ends;
mod whole_run;

pub use ends::end_of;
pub use whole_run::WholeRun;
