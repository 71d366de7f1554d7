//! The run of a mirror: a scenario's thread reads and writes one disk that two parts keep.
#![tactic(auto)]

mod laws;
mod running;
mod serving;
mod which;

pub use laws::the_answers_are_the_rules;
pub use running::{Mirrored, run_mirror};
pub use which::is_mirror;
