//! One burst of a part in a scenario's run, traced instruction by instruction.
#![tactic(auto)]

mod writing;

pub use writing::write_trace;
