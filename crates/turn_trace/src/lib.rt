//! What one burst of the driver machine did, instruction by instruction, on any memory and device that a `Bus` lends;
//! and how its lines are written.
#![tactic(auto)]

mod laws;
mod lines;
mod traced;
mod tracing;
mod writing;

pub use laws::every_trace_reports_its_burst;
pub use traced::TracedTurn;
pub use tracing::trace_burst;
pub use writing::{write_start, write_unstruck};
