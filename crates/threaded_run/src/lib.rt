//! Runs by threads: each thread of a scenario is an actual thread, and calls the scenario's parts at their desks.
#![tactic(auto)]

mod answering;
mod closing;
mod opening;
mod publishing;
mod running;

pub use closing::{Left, leave};
pub use opening::{Opened, open_desk};
pub use publishing::publish_all;
pub use running::run_threads;
