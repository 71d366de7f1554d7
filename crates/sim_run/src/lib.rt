//! Whole runs: the actors of a scenario take steps under its schedule until none has a step, or until a burst
//! that the caller looks for.
#![tactic(auto)]

mod actors;
mod breaking;
mod chosen;
pub mod laws;
mod script;
mod seat;
mod simulating;
mod whole_run;

pub use breaking::{WrongBurst, run_to_break, take_judged};
pub use chosen::Chosen;
pub use simulating::{PackedSimulation, Simulating};
pub use whole_run::{FoundBurst, run_to_burst, simulate, simulate_over};
