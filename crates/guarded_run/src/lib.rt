//! The guarded run of a scenario: its traps are found one by one, each in a run of the scenario with those before it.
#![tactic(auto)]

mod guarded;
pub mod laws;

pub use guarded::{Guarded, guard_scenario};
