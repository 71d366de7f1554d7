//! Laws of injected faults and of the guard: what a fault does not change, which bursts a trap ends early, and what the
//! guard's traps change in a run. Each is the contract of a function with an empty body.
#![tactic(auto)]

pub mod every;
pub mod fronts;
pub mod guards;
pub mod promises;
pub mod runs;
pub mod stops;
