//! The injected faults of a part, indexed by the burst in which they strike.
#![tactic(auto)]

mod script;

pub use script::FaultScript;
