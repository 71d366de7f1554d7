//! Scenarios as JSON: the text that is written for one is read as that scenario.
#![tactic(auto)]

mod laws;
mod lists;
mod members;
mod ops;
mod parts;
mod scenario;

pub use laws::scenarios_come_back;
pub use scenario::{write_scenario, write_scenario_line};
