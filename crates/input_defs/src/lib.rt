//! Definitions of inputs: scenarios, campaigns and images as JSON, and their input errors.
#![tactic(auto)]

pub mod input;
pub mod schedules;
