//! Where the guard stops a burst: before the instruction of its first deed that breaks a clause of its class contract.
#![tactic(auto)]

mod stopping;
mod walking;

pub use stopping::stop_burst;
