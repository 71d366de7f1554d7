//! The outside: where bytes come from and go to, who listens to a run, and what may hold up a worker.
#![tactic(auto)]

pub mod listeners;
pub mod outside;
pub mod standard_streams;
pub mod streams_in_memory;
pub mod whole;
