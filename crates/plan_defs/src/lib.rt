//! Definitions of what a campaign runs: its base, the faults of its members, its limits.
#![tactic(auto)]

pub mod plan;
