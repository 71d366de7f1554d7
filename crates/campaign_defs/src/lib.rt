//! Definitions of the runs of a campaign and of its table, which has a row for each run.
#![tactic(auto)]

pub mod row;
