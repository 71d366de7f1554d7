//! Campaigns: a scenario is run once for each member, with that member's faults, and a table has a row for each run.
//!
//! The members run concurrently, and the rows are in the order of the members: the table is as with one thread.
#![tactic(auto)]

mod base;
mod every;
mod known;
mod laws;
mod member;
mod outcome;
mod placing;
mod plain;
mod running;
mod writing;

pub use laws::{every_campaign_has_a_table, every_campaign_has_one_table};
pub use plain::run_campaign;
pub use writing::write_campaign;
