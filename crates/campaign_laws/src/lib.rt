//! Laws of campaigns: which members a campaign has, that each has one run and one row, and what a table says of faults
//! that have no row. They are theorems over the definitions alone.
#![tactic(auto)]

pub mod every;
pub mod members;
pub mod tables;
