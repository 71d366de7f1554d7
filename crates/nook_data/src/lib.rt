//! The plain data of the simulator: what scenarios, journals, calls, devices and domains are made of, and
//! their limits.
#![tactic(auto)]

pub mod answers;
pub mod calls;
pub mod campaign;
pub mod classes;
pub mod clause;
mod copies;
pub mod desks;
pub mod devices;
pub mod digest;
pub mod entries;
pub mod journal;
pub mod limits;
pub mod lists;
pub mod machine;
pub mod memory;
pub mod memory_map;
pub mod mirror;
pub mod name;
pub mod ring;
pub mod rx_front;
pub mod same;
pub mod scenario;
pub mod steps;
pub mod verdicts;
