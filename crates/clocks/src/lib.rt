//! Lamport clocks: they put what threads do at several desks into one order.
//!
//! The time of a clock exists only in contracts: a clock and a list of stamps take one or two bytes, and no operation
//! on them costs more than that.
#![tactic(auto)]

mod clock;
mod stamps;

pub use clock::Clock;
pub use stamps::Stamps;
