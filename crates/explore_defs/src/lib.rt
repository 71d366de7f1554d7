//! Definitions for every order in which the steps of a scenario may occur: the outcomes of all orders, what in a
//! simulation decides how it continues, and the row of each outcome.
#![tactic(auto)]

pub mod outcome;

pub use outcome::{Outcome, PartOutcome};

/// The most states of a simulation that are held in all.
pub const MOST_STATES: u32 = 65_536;

/// The status if not every order was followed.
pub const CUT_STATUS: u32 = 9;
