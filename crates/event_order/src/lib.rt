//! The orders in which the events of several parts can be taken, and the first event that no order reaches.
#![tactic(auto)]

mod callers;
mod first;
mod taker;

pub use first::{FirstLeft, first_left};
