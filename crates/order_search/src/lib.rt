//! A search of every order of the steps, level by level, over any simulation that can be followed step by step: it
//! finds the first order that leads to each outcome.
#![tactic(auto)]

pub mod answering;
mod by_digest;
mod ends;
mod levels;
mod moment;
mod rows;
mod searching;
mod states;
mod ways;

pub use moment::Moment;
pub use rows::{Explored, OutcomeRow};
pub use searching::search;
