//! The text of every order of the steps: a row for each outcome, and the line that counts them.
#![tactic(auto)]

mod counting;
mod lines;
mod writing;

pub use counting::status_of;
pub use writing::write_explored;
