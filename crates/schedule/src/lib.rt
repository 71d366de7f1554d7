//! Which enabled actor takes the next step: round robin, drawn or listed.
#![tactic(auto)]

mod pick;

pub use pick::Schedule;
