//! The monitor of a part: in one pass over the part's events it judges its driver by the class's contract and counts
//! what was lost.
#![tactic(auto)]

mod acts;
mod blocks;
mod calls;
mod clauses;
mod comparing;
mod counting;
mod crossings;
mod known;
mod monitor;
mod watching;
mod wrong;

pub use monitor::Monitor;
pub use wrong::WrongDeed;
