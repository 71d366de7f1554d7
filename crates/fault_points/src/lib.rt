//! The positions in a part's run at which one more fault strikes: in which bursts, before how many instructions each.
#![tactic(auto)]

mod points;

pub use points::{BurstPoints, points_of};
