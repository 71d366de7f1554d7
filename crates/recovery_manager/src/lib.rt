//! The stages of a recovery: their order, and Stop, in which open calls are answered or held.
#![tactic(auto)]

mod stages;
mod stopping;

pub use stages::following;
pub use stopping::stop;
