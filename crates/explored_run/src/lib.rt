//! Runs a scenario in every order of its steps: a simulation after some of its steps, and the search over all of
//! them.
#![tactic(auto)]

mod digests;
mod exploring;
mod given;
mod outcomes;
mod packed_moment;
mod sums;

pub use exploring::explore;
pub use packed_moment::PackedMoment;
