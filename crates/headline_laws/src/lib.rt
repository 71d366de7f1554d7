//! The headline: everything that is promised of a part, as one law over the definitions.
#![tactic(auto)]

pub mod headline;
pub mod restart;
