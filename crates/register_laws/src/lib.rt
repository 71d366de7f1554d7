//! Laws of faults that set a register: where in a burst it makes no difference when the register is set, and which
//! members of a campaign therefore have the same row.
#![tactic(auto)]

pub mod members;
