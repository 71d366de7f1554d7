//! Which members of a campaign need no run: a register that is set before an instruction that does not use
//! it may as well be set before the next one, and a register that is set again before it is read changes nothing.
#![tactic(auto)]

mod found;
mod sources;
mod uses;
mod walking;

pub use found::instrs_of_burst;
pub use sources::{Source, source_of};
pub use uses::{Use, use_of};
pub use walking::instrs_of;
