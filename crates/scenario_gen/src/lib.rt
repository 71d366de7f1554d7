//! The scenario that the program generates for a number: three parts with the reference drivers, four threads with that
//! number of operations each, and eight traps in the disk's driver.
#![tactic(auto)]

mod generated;
mod references;

pub use generated::generate;
pub use references::{block_driver, net_driver, sound_driver};
