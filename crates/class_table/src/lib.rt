//! What a class fixes for all its parts: which operations are valid, which of them wait for each other, the
//! configuration words, and the entries of a driver.
//!
//! Each function computes the definition of its name.
#![tactic(auto)]

mod config;
mod conflict;
mod entry;
mod operation;

pub use config::{default_of, defaults_of, maximum_of};
pub use conflict::{conflicts, conflicts_are_symmetric};
pub use entry::{entry_address, init_address, open_point, set_position};
pub use operation::{blocks_of_op, first_of_op, is_of_class, static_check};
