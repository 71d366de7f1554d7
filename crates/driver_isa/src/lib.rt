//! The driver machine: instructions as words, and bursts of instructions over the memory and device that a `Bus` lends.
//!
//! Nothing here takes memory. Every burst ends, whatever words, program, fault list or device it is given.
#![tactic(auto)]

mod burst;
mod bus;
mod code;
mod faults;
pub mod instructions;
pub mod laws;
mod turn;

pub use burst::{BurstDone, run_burst};
pub use bus::Bus;
pub use code::{decode, decoded_of, encode, entry_of};
pub use faults::{Hit, Struck, strike, strike_due};
pub use instructions::{Decoded, instr_of};
pub use turn::turn as run_turn;
