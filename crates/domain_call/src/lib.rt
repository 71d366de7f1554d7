//! A driver's domain: its pages, what the tracker records, its device, and its 17 contexts; and the calls by which a
//! part enters, runs and leaves it, serves it, stops it and restarts it.
//!
//! Memory is taken when a domain is made, copied, packed or unpacked, by `load` for the image and by `collect` for the
//! list of what ended; no other call takes any.
#![tactic(auto)]

mod detached;
mod domain;
mod reach;

pub use detached::Detached;
pub use domain::{Domain, PackedDomain};
pub use driver_isa::BurstDone;
pub use kernel_services::{RxQueue, Served};
