//! What a driver holds: heap words, copies of kernel objects, buffers, and its registration.
//!
//! The entries are kept under keys of a slab and listed in the order in which Collect releases them. All room is
//! allocated when the tracker is made, so an entry takes no memory.
#![tactic(auto)]

mod heap;
mod listing;
mod ordered;
mod query;
mod tracker;

pub use tracker::Tracker;
