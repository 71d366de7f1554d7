//! The eight kernel services, and the kernel's queue of received frames.
//!
//! A service takes no memory: the rooms for what it moves are passed in.
#![tactic(auto)]

mod queue;
mod services;

pub use queue::RxQueue;
pub use services::{Served, serve};
