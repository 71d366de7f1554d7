//! The three devices that drivers reach through ports: a disk whose blocks may fail, a net device with a receive
//! ring, and a sound device.
//!
//! A device takes memory only when it is made or copied.
#![tactic(auto)]

mod device;
mod disk;
mod laws;
mod link;

pub use device::Device;
pub use laws::ports_keep_the_class;
