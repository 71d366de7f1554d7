//! Definitions of the driver machine: instructions, pages, devices, what a driver holds, and the kernel's services.
#![tactic(auto)]

pub mod service_names;
