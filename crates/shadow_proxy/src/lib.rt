//! The shadow's table: how an operation is answered while the driver is away, or that it is held.
#![tactic(auto)]

mod decision;
mod table;

pub use decision::Proxy;
pub use table::{front_for, proxy};
