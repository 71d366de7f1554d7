//! The bus of listeners that hear a run's events.
//!
//! A listener is dropped when its total reaches its limit, when it is detached, or with the bus. Its total remains.
#![tactic(auto)]

mod boxed;
mod bus;
mod laws;
mod tap;

pub use boxed::{Boxed, BoxedListener};
pub use bus::{Bus, TapBus};
pub use laws::every_bus_reports_the_totals;
