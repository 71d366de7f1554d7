//! The audit of a printed report: whether each of its lines fits a scenario, with no trust in the run that printed it.
//!
//! Each part is run again along the steps that the lines of its section name, one part at a time. The expected lines
//! after a section's events are written into a sink that compares and keeps nothing. After the last line the events of
//! all parts are taken one by one, as long as one may be taken.
#![tactic(auto)]

mod auditing;
mod comparing;
mod cursor;
mod ending;
mod last;
mod own;
mod past;
mod script;
mod section;
mod stop;
mod words;

pub use auditing::audit;
pub use own::own_listeners;
