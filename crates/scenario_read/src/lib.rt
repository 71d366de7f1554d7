//! Reads scenarios, campaigns and images from JSON, and writes the line that reports why an input is refused.
//!
//! Each kind of object has one reader. It returns what the definition of that object gives: the same value, or the same
//! first input error with the same path.
#![tactic(auto)]

mod campaign;
mod driver;
mod faults;
mod fields;
mod image;
mod keys;
mod line;
mod lists;
mod names;
mod ops;
mod parts;
mod plan;
mod scenario;
mod schedule;
mod stop;
mod strikes;
mod threads;

pub use campaign::read_campaign;
pub use image::read_image;
pub use line::fault_line;
pub use plan::read_plan;
pub use scenario::read_scenario;
pub use stop::ScenarioFault;
