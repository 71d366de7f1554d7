//! One part: a driver's domain with its kernel side, its device and its journal, one atomic step at a time.
//!
//! A part of any class takes any step that the definition of parts allows, recovers under every limit, and adds one
//! event to its journal for each step. Whatever its driver's image contains, each call returns.
#![tactic(auto)]

mod arrive;
mod burst;
mod crossing;
mod enabled;
mod enter;
mod invoke;
mod kernel;
mod left_rooms;
mod next;
mod open_calls;
mod part;
mod reply;
mod rooms;
mod stage;
mod state;

pub use left_rooms::LeftRooms;
pub use part::{PackedPart, Part, StepDone, StepRefused};
