//! A lock that knows its journal: one thread at a time has the value, each turn commits one entry, and every thread has
//! seen a prefix of one list.
//!
//! A `Turn` keeps one value, which represents a list of entries (`Kept`). A thread uses it through a `TurnSeat`.
//! The lock has one word: twice the number of entries, plus one while the turn is out. Its one slot has the value while
//! the turn is in.
#![tactic(auto)]

mod kept;
mod plays;
mod turn;
mod view;

pub use kept::Kept;
pub use turn::{OneTurn, Turn, TurnSeat};
pub use view::View;
