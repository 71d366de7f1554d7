//! A trap of the guard.

use nook_data::clause::Clause;
use nook_data::lists::Items;
use nook_data::scenario::Fault;

/// A trap that the guard put before a deed that would have broken a clause: the index of its part, the trap, and the
/// smallest clause that the deed would have broken.
#[derive(Clone, Copy)]
pub struct Stop {
    pub part: u32,
    pub trap: Fault,
    pub clause: Clause,
}

/// The traps of a guarded run, in the order in which they were found.
pub type Stops = Items<Stop>;
