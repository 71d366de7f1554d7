//! What a seat knows of its turn.
use std::collections::LinkedList;

/// What a seat knows. It exists only in contracts: no value of it is made, and clauses read its linked lists as lists.
pub struct View<E, O> {
    /// The origin of the turn's value; none after the seat was joined into another.
    pub origin: Option<O>,
    /// The prefix of the list of all entries that the seat has seen.
    pub seen: LinkedList<E>,
    /// The pending prefix of `seen`, which the seat does not know to be one yet. Empty after each call.
    pub pending: LinkedList<E>,
    /// The numbers, from 1, of the entries that the seat committed.
    pub made: LinkedList<u64>,
    /// How many entries the list had when the turn was made.
    pub start: u64,
    /// The seat's share of the turn: the first seat has the whole, and no two seats share a point.
    pub share: LinkedList<LinkedList<(u64, bool)>>,
    /// Whether the seat has the turn.
    pub has: bool,
    /// The list of the value that the seat took, and what it committed since; empty if it does not have the turn.
    pub taken: LinkedList<E>,
}
