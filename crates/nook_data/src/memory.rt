//! Running out of memory, and room that is allocated before it is needed.

ghost use Rattle.std.specs.Prelude.{◌≡◌, ◌≤◌, ℕ, [], List, length, IfOk, vec_capacity};

use std::alloc::{AllocError, AllocFailed, Global};
use std::marker::Model;

/// An allocation was refused. What the failed call borrowed is unchanged.
#[derive(Clone, Copy, Debug)]
pub struct NoMemory;

impl From<AllocError> for NoMemory {
    fn from(_refused: AllocError) -> NoMemory {
        NoMemory
    }
}

impl<T: Drop> From<AllocFailed<T>> for NoMemory {
    fn from(_refused: AllocFailed<T>) -> NoMemory {
        NoMemory
    }
}

/// Empty memory for a number of items. A call that is handed a room fills it and so allocates no memory itself.
/// Contracts see the number of items that fit.
#[derive(Drop)]
pub struct Room<T> {
    empty: Vec<T>,
}

impl<T> Model for Room<T> {
    ghost Value = { ℕ };

    ghost view = { λ s. vec_capacity s.empty };

    ghost invariant = { λ s. s.empty.items ≡ [] };
}

impl<T> Room<T> {
    /// Allocates room for at least `count` items.
    pub fn new(alloc: Global, count: usize) -> Result<Self, NoMemory>
        ensures { IfOk result (λ room. count ≤ room) }
    {
        Ok(Room {
            empty: Vec::with_capacity(alloc, count)?,
        })
    }

    /// The empty vector inside; its capacity is the size of the room.
    pub fn into_vec(self) -> Vec<T>
        ensures empty { result.items ≡ [] }
        ensures room { vec_capacity result ≡ self }
    {
        self.empty
    }
}
