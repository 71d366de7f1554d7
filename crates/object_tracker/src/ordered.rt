//! A list of at most 82 entries that are kept under keys of a slab.

ghost use Rattle.std.specs.Prelude.{◌≡◌, ◌<◌, ◌≤◌, [], length, slice_index_or, insert, remove, Decides, IfOk};

use nook_data::entries::Entry;
use nook_data::memory::NoMemory;
use nook_data::same::Same;
use slab::Slab;
use std::alloc::Global;
use std::marker::Model;

/// The maximum number of a domain's entries: 64 of the heap, a buffer for each of 17 contexts, the registration.
const MOST_ENTRIES: usize = 82;

/// Entries in order, each under a key of a slab. Contracts see the list.
pub struct Ordered {
    slab: Slab<Entry>,
    keys: Vec<usize>,
}

impl Model for Ordered {
    ghost use Rattle.std.specs.Prelude.{List, map, vec_capacity};
    ghost use Rattle.nook_data.specs.declared.entries.Entry.{Entry};

    ghost Value = { List Entry };

    ghost use Rattle.object_tracker.specs.Ordered.{entry_at, IsOrdered};

    ghost view = { λ s. map (entry_at s.slab) s.keys.items };

    ghost invariant = { λ s. IsOrdered s.slab s.keys.items (vec_capacity s.keys) };
}

impl Drop for Ordered {
    /// Written by hand, so that it is proved once and not in each function that owns entries.
    fn drop(self) {
        let Ordered { slab: _, keys: _ } = self;
    }
}

impl Ordered {
    /// The empty list. It allocates room for 82 entries.
    pub fn new(alloc: Global) -> Result<Ordered, NoMemory>
        ensures { IfOk result (λ made. made ≡ []) }
    {
        let slab = Slab::with_capacity(alloc, MOST_ENTRIES)?;
        let keys = Vec::with_capacity(alloc, MOST_ENTRIES)?;
        Ok(Ordered { slab, keys })
    }

    /// A separate, equal list. It allocates room for 82 entries.
    pub fn copied(&self, alloc: Global) -> Result<Ordered, NoMemory>
        requires { length self.now ≤ 82 }
        ensures { IfOk result (λ made. made ≡ self.now) }
    {
        let mut made = Ordered::new(alloc)?;
        for index in 0..self.len() {
            made.insert(index, self.get(index));
        }
        Ok(made)
    }

    /// The number of entries.
    pub fn len(&self) -> usize
        ensures { result ≡ length self.now }
    {
        self.keys.len()
    }

    /// The entry at an index.
    pub fn get(&self, index: usize) -> Entry
        requires { index < length self.now }
        ensures { slice_index_or self.now index result ≡ result }
    {
        self.slab[self.keys[index]]
    }

    /// Whether the other list has the same entries in the same order.
    pub fn is_same(&self, other: &Ordered) -> bool
        ensures { Decides result (self.now ≡ other.now) }
    {
        if self.len() != other.len() {
            return false;
        }
        for index in 0..self.len() {
            if !self.get(index).is_same(&other.get(index)) {
                return false;
            }
        }
        true
    }

    /// Inserts an entry at an index, before those from there on. It takes no memory.
    pub fn insert(&mut self, index: usize, entry: Entry)
        requires index { index ≤ length self.old }
        requires room { length self.old < 82 }
        ensures { self.new ≡ insert self.old index entry }
    {
        let key = self.slab.insert_reserved(entry);
        self.keys.insert(index, key).unwrap();
    }

    /// Removes the entry at an index.
    pub fn remove(&mut self, index: usize)
        requires { index < length self.old }
        ensures { self.new ≡ remove self.old index }
    {
        let key = self.keys.remove(index);
        let _gone = self.slab.remove(key);
    }
}
