//! The list type that all data uses. Contracts see it as the list of its items; its aliases name what they hold.

ghost use Rattle.std.specs.Prelude.{◌≡◌, ◌==◌, ◌+◌, ◌^◌, ◌<◌, ◌≤◌, ℕ, [], ◌∷◌, ◌++◌, List, Some, length, slice_get, slice_set, IfOk, OnOk, OnErr, option_copied};
ghost use Rattle.std.specs.Iterator.Runs.{EveryRun, ItemsMapTo};
ghost use Rattle.std.specs.Iterator.Adapters.{IterYieldsInOrder, IterYieldsInReverse};
ghost use Rattle.std.specs.Slice.Iter.{iter_rest, iter_steps};
ghost use Rattle.std.specs.Cmp.Lexicographic.{pointwise, lists_per, lists_equiv};

use crate::memory::{NoMemory, Room};
use std::alloc::Global;
use std::marker::Model;
use std::slice;

/// A list of items in order.
#[derive(Drop)]
pub struct Items<T> {
    items: Vec<T>,
}

impl<T> Model for Items<T> {
    ghost use Rattle.std.specs.Prelude.{List};

    ghost Value = { List T };

    ghost view = { λ s. s.items.items };
}

impl<T> Items<T> {
    /// The empty list. It allocates no memory.
    pub fn new(alloc: Global) -> Self
        ensures { result ≡ [] }
    {
        Items {
            items: Vec::new(alloc),
        }
    }

    /// The number of items.
    pub fn len(&self) -> usize
        ensures { result ≡ length self.now }
    {
        self.items.len()
    }

    /// Whether there are no items.
    pub fn is_empty(&self) -> bool
        ensures { result ≡ (length self.now == 0) }
    {
        self.items.is_empty()
    }

    /// The first item; `None` exactly if the list is empty.
    pub fn first(&self) -> Option<&T>
        ensures { option_copied result ≡ slice_get self.now 0 }
    {
        self.items.first()
    }

    /// The item at index `i`.
    pub fn get(&self, i: usize) -> &T
        requires { i < length self.now }
        ensures { slice_get self.now i ≡ Some result.now }
    {
        &self.items[i]
    }

    /// All items, in order.
    pub fn as_slice(&self) -> &[T]
        ensures { result.now ≡ self.now }
    {
        self.items.as_slice()
    }

    /// An iterator over the items, in order.
    pub fn iter(&self) -> slice::Iter<'_, T>
        ensures rest { iter_rest result ≡ self.now }
        ensures bound { length (iter_rest result) < 2 ^ 64 }
        ensures runs { IterYieldsInOrder T }
        ensures runs_back { IterYieldsInReverse T }
    {
        self.items.iter()
    }

    /// A list of the items of a vector.
    pub fn from_vec(items: Vec<T>) -> Self
        ensures { result ≡ items.items }
    {
        Items { items }
    }

    /// A vector of the items of the list.
    pub fn into_vec(self) -> Vec<T>
        ensures { result.items ≡ self }
    {
        self.items
    }

    /// The same list without the room that its items do not use. It allocates no memory.
    pub fn fitted(self) -> Self
        ensures { result ≡ self }
    {
        let mut items = self.items;
        items.shrink_to_fit();
        Items { items }
    }
}

impl<'a, T> IntoIterator for &'a Items<T> {
    type Item = &'a T;

    type IntoIter = slice::Iter<'a, T>;

    ghost into_iter_gives = { λ list made. (iter_rest made ≡ list.now)
        × (length (iter_rest made) < 2 ^ 64)
        × EveryRun (iter_steps {A = T}) (λ p. ItemsMapTo p (λ item. item.now) (iter_rest p.from)) };

    fn into_iter(self) -> slice::Iter<'a, T> {
        self.iter()
    }
}

impl<T: Drop> Items<T> {
    /// Appends an item.
    pub fn push(&mut self, item: T) -> Result<(), NoMemory>
        ensures ok { OnOk result (self.new ≡ self.old ++ item ∷ []) }
        ensures err { OnErr result (self.new ≡ self.old) }
    {
        self.items.push(item)?;
        Ok(())
    }

    /// Replaces the item at index `i`.
    pub fn set(&mut self, i: usize, item: T)
        requires { i < length self.old }
        ensures { self.new ≡ slice_set self.old i item }
    {
        self.items[i] = item;
    }
}

impl<T: Copy> Items<T> {
    /// A separate, equal list.
    pub fn copied(&self, alloc: Global) -> Result<Items<T>, NoMemory>
        ensures { IfOk result (λ made. made ≡ self.now) }
    {
        let mut items = Vec::with_capacity(alloc, self.items.len())?;
        items.extend_from_slice(&self.items)?;
        Ok(Items { items })
    }

    /// An equal list in the memory of `room`, which has room for it. It allocates no memory.
    pub fn copy_in_room(&self, room: Room<T>) -> Items<T>
        requires { length self.now ≤ room }
        ensures { result ≡ self.now }
    {
        let mut items = room.into_vec();
        items.extend_from_slice(&self.items).unwrap();
        Items { items }
    }
}

impl<T: PartialEq> PartialEq for Items<T> {
    ghost eq = { pointwise T.eq };

    ghost laws = { lists_per T.laws };

    fn eq(&self, other: &Self) -> bool {
        self.as_slice() == other.as_slice()
    }
}

impl<T: Eq> Eq for Items<T> {
    ghost laws = { lists_equiv T.Eq.laws };
}

/// Copying that may run out of memory.
pub trait TryCopy {
    /// A separate, equal value.
    fn copy(&self, alloc: Global) -> Result<Self, NoMemory>
        ensures { IfOk result (λ made. made ≡ self.now) };
}

impl<T: TryCopy + Drop> TryCopy for Items<T> {
    fn copy(&self, alloc: Global) -> Result<Self, NoMemory> {
        Ok(Items {
            items: copy_all(alloc, &self.items)?,
        })
    }
}

/// Copies of these items, in their order.
pub fn copy_all<T: TryCopy + Drop>(alloc: Global, items: &[T]) -> Result<Vec<T>, NoMemory>
    ensures { IfOk result (λ made. made.items ≡ items.now) }
{
    let mut made = Vec::with_capacity(alloc, items.len())?;
    for item in items {
        made.push(item.copy(alloc)?)?;
    }
    Ok(made)
}

impl TryCopy for u8 {
    fn copy(&self, _alloc: Global) -> Result<u8, NoMemory> {
        Ok(*self)
    }
}

impl TryCopy for u16 {
    fn copy(&self, _alloc: Global) -> Result<u16, NoMemory> {
        Ok(*self)
    }
}

impl TryCopy for u32 {
    fn copy(&self, _alloc: Global) -> Result<u32, NoMemory> {
        Ok(*self)
    }
}

impl TryCopy for [u32; 16] {
    fn copy(&self, _alloc: Global) -> Result<[u32; 16], NoMemory> {
        Ok(*self)
    }
}

impl<A: TryCopy + Drop, B: TryCopy + Drop> TryCopy for (A, B) {
    fn copy(&self, alloc: Global) -> Result<(A, B), NoMemory> {
        let first = self.0.copy(alloc)?;
        let second = self.1.copy(alloc)?;
        Ok((first, second))
    }
}

/// A machine word.
pub type Word = u32;
/// A list of words.
pub type Words = Items<Word>;
/// A list of bytes.
pub type Words8 = Items<u8>;
/// The picks of a listed schedule.
pub type Picks = Items<u16>;
/// A list of frames, each a list of words.
pub type Frames = Items<Words>;

impl Items<u32> {
    /// An empty list, allocated with room for `n` words. That they fit is not promised: contracts see only a list's
    /// items. A `Room` is memory whose size they see.
    pub fn with_room(alloc: Global, n: u32) -> Result<Words, NoMemory>
        ensures { IfOk result (λ made. made ≡ []) }
    {
        Ok(Items {
            items: Vec::with_capacity(alloc, n as usize)?,
        })
    }
}
