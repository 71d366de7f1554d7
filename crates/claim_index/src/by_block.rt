//! The calls that claim each block.

ghost use Rattle.std.specs.Prelude.{◌≡◌, ◌<◌, ◌≤◌, ◌++◌, ◌∷◌, [], ℕ, true, not, ◌==◌, filter, slice_get, vec_len, if◌then◌else◌, OnOk};
ghost use Rattle.std.specs.Prelude.{OnErr};
ghost use Rattle.claim_index.specs.Indexed.{HasRoomAt, is_within, least, numbers_at};

use crate::claimants::first_of;
use nook_data::memory::NoMemory;
use std::alloc::Global;

/// For each block, by its number, the numbers of the calls that claim it, in the order in which they came. Blocks past
/// the end are claimed by none.
pub struct ByBlock {
    numbers: Vec<Vec<u32>>,
}

impl Drop for ByBlock {
    /// Written by hand, so that it is proved once and not in each function that owns blocks.
    fn drop(self) {
        let ByBlock { numbers: _ } = self;
    }
}

impl ByBlock {
    /// No block is claimed. It takes no memory.
    pub fn new(alloc: Global) -> ByBlock
        ensures { (block : ℕ) → numbers_at block result ≡ [] }
    {
        ByBlock {
            numbers: Vec::new(alloc),
        }
    }

    /// Adds the call at each block. It allocates its memory first: after `NoMemory` each block has the calls that it
    /// had.
    pub fn add(&mut self, alloc: Global, first: u64, end: u64, call: u32) -> Result<(), NoMemory>
        ensures ok { OnOk result ((block : ℕ) → numbers_at block self.new
            ≡ (if is_within first end block then numbers_at block self.old ++ call ∷ []
            else numbers_at block self.old)) }
        ensures err { OnErr result
            ((block : ℕ) → numbers_at block self.new ≡ numbers_at block self.old) }
    {
        self.make_rooms(alloc, first, end)?;
        self.push(first, end, call);
        Ok(())
    }

    /// Removes the call from each block. It takes no memory.
    pub fn remove(&mut self, first: u64, end: u64, call: u32)
        ensures { (block : ℕ) → numbers_at block self.new
            ≡ (if is_within first end block then filter (λ n. not (n == call))
            (numbers_at block self.old)
            else numbers_at block self.old) }
    {
        for block in first..end {
            self.remove_at(block, call);
        }
    }

    /// The first call of a block.
    pub fn first_at(&self, block: u64) -> Option<u32>
        ensures { result ≡ slice_get (numbers_at block self.now) 0 }
    {
        match self.numbers.get(block as usize) {
            Some(numbers) => first_of(numbers),
            None => None,
        }
    }

    /// Makes room for one more call at each block.
    fn make_rooms(&mut self, alloc: Global, first: u64, end: u64) -> Result<(), NoMemory>
        ensures same { (block : ℕ) → numbers_at block self.new ≡ numbers_at block self.old }
        ensures room { OnOk result
            ((block : ℕ) → is_within first end block ≡ true → HasRoomAt block self.new) }
    {
        self.lengthen(alloc, end)?;
        for block in first..end {
            self.make_room(block)?;
        }
        Ok(())
    }

    /// Makes the table contain the blocks up to `end`.
    fn lengthen(&mut self, alloc: Global, end: u64) -> Result<(), NoMemory>
        ensures same { (block : ℕ) → numbers_at block self.new ≡ numbers_at block self.old }
        ensures long { OnOk result (end ≤ vec_len self.new.numbers) }
    {
        for block in self.numbers.len() as u64..end {
            self.numbers.push(Vec::new(alloc))?;
        }
        Ok(())
    }

    /// Makes room for one more call at a block of the table.
    fn make_room(&mut self, block: u64) -> Result<(), NoMemory>
        requires { block < vec_len self.old.numbers }
        ensures same { (other : ℕ) → numbers_at other self.new ≡ numbers_at other self.old }
        ensures room { OnOk result (HasRoomAt block self.new) }
        ensures rooms { (other : ℕ) → HasRoomAt other self.old → HasRoomAt other self.new }
        ensures size { vec_len self.new.numbers ≡ vec_len self.old.numbers }
    {
        self.numbers[block as usize].reserve(1)?;
        Ok(())
    }

    /// Adds the call at each block, which has room for it.
    fn push(&mut self, first: u64, end: u64, call: u32)
        requires { (block : ℕ) → is_within first end block ≡ true → HasRoomAt block self.old }
        ensures { (block : ℕ) → numbers_at block self.new
            ≡ (if is_within first end block then numbers_at block self.old ++ call ∷ []
            else numbers_at block self.old) }
    {
        for block in first..end {
            self.push_at(block, call);
        }
    }

    fn push_at(&mut self, block: u64, call: u32)
        requires { HasRoomAt block self.old }
        ensures pushed { (other : ℕ) → numbers_at other self.new
            ≡ (if other == block then numbers_at other self.old ++ call
            ∷ [] else numbers_at other self.old) }
        ensures rooms { (other : ℕ) → (other ≡ block → ⊥) → HasRoomAt other self.old
            → HasRoomAt other self.new }
    {
        if let Some(numbers) = self.numbers.get_mut(block as usize) {
            numbers.push(call).unwrap();
        }
    }

    fn remove_at(&mut self, block: u64, call: u32)
        ensures { (other : ℕ) → numbers_at other self.new
            ≡ (if other == block then filter (λ n. not (n == call)) (numbers_at other self.old)
            else numbers_at other self.old) }
    {
        if let Some(numbers) = self.numbers.get_mut(block as usize) {
            numbers.retain(|number| *number != call);
        }
    }
}
