//! The open calls by what they claim.

ghost use Rattle.std.specs.Prelude.{◌≡◌, ◌≤◌, ◌++◌, ◌∷◌, ◌&&◌, ◌==◌, [], ℕ, Bool, List, Some, false, filter, not};
ghost use Rattle.std.specs.Prelude.{slice_get, OnOk, OnErr};
ghost use Rattle.claim_index.specs.Claims.{AreRising, HasBlocks, HaveBlocks, clashes, claim_by, conflict, first_that};
ghost use Rattle.claim_index.specs.Claims.{takes_all, without_call};
ghost use Rattle.claim_index.specs.Indexed.{AreByBlock, AreClaimantsOf, is_touched, least};

use crate::by_block::ByBlock;
use crate::claim::{Claim, Claimed};
use nook_data::classes::Class;
use nook_data::memory::NoMemory;
use std::alloc::Global;

/// The numbers of the open calls by what they claim.
pub struct Claimants {
    everything: Vec<u32>,
    readers: ByBlock,
    writers: ByBlock,
    frames: Vec<u32>,
    stream: Vec<u32>,
}

impl Drop for Claimants {
    /// Written by hand, so that it is proved once and not in each function that owns claimants.
    fn drop(self) {
        let Claimants {
            everything: _,
            readers: _,
            writers: _,
            frames: _,
            stream: _,
        } = self;
    }
}

impl Claimants {
    /// Nothing is claimed. It takes no memory.
    pub fn new(alloc: Global) -> Claimants
        ensures { AreClaimantsOf [] result }
    {
        Claimants {
            everything: Vec::new(alloc),
            readers: ByBlock::new(alloc),
            writers: ByBlock::new(alloc),
            frames: Vec::new(alloc),
            stream: Vec::new(alloc),
        }
    }

    /// Adds the claim of a call later than the others. It allocates first: after `NoMemory` the claims are unchanged.
    pub fn add(&mut self, alloc: Global, claim: Claim) -> Result<(), NoMemory>
        ensures ok { OnOk result ((claims : List Claim) → AreClaimantsOf claims self.old
            → AreClaimantsOf (claims ++ claim ∷ []) self.new) }
        ensures err { OnErr result ((claims : List Claim) → AreClaimantsOf claims self.old
            → AreClaimantsOf claims self.new) }
    {
        let call = claim.call;
        match claim.on {
            Claimed::Everything => self.everything.push(call)?,
            Claimed::Reads { first, end } => self.readers.add(alloc, first, end, call)?,
            Claimed::Writes { first, end } => self.writers.add(alloc, first, end, call)?,
            Claimed::Frames => self.frames.push(call)?,
            Claimed::Stream => self.stream.push(call)?,
            Claimed::Nothing => {}
        }
        Ok(())
    }

    /// Ends the claim of an open call. It takes no memory.
    pub fn remove(&mut self, claim: Claim)
        ensures { (claims : List Claim) → AreClaimantsOf claims self.old → AreRising 0 claims
            → claim_by claim.call claims ≡ Some claim
            → AreClaimantsOf (without_call claim.call claims) self.new }
    {
        let call = claim.call;
        match claim.on {
            Claimed::Everything => remove_number(&mut self.everything, call),
            Claimed::Reads { first, end } => self.readers.remove(first, end, call),
            Claimed::Writes { first, end } => self.writers.remove(first, end, call),
            Claimed::Frames => remove_number(&mut self.frames, call),
            Claimed::Stream => remove_number(&mut self.stream, call),
            Claimed::Nothing => {}
        }
    }

    /// The smallest number of an open call that a claim conflicts with, in a part of the class. The claim is not of
    /// everything.
    pub fn first_conflict(&self, class: Class, on: Claimed) -> Option<u32>
        requires all { takes_all on ≡ false }
        requires blocks { HasBlocks on }
        ensures { (claims : List Claim) → AreClaimantsOf claims self.now → AreRising 0 claims
            → HaveBlocks claims
            → result ≡ first_that (conflict class on) claims }
    {
        least(first_of(&self.everything), self.first_clash(class, on))
    }

    /// The same without the claims of everything.
    fn first_clash(&self, class: Class, on: Claimed) -> Option<u32>
        requires { HasBlocks on }
        ensures { (claims : List Claim) → AreClaimantsOf claims self.now → AreRising 0 claims
            → HaveBlocks claims
            → result ≡ first_that (clashes class on) claims }
    {
        match (class, on) {
            (Class::Block, Claimed::Reads { first, end }) => first_among(&self.writers, first, end),
            (Class::Block, Claimed::Writes { first, end }) => least(
                first_among(&self.readers, first, end),
                first_among(&self.writers, first, end),
            ),
            (Class::Net, Claimed::Frames) => first_of(&self.frames),
            (Class::Sound, Claimed::Stream) => first_of(&self.stream),
            _ => None,
        }
    }
}

/// The smallest number of a call of a kind that claims one of the blocks from `first` up to `end`.
fn first_among(by_block: &ByBlock, first: u64, end: u64) -> Option<u32>
    requires { first ≤ end }
    ensures { (kind : Claimed → Bool) (claims : List Claim) → AreByBlock kind claims by_block.now
        → AreRising 0 claims
        → HaveBlocks claims
        → result ≡ first_that (λ o. kind o && is_touched first end o) claims }
{
    let mut found = None;
    for block in first..end {
        found = least(found, by_block.first_at(block));
    }
    found
}

/// The smaller of two numbers, if there are any.
fn least(one: Option<u32>, other: Option<u32>) -> Option<u32>
    ensures { result ≡ least one other }
{
    match (one, other) {
        (Some(one), Some(other)) => Some(one.min(other)),
        (None, found) | (found, None) => found,
    }
}

/// Removes a number from a list.
fn remove_number(numbers: &mut Vec<u32>, call: u32)
    ensures { numbers.new.items ≡ filter (λ n. not (n == call)) numbers.old.items }
{
    numbers.retain(|number| *number != call);
}

/// The first number of a list.
pub fn first_of(numbers: &[u32]) -> Option<u32>
    ensures { result ≡ slice_get numbers.now 0 }
{
    numbers.first().copied()
}
