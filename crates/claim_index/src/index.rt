//! The index of the open calls' claims.

ghost use Rattle.std.specs.Prelude.{◌≡◌, ◌<◌, ◌++◌, ◌∷◌, [], Decides, List, Some, OnOk, OnErr};
ghost use Rattle.claim_index.specs.Claims.{AreBelow, AreRising, HasBlocks, blocker_of, claim_by, claims_of, conflict};
ghost use Rattle.claim_index.specs.Claims.{first_blocking, first_that, is_oldest, without_call};
ghost use Rattle.claim_index.specs.Indexed.{number_before};
ghost use Rattle.part_defs.specs.Log.{open_call};
ghost use Rattle.nook_data.specs.declared.calls.CallEntry.{CallEntry};

use crate::claim::{Claim, Claimed};
use crate::claimants::Claimants;
use nook_data::classes::Class;
use nook_data::lists::TryCopy;
use nook_data::memory::NoMemory;
use std::alloc::Global;
use std::marker::Model;

/// The claims of the open calls. Contracts see them as a list by rising number.
pub struct ClaimIndex {
    open: Vec<Claim>,
    claimants: Claimants,
    alloc: Global,
}

impl Model for ClaimIndex {
    ghost use Rattle.std.specs.Prelude.{List};
    ghost use Rattle.claim_index.specs.Claims.{AreRising, HaveBlocks};
    ghost use Rattle.claim_index.specs.Indexed.{AreClaimantsOf};
    ghost use Rattle.claim_index.specs.declared.claim.Claim.{Claim};

    ghost Value = { List Claim };

    ghost view = { λ s. s.open.items };

    ghost invariant = { λ s. AreRising 0 s.open.items × HaveBlocks s.open.items
        × AreClaimantsOf s.open.items s.claimants };
}

impl Drop for ClaimIndex {
    /// Written by hand, so that it is proved once and not in each function that owns claims.
    fn drop(self) {
        let ClaimIndex {
            open: _,
            claimants: _,
            alloc: _,
        } = self;
    }
}

impl ClaimIndex {
    /// No call is open. It takes no memory.
    pub fn new(alloc: Global) -> ClaimIndex
        ensures { result ≡ [] }
    {
        ClaimIndex {
            open: Vec::new(alloc),
            claimants: Claimants::new(alloc),
            alloc,
        }
    }

    /// Whether no call is open.
    pub fn is_empty(&self) -> bool
        ensures { Decides result (self.now ≡ []) }
    {
        self.open.is_empty()
    }

    /// Adds the claim of a new call, whose number is above 0 and above all others. It allocates its memory first: after
    /// `NoMemory` the claims are unchanged.
    pub fn add(&mut self, claim: Claim) -> Result<(), NoMemory>
        requires number { 0 < claim.call }
        requires below { AreBelow claim.call self.old }
        requires blocks { HasBlocks claim.on }
        ensures ok { OnOk result (self.new ≡ self.old ++ claim ∷ []) }
        ensures err { OnErr result (self.new ≡ self.old) }
    {
        self.open.reserve(1)?;
        self.claimants.add(self.alloc, claim)?;
        self.open.push(claim).unwrap();
        Ok(())
    }

    /// The call is no longer open: whatever it claimed is free for the others. It takes no memory.
    pub fn remove(&mut self, call: u32)
        ensures { self.new ≡ without_call call self.old }
    {
        if let Some(claim) = self.claim_of(call) {
            self.claimants.remove(claim);
            self.open.retain(|claim| claim.call != call);
        }
    }

    /// The open call with the smallest number that the open call has to wait for, in a part of the class: it came
    /// earlier, and their claims conflict. None exactly if it waits for no call, or is not open.
    pub fn first_conflict(&self, class: Class, call: u32) -> Option<u32>
        ensures claims { result ≡ first_blocking class (claim_by call self.now) self.now }
        ensures calls { (pending : List CallEntry) → self.now ≡ claims_of pending
            → result ≡ blocker_of class (open_call call pending) pending }
    {
        // The oldest waits for no other, and most calls are alone.
        if self.is_oldest(call) {
            return None;
        }
        match self.claim_of(call) {
            Some(claim) => before(call, self.first_claimant(class, claim)),
            None => None,
        }
    }

    /// Whether the call is the open one with the smallest number.
    fn is_oldest(&self, call: u32) -> bool
        ensures oldest { result ≡ is_oldest call self.now }
        ensures rising { AreRising 0 self.now }
    {
        match self.open.first() {
            Some(claim) => claim.call == call,
            None => false,
        }
    }

    /// The smallest number of an open call, this or another, whose claim conflicts with an open call's.
    fn first_claimant(&self, class: Class, claim: Claim) -> Option<u32>
        requires { claim_by claim.call self.now ≡ Some claim }
        ensures first { result ≡ first_that (conflict class claim.on) self.now }
        ensures rising { AreRising 0 self.now }
    {
        match claim.on {
            Claimed::Everything => match self.open.first() {
                Some(first) => Some(first.call),
                None => None,
            },
            on => self.claimants.first_conflict(class, on),
        }
    }

    /// The claim of an open call.
    fn claim_of(&self, call: u32) -> Option<Claim>
        ensures { result ≡ claim_by call self.now }
    {
        self.open.iter().find(|claim| claim.call == call).copied()
    }
}

impl TryCopy for ClaimIndex {
    fn copy(&self, alloc: Global) -> Result<ClaimIndex, NoMemory> {
        let mut made = ClaimIndex::new(alloc);
        for claim in &self.open {
            made.add(*claim)?;
        }
        Ok(made)
    }
}

/// A number, if it is smaller than another.
fn before(call: u32, found: Option<u32>) -> Option<u32>
    ensures { result ≡ number_before call found }
{
    match found {
        Some(number) if number < call => Some(number),
        _ => None,
    }
}
