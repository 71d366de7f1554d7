//! Packed parts.

ghost use Rattle.std.specs.Prelude.{◌≡◌, true, IfOk};
ghost use Rattle.machine_defs.specs.Devices.{medium_of};
ghost use Rattle.part_defs.specs.Runs.{IsRun, state_of};
ghost use Rattle.nook_data.specs.Valid.{IsValidPart};

use super::Part;
use crate::left_rooms::LeftRooms;
use crate::state::PackedState;
use fault_script::FaultScript;
use nook_data::journal::Journal;
use nook_data::limits::BLOCK_WORDS;
use nook_data::lists::{TryCopy, Word};
use nook_data::memory::NoMemory;
use nook_data::scenario::PartSpec;
use std::alloc::Global;
use std::marker::Model;

/// A part in little memory that takes no step. Contracts see the same as for a part.
pub struct PackedPart {
    state: Box<PackedState>,
    script: FaultScript,
    journal: Journal,
}

impl Model for PackedPart {
    ghost use Rattle.part_defs.specs.Runs.{PartRun};
    ghost use Rattle.part_core.specs.Kept.{AreSameFaults, IsKept};

    ghost Value = { PartRun };

    ghost view = { λ s. record { state = s.state.value; journal = s.journal.list } };

    ghost invariant = { λ s. IsKept (record { state = s.state.value; journal = s.journal.list })
        × AreSameFaults s.script s.state.value.spec.faults };
}

impl Drop for PackedPart {
    /// Written by hand, so that it is proved once and not in each function that owns a packed part.
    fn drop(self) {
        let PackedPart {
            state: _,
            script: _,
            journal: _,
        } = self;
    }
}

impl Part {
    /// Packs the part. All but the pages is moved; the memory for acts, crossings and pages goes to `left`.
    pub fn into_packed(self, alloc: Global, left: &mut LeftRooms) -> Result<PackedPart, NoMemory>
        ensures { IfOk result (λ made. made ≡ self) }
    {
        let Part {
            state,
            script,
            journal,
        } = self;
        let state = Box::new(alloc, Box::into_inner(state).into_packed(alloc, left)?)?;
        Ok(PackedPart {
            state,
            script,
            journal,
        })
    }
}

impl PackedPart {
    /// Unpacks an equal part, with memory for acts, crossings and pages from `left`.
    pub fn unpacked(&self, alloc: Global, left: &mut LeftRooms) -> Result<Part, NoMemory>
        ensures { IfOk result (λ made. made ≡ self.now) }
    {
        let script = self.script.copy(alloc)?;
        let journal = self.journal.copied(alloc)?;
        let state = self.state.unpacked(alloc, left)?;
        Ok(Part {
            state,
            script,
            journal,
        })
    }

    /// Whether the other part's state is the same; journals are not compared. It may return false for an equal state.
    pub fn is_same_state(&self, other: &PackedPart) -> bool
        ensures { result ≡ true → self.now.state ≡ other.now.state }
    {
        self.state.is_same(&other.state)
    }

    /// Extends a digest by the part's state. Parts whose states are equal give the same number.
    pub fn digest(&self, digest: u64) -> u64 {
        self.state.digest(digest)
    }

    /// The events so far. They are a run of the part, which is in the state that they lead to.
    pub fn journal(&self) -> &Journal
        ensures journal { result.now.list ≡ self.now.journal }
        ensures run { IsRun self.now.state.spec result.now.list }
        ensures state { self.now.state ≡ state_of self.now.state.spec result.now.list }
    {
        &self.journal
    }

    /// What the part is made from. It is valid.
    pub fn spec(&self) -> &PartSpec
        ensures spec { result.now ≡ self.now.state.spec }
        ensures valid { IsValidPart self.now.state.spec }
    {
        &self.state.spec
    }

    /// The blocks of the disk; none if the part has another device.
    pub fn medium(&self) -> &[[Word; BLOCK_WORDS]]
        ensures { result.now ≡ medium_of self.now.state.domain.device }
    {
        self.state.domain.device().medium()
    }
}
