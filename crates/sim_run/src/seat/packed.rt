//! Packed seats.

ghost use Rattle.std.specs.Prelude.{◌≡◌, true, IfOk};
ghost use Rattle.sim_run.specs.Branching.{seat_now};

use super::SimulatedPart;
use nook_data::digest::mixed;
use nook_data::lists::Words;
use nook_data::memory::NoMemory;
use nook_data::same::are_same;
use part_core::{LeftRooms, PackedPart};
use std::alloc::Global;
use std::marker::Model;

/// A packed part, the frames that have not arrived, and whether its actors have a step.
#[derive(Drop)]
pub struct PackedSeat<'a> {
    part: PackedPart,
    coming: &'a [Words],
    has_recovery: bool,
    has_arrival: bool,
}

impl<'a> Model for PackedSeat<'a> {
    ghost use Rattle.std.specs.Prelude.{◌≡◌, is_some};
    ghost use Rattle.part_defs.specs.Runs.{next_recovery};
    ghost use Rattle.run_defs.specs.Simulation.{RunningPart, arrival};

    ghost Value = { RunningPart };

    ghost view = { λ s. record { run = s.part; coming = s.coming.now } };

    ghost invariant = { λ s. (s.has_recovery ≡ is_some (next_recovery s.part.state))
        × (s.has_arrival ≡ is_some (arrival s.part s.coming.now)) };
}

impl<'a> SimulatedPart<'a> {
    /// Packs the seat, and leaves the memory that it no longer needs in `left`.
    pub fn into_packed(
        self,
        alloc: Global,
        left: &mut LeftRooms,
    ) -> Result<PackedSeat<'a>, NoMemory>
        ensures { IfOk result (λ made. made ≡ self.entry) }
    {
        let part = self.part.into_packed(alloc, left)?;
        Ok(PackedSeat {
            part,
            coming: self.coming,
            has_recovery: self.has_recovery,
            has_arrival: self.has_arrival,
        })
    }
}

impl<'a> PackedSeat<'a> {
    /// Unpacks the seat, and reuses memory from `left`.
    pub fn unpacked(
        &self,
        alloc: Global,
        left: &mut LeftRooms,
    ) -> Result<SimulatedPart<'a>, NoMemory>
        ensures { IfOk result (λ made. made ≡ self.now) }
    {
        let part = self.part.unpacked(alloc, left)?;
        Ok(SimulatedPart {
            part,
            coming: self.coming,
            has_recovery: self.has_recovery,
            has_arrival: self.has_arrival,
        })
    }

    /// Whether the other part is in the same state, with the same frames to come. The answer may be no even if it is.
    pub fn is_alike(&self, other: &PackedSeat) -> bool
        ensures { result ≡ true → seat_now self.now ≡ seat_now other.now }
    {
        are_same(self.coming, other.coming) && self.part.is_same_state(&other.part)
    }

    /// Mixes the part's state and the number of frames to come into a digest.
    pub fn digest(&self, digest: u64) -> u64 {
        self.part.digest(mixed(digest, self.coming.len() as u64))
    }

    /// The part.
    pub fn part(&self) -> &PackedPart
        ensures { result.now ≡ self.now.run }
    {
        &self.part
    }
}
