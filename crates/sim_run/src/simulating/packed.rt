//! Packed simulations: many are stored packed, and one at a time is unpacked to continue.

ghost use Rattle.std.specs.Prelude.{◌≡◌, ◌<◌, ◌≤◌, Some, true, IfOk, length, map, slice_get};
ghost use Rattle.run_defs.specs.Schedules.{round};
ghost use Rattle.sim_run.specs.Branching.{AreStatesAlike, run_of, seat_now};
ghost use Rattle.nook_data.specs.declared.limits.TheConstants.{MOST_PARTS};

use super::Simulating;
use crate::script::Script;
use crate::seat::{PackedSeat, SimulatedPart};
use nook_data::memory::NoMemory;
use nook_data::scenario::ScheduleSpec;
use part_core::{LeftRooms, PackedPart};
use schedule::Schedule;
use std::alloc::Global;
use std::marker::Model;

/// A packed run in progress. Its schedule is a round robin: a caller that follows every step does not use it.
pub struct PackedSimulation<'a> {
    alloc: Global,
    seats: Vec<PackedSeat<'a>>,
    threads: Vec<Script<'a>>,
    /// Whether each thread has a step; none if that must be found again.
    able: Option<Vec<bool>>,
}

impl<'a> Model for PackedSimulation<'a> {
    ghost use Rattle.std.specs.Prelude.{◌≤◌, length, IfSome};
    ghost use Rattle.run_defs.specs.Schedules.{round};
    ghost use Rattle.run_defs.specs.Simulation.{Simulation};
    ghost use Rattle.nook_data.specs.declared.limits.TheConstants.{MOST_PARTS, MOST_THREADS};
    ghost use Rattle.sim_run.specs.Able.{AreAble};

    ghost Value = { Simulation };

    ghost view = { λ s. record {
      order = round 0;
      parts = s.seats.items;
      threads = s.threads.items;
    } };

    ghost invariant = { λ s. (length s.seats.items ≤ MOST_PARTS)
        × (length s.threads.items ≤ MOST_THREADS)
        × IfSome s.able (λ able. AreAble s.seats.items s.threads.items able.items) };
}

impl Drop for PackedSimulation<'_> {
    /// Written by hand, so that it is proved once and not in each function that owns a packed simulation.
    fn drop(self) {
        let PackedSimulation {
            alloc: _,
            seats: _,
            threads: _,
            able: _,
        } = self;
    }
}

impl<'a> Simulating<'a> {
    /// Packs the simulation, and leaves the memory that it no longer needs in `left`.
    pub fn into_packed(self, left: &mut LeftRooms) -> Result<PackedSimulation<'a>, NoMemory>
        ensures { IfOk result (λ made. made ≡ record self.entry { order = round 0 }) }
    {
        let Simulating {
            alloc,
            schedule: _,
            seats,
            threads,
            able,
            ready: _,
        } = self;
        Ok(PackedSimulation {
            alloc,
            seats: pack_seats(alloc, seats, left)?,
            threads,
            able,
        })
    }
}

impl<'a> PackedSimulation<'a> {
    /// Unpacks the simulation, and reuses memory from `left`.
    #[tactic(auto, unfolding(run_defs::specs::Schedules::opening_order))]
    pub fn unpacked(&self, left: &mut LeftRooms) -> Result<Simulating<'a>, NoMemory>
        ensures { IfOk result (λ made. made ≡ self.now) }
    {
        let alloc = self.alloc;
        let able = match &self.able {
            Some(able) => Some(Vec::from_slice(alloc, able)?),
            None => None,
        };
        Ok(Simulating {
            alloc,
            schedule: Schedule::new(ScheduleSpec::RoundRobin),
            seats: unpack_seats(alloc, &self.seats, left)?,
            threads: copy_threads(alloc, &self.threads)?,
            able,
            ready: Vec::new(alloc),
        })
    }

    /// Whether the other simulation's parts are in the same states, with the same frames to come, and its threads are
    /// the same. The answer may be no even if they are.
    pub fn is_alike(&self, other: &PackedSimulation) -> bool
        ensures { result ≡ true → AreStatesAlike self.now other.now }
    {
        are_same_threads(&self.threads, &other.threads) && are_alike(&self.seats, &other.seats)
    }

    /// A number that is the same for simulations that are alike.
    pub fn digest(&self) -> u64 {
        digest_of_threads(digest_of_seats(0, &self.seats), &self.threads)
    }

    /// The number of parts, at most 8.
    pub fn part_count(&self) -> usize
        ensures count { result ≡ length self.now.parts }
        ensures few { result ≤ MOST_PARTS }
    {
        self.seats.len()
    }

    /// The part with a number.
    pub fn part(&self, number: usize) -> &PackedPart
        requires { number < length self.now.parts }
        ensures { slice_get (map run_of self.now.parts) number ≡ Some result.now }
    {
        self.seats[number].part()
    }
}

/// Packs the parts.
fn pack_seats<'a>(
    alloc: Global,
    seats: Vec<SimulatedPart<'a>>,
    left: &mut LeftRooms,
) -> Result<Vec<PackedSeat<'a>>, NoMemory>
    ensures { IfOk result (λ made. made.items ≡ seats.entry.items) }
{
    let mut made = Vec::with_capacity(alloc, seats.len())?;
    for seat in seats {
        made.push(seat.into_packed(alloc, left)?)?;
    }
    Ok(made)
}

/// Unpacks the parts.
fn unpack_seats<'a>(
    alloc: Global,
    seats: &[PackedSeat<'a>],
    left: &mut LeftRooms,
) -> Result<Vec<SimulatedPart<'a>>, NoMemory>
    ensures { IfOk result (λ made. made.items ≡ seats.now) }
{
    let mut made = Vec::with_capacity(alloc, seats.len())?;
    for seat in seats {
        made.push(seat.unpacked(alloc, left)?)?;
    }
    Ok(made)
}

/// Copies of the threads.
fn copy_threads<'a>(alloc: Global, threads: &[Script<'a>]) -> Result<Vec<Script<'a>>, NoMemory>
    ensures { IfOk result (λ made. made.items ≡ threads.now) }
{
    let mut made = Vec::with_capacity(alloc, threads.len())?;
    for thread in threads {
        made.push(thread.copied(alloc)?)?;
    }
    Ok(made)
}

/// Whether the threads are the same.
fn are_same_threads(threads: &[Script], others: &[Script]) -> bool
    ensures { result ≡ true → threads.now ≡ others.now }
{
    if threads.len() != others.len() {
        return false;
    }
    for number in 0..threads.len() {
        if !threads[number].is_same(&others[number]) {
            return false;
        }
    }
    true
}

/// Whether the parts are in the same states, with the same frames to come.
fn are_alike(seats: &[PackedSeat], others: &[PackedSeat]) -> bool
    ensures { result ≡ true → map seat_now seats.now ≡ map seat_now others.now }
{
    if seats.len() != others.len() {
        return false;
    }
    for number in 0..seats.len() {
        if !seats[number].is_alike(&others[number]) {
            return false;
        }
    }
    true
}

/// Mixes the parts' states into a digest.
fn digest_of_seats(digest: u64, seats: &[PackedSeat]) -> u64 {
    let mut digest = digest;
    for seat in seats {
        digest = seat.digest(digest);
    }
    digest
}

/// Mixes the positions of the threads into a digest.
fn digest_of_threads(digest: u64, threads: &[Script]) -> u64 {
    let mut digest = digest;
    for thread in threads {
        digest = thread.digest(digest);
    }
    digest
}
