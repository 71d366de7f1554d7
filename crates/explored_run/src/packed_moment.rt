//! A simulation after some of its steps, in any order.

ghost use Rattle.explore_laws.specs.Present.{outcome_in, present};
ghost use Rattle.explored_run.specs.Alike.{MonitorsAlike};
ghost use Rattle.explored_run.specs.Sums.{any_broken};
ghost use Rattle.nook_data.specs.Valid.{IsValidScenario};
ghost use Rattle.run_defs.specs.Schedules.{round};
ghost use Rattle.run_defs.specs.Simulation.{begins};
ghost use Rattle.sim_run.specs.Watched.{HaveSeen};
ghost use Rattle.std.specs.Prelude.{◌≡◌, true, IfOk, map};

use crate::digests::digest_of_parts;
use crate::given::are_given_alike;
use crate::outcomes::outcomes_of;
use crate::sums::{count_failures, count_lost, is_any_broken, is_any_given_up};
use contract_monitor::Monitor;
use explore_defs::Outcome;
use nook_data::campaign::MemberRow;
use nook_data::lists::{Words, copy_all};
use nook_data::memory::NoMemory;
use nook_data::scenario::Scenario;
use nook_io::listeners::CountListener;
use order_search::Moment;
use part_core::LeftRooms;
use request_taps::Bus;
use run_results::{ReportStatus, count_gone};
use sim_run::{PackedSimulation, Simulating, take_judged};
use std::alloc::Global;
use std::cell::Cell;
use std::marker::Model;

/// A packed simulation in its current state, with the actors that have a step and a monitor of each part that has seen
/// the part's journal. Contracts see the simulation.
///
/// To take a step it is unpacked into memory that all simulations share, since only one at a time needs it.
#[derive(Drop)]
pub struct PackedMoment<'a> {
    alloc: Global,
    simulation: PackedSimulation<'a>,
    actors: Words,
    monitors: Vec<Monitor>,
    left: &'a Cell<LeftRooms>,
}

impl<'a> Model for PackedMoment<'a> {
    ghost use Rattle.std.specs.Prelude.{◌≡◌};
    ghost use Rattle.run_defs.specs.Simulation.{Simulation};
    ghost use Rattle.sim_run.specs.Actors.{actors_in};
    ghost use Rattle.sim_run.specs.Watched.{HaveSeen};

    ghost Value = { Simulation };

    ghost view = { λ s. s.simulation };

    ghost invariant = { λ s. HaveSeen s.simulation.parts s.monitors.items
        × (s.actors ≡ actors_in s.simulation.parts s.simulation.threads) };
}

impl<'a> PackedMoment<'a> {
    /// A valid scenario before its first step. All simulations that follow from it share the memory in `left`.
    #[tactic(auto, using(crate::proofs::Presents::first_present))]
    pub fn first(
        alloc: Global,
        scenario: &'a Scenario,
        left: &'a Cell<LeftRooms>,
    ) -> Result<PackedMoment<'a>, NoMemory>
        requires { IsValidScenario scenario.now }
        ensures { IfOk result (λ made. present made ≡ present (begins scenario.now)) }
    {
        let simulation = Simulating::new(alloc, scenario, &mut LeftRooms::none(alloc))?;
        let monitors = simulation.monitors()?;
        PackedMoment::held(alloc, simulation, monitors, left)
    }

    /// Packs a simulation whose monitors have seen its journals.
    fn held(
        alloc: Global,
        simulation: Simulating<'a>,
        monitors: Vec<Monitor>,
        left: &'a Cell<LeftRooms>,
    ) -> Result<PackedMoment<'a>, NoMemory>
        requires { HaveSeen simulation.parts monitors.items }
        ensures { IfOk result (λ made. made ≡ record simulation.entry { order = round 0 }) }
    {
        let actors = simulation.actors()?.fitted();
        let mut rooms = left.replace(LeftRooms::none(alloc));
        let simulation = simulation.into_packed(&mut rooms)?;
        left.set(rooms);
        Ok(PackedMoment {
            alloc,
            simulation,
            actors,
            monitors,
            left,
        })
    }

    /// The simulation, unpacked.
    fn unpacked(&self, alloc: Global) -> Result<Simulating<'a>, NoMemory>
        ensures { IfOk result (λ made. made ≡ self.now) }
    {
        let mut rooms = self.left.replace(LeftRooms::none(alloc));
        let simulation = self.simulation.unpacked(&mut rooms)?;
        self.left.set(rooms);
        Ok(simulation)
    }
}

impl<'a> Moment for PackedMoment<'a> {
    ghost now = { λ s. present s };

    #[tactic(auto, using(crate::proofs::Presents::actors_seen))]
    fn choices(&self, alloc: Global) -> Result<Words, NoMemory> {
        self.actors.copied(alloc)
    }

    fn after(&self, alloc: Global, index: usize) -> Result<PackedMoment<'a>, NoMemory> {
        let mut simulation = self.unpacked(alloc)?;
        let mut monitors = copy_all(alloc, &self.monitors)?;
        let chosen = simulation.choice(index)?;
        let mut unheard: Bus<CountListener> = Bus::of(alloc, Vec::new(alloc))?;
        take_judged(&mut simulation, &mut monitors, &mut unheard, chosen)?;
        PackedMoment::held(alloc, simulation, monitors, self.left)
    }

    #[tactic(auto, using(crate::proofs::Presents::same_now))]
    fn is_same(&self, other: &PackedMoment) -> bool {
        self.simulation.is_alike(&other.simulation)
            && do_judge_alike(&self.monitors, &other.monitors)
            && are_given_alike(self.alloc, &self.simulation, &other.simulation)
    }

    fn digest(&self) -> u64 {
        let digest = digest_of_parts(self.simulation.digest(), &self.simulation);
        digest_of_monitors(digest, &self.monitors)
    }

    #[tactic(auto, using(crate::proofs::Presents::outcome_made))]
    fn outcome(&self, alloc: Global) -> Result<Outcome, NoMemory> {
        let simulation = self.unpacked(alloc)?;
        let answers = simulation.answers()?;
        let parts = outcomes_of(alloc, &simulation, &self.monitors)?;
        Ok(Outcome { answers, parts })
    }

    fn numbers(&self, steps: u64) -> Result<MemberRow, NoMemory> {
        let simulation = self.unpacked(self.alloc)?;
        let failures = count_failures(&simulation)?;
        let gone = count_gone(simulation.answers()?.as_slice())?;
        let lost = count_lost(&self.monitors)?;
        let status = ReportStatus::of(is_any_broken(&self.monitors), is_any_given_up(&simulation));
        Ok(MemberRow {
            status: status.number(),
            events: steps,
            failures,
            gone,
            lost,
        })
    }
}

/// Whether the monitors judge and count alike from now on.
#[tactic(auto, using(crate::proofs::Loops::alike_more))]
fn do_judge_alike(monitors: &[Monitor], others: &[Monitor]) -> bool
    ensures { result ≡ true → MonitorsAlike monitors.now others.now }
{
    if monitors.len() != others.len() {
        return false;
    }
    for number in 0..monitors.len() {
        if !monitors[number].judges_alike(&others[number]) {
            return false;
        }
    }
    true
}

/// Mixes what the monitors know into a digest.
fn digest_of_monitors(digest: u64, monitors: &[Monitor]) -> u64 {
    let mut digest = digest;
    for monitor in monitors {
        digest = monitor.digest(digest);
    }
    digest
}
