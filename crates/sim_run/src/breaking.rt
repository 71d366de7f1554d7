//! The first burst of a run that breaks a clause of its class's contract.
//!
//! It is found in two passes, since a run is determined by its scenario: the first counts the steps before the break,
//! the second takes them again. So a domain is copied only once, not at each burst.

ghost use Rattle.std.specs.Prelude.{◌≡◌, IfOk, OnOk, slice_get};
ghost use Rattle.nook_data.specs.Valid.{IsValidScenario};
ghost use Rattle.run_defs.specs.Simulation.{begins, runs, stepped_by};
ghost use Rattle.sim_run.specs.Breaks.{BreaksAfter, HasBreakAfter, IsWrongBurst, LeadsToBreak};
ghost use Rattle.sim_run.specs.Reached.{IsOpenChoice};
ghost use Rattle.sim_run.specs.Watched.{HaveSeen, has_broken_at};

use crate::chosen::Chosen;
use crate::simulating::Simulating;
use crate::whole_run::{FoundBurst, MOST_STEPS};
use contract_monitor::Monitor;
use domain_call::Domain;
use nook_data::memory::NoMemory;
use nook_data::scenario::Scenario;
use nook_data::steps::Event;
use nook_io::listeners::CountListener;
use part_core::LeftRooms;
use request_taps::Bus;
use std::alloc::Global;

/// A burst of a run that breaks a clause: its part, the part's domain before the burst's step, its event, and
/// what the contract knew of the part before the burst.
#[derive(Drop)]
pub struct WrongBurst {
    pub part: u32,
    pub domain: Domain,
    pub event: Event,
    pub monitor: Monitor,
}

/// Runs a valid scenario up to the first burst, over all its parts, that breaks a clause of its class contract. `None`
/// if the whole run breaks none.
///
/// # Errors
///
/// Out of memory.
pub fn run_to_break(alloc: Global, scenario: &Scenario) -> Result<Option<WrongBurst>, NoMemory>
    requires { IsValidScenario scenario.now }
    ensures { IfOk result (LeadsToBreak scenario.now) }
{
    match steps_to_break(alloc, scenario)? {
        Some(steps) => Ok(Some(burst_following(alloc, scenario, steps)?)),
        None => Ok(None),
    }
}

/// The number of steps before the first break of a valid scenario's run. `None` if the whole run breaks no
/// clause.
fn steps_to_break(alloc: Global, scenario: &Scenario) -> Result<Option<u32>, NoMemory>
    requires { IsValidScenario scenario.now }
    ensures { IfOk result (HasBreakAfter scenario.now) }
{
    let mut unheard: Bus<CountListener> = Bus::of(alloc, Vec::new(alloc))?;
    let mut simulation = Simulating::new(alloc, scenario, &mut LeftRooms::none(alloc))?;
    let mut monitors = simulation.monitors()?;
    for step in 0..MOST_STEPS {
        let Some(chosen) = simulation.choose()? else {
            return Ok(None);
        };
        if take_judged(&mut simulation, &mut monitors, &mut unheard, chosen)? {
            return Ok(Some(step));
        }
    }
    unreachable!()
}

/// Takes a choice that may be taken, and shows the event to the monitor of its part. Returns whether the part has then
/// broken a clause.
pub fn take_judged(
    simulation: &mut Simulating,
    monitors: &mut [Monitor],
    unheard: &mut Bus<CountListener>,
    chosen: Chosen,
) -> Result<bool, NoMemory>
    requires choice { IsOpenChoice simulation.old.parts chosen }
    requires seen { HaveSeen simulation.old.parts monitors.old }
    ensures taken { OnOk result (simulation.new
        ≡ stepped_by simulation.old simulation.old.order chosen
        (slice_get simulation.old.parts chosen.part)) }
    ensures seen { OnOk result (HaveSeen simulation.new.parts monitors.new) }
    ensures broken { IfOk result
        (λ broken. broken ≡ has_broken_at (slice_get simulation.new.parts chosen.part)) }
{
    let index = chosen.part();
    simulation.take(unheard, chosen)?;
    simulation.judge_newest(index, &mut monitors[index as usize])
}

/// The burst after this many steps of a valid scenario's run, which is the first that breaks a clause.
fn burst_following(alloc: Global, scenario: &Scenario, steps: u32) -> Result<WrongBurst, NoMemory>
    requires valid { IsValidScenario scenario.now }
    requires breaks { BreaksAfter scenario.now steps }
    ensures { IfOk result (IsWrongBurst scenario.now) }
{
    let mut simulation = run_for(alloc, scenario, steps)?;
    let Some(chosen) = simulation.choose()? else {
        unreachable!()
    };
    let part = chosen.part();
    let monitor = simulation.monitor(part)?;
    let FoundBurst { domain, event } = simulation.into_last(chosen)?;
    Ok(WrongBurst {
        part,
        domain,
        event,
        monitor,
    })
}

/// The run of a valid scenario after this many steps; the whole run if it has fewer.
fn run_for<'a>(
    alloc: Global,
    scenario: &'a Scenario,
    steps: u32,
) -> Result<Simulating<'a>, NoMemory>
    requires { IsValidScenario scenario.now }
    ensures { IfOk result (λ simulation. simulation ≡ runs steps (begins scenario.now)) }
{
    let mut unheard: Bus<CountListener> = Bus::of(alloc, Vec::new(alloc))?;
    let mut simulation = Simulating::new(alloc, scenario, &mut LeftRooms::none(alloc))?;
    for _step in 0..steps {
        simulation.advance(&mut unheard)?;
    }
    Ok(simulation)
}
