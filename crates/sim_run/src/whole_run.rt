//! The run of a scenario.

ghost use Rattle.std.specs.Prelude.{ℕ, IfOk, OnErr, map};
ghost use Rattle.nook_data.specs.Valid.{IsValidScenario};
ghost use Rattle.request_taps.specs.Bus.{seen};
ghost use Rattle.run_results.specs.Reports.{HaveEnds};
ghost use Rattle.run_results.specs.Journals.{AreRuns, events_in};
ghost use Rattle.sim_run.specs.Bursts.{LeadsToBurst};
ghost use Rattle.sim_run.specs.Whole.{HeardSteps, IsSimulated, IsWhole};

use crate::simulating::Simulating;
use domain_call::Domain;
use nook_data::memory::NoMemory;
use nook_data::scenario::Scenario;
use nook_data::steps::Event;
use nook_io::listeners::CountListener;
use nook_io::outside::Listener;
use part_core::LeftRooms;
use request_taps::Bus;
use run_ends::WholeRun;
use std::alloc::Global;

/// More steps than any scenario's run has: each of at most 8 parts makes fewer than 2^23 events.
pub const MOST_STEPS: u32 = 67_108_864;

/// Runs a valid scenario: its actors take steps under its schedule until none has one. The journals and answers are
/// those of the scheduled run. Each part's journal is a run of the part, and leads to the final state that is returned.
/// The taps have heard each event of the run in order, and their totals are returned. After `NoMemory` they have heard
/// the events of the first steps.
pub fn simulate<L: Listener>(
    alloc: Global,
    scenario: &Scenario,
    taps: &mut Bus<L>,
) -> Result<WholeRun, NoMemory>
    requires { IsValidScenario scenario.now }
    ensures simulated { IfOk result
        (λ whole. IsSimulated scenario.now whole.run.journals whole.run.answers whole.run.taps
        (map (seen L.listening) taps.old) (map (seen L.listening) taps.new)) }
    ensures runs { IfOk result
        (λ whole. AreRuns scenario.now.parts (map events_in whole.run.journals)) }
    ensures ends { IfOk result
        (λ whole. HaveEnds scenario.now.parts whole.run.journals whole.ends) }
    ensures heard { OnErr result ((steps : ℕ) × HeardSteps scenario.now steps
        (map (seen L.listening) taps.old) (map (seen L.listening) taps.new)) }
{
    simulate_over(alloc, scenario, taps, &mut LeftRooms::none(alloc))
}

/// Like `simulate`, but reuses the memory that the parts of earlier runs left. This run's parts leave theirs.
pub fn simulate_over<L: Listener>(
    alloc: Global,
    scenario: &Scenario,
    taps: &mut Bus<L>,
    left: &mut LeftRooms,
) -> Result<WholeRun, NoMemory>
    requires { IsValidScenario scenario.now }
    ensures simulated { IfOk result
        (λ whole. IsSimulated scenario.now whole.run.journals whole.run.answers whole.run.taps
        (map (seen L.listening) taps.old) (map (seen L.listening) taps.new)) }
    ensures runs { IfOk result
        (λ whole. AreRuns scenario.now.parts (map events_in whole.run.journals)) }
    ensures ends { IfOk result
        (λ whole. HaveEnds scenario.now.parts whole.run.journals whole.ends) }
    ensures heard { OnErr result ((steps : ℕ) × HeardSteps scenario.now steps
        (map (seen L.listening) taps.old) (map (seen L.listening) taps.new)) }
{
    let simulation = run_whole(alloc, scenario, taps, left)?;
    let totals = taps.totals(alloc)?;
    simulation.into_run(totals, left)
}

/// The whole run of a valid scenario.
fn run_whole<'a, L: Listener>(
    alloc: Global,
    scenario: &'a Scenario,
    taps: &mut Bus<L>,
    left: &mut LeftRooms,
) -> Result<Simulating<'a>, NoMemory>
    requires { IsValidScenario scenario.now }
    ensures whole { IfOk result (λ simulation. IsWhole scenario.now simulation
        (map (seen L.listening) taps.old) (map (seen L.listening) taps.new)) }
    ensures heard { OnErr result ((steps : ℕ) × HeardSteps scenario.now steps
        (map (seen L.listening) taps.old) (map (seen L.listening) taps.new)) }
{
    let mut simulation = Simulating::new(alloc, scenario, left)?;
    for _step in 0..MOST_STEPS {
        if !simulation.advance(taps)? {
            return Ok(simulation);
        }
    }
    unreachable!()
}

/// A burst of a run: its event, and the part's domain before the burst's step.
#[derive(Drop)]
pub struct FoundBurst {
    pub domain: Domain,
    pub event: Event,
}

/// Runs a valid scenario up to burst `number` of part `index`, both numbered as in the report, and no further: its
/// actors take steps under its schedule until that burst. `None` if the scenario's run has no such burst. Only the
/// domain is copied, and only when the burst is chosen; no step is taken twice.
///
/// # Errors
///
/// Out of memory.
pub fn run_to_burst(
    alloc: Global,
    scenario: &Scenario,
    index: u32,
    number: u32,
) -> Result<Option<FoundBurst>, NoMemory>
    requires { IsValidScenario scenario.now }
    ensures { IfOk result (LeadsToBurst scenario.now index number) }
{
    let mut unheard: Bus<CountListener> = Bus::of(alloc, Vec::new(alloc))?;
    let mut simulation = Simulating::new(alloc, scenario, &mut LeftRooms::none(alloc))?;
    for _step in 0..MOST_STEPS {
        let Some(chosen) = simulation.choose()? else {
            return Ok(None);
        };
        if simulation.is_burst(&chosen, index, number) {
            return Ok(Some(simulation.into_last(chosen)?));
        }
        simulation.take(&mut unheard, chosen)?;
    }
    unreachable!()
}
