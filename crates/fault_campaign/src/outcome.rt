//! The run that a campaign makes of a scenario, which is guarded if the campaign has a guard.

ghost use Rattle.std.specs.Prelude.{◌≡◌, true, IfOk};
ghost use Rattle.campaign_defs.specs.Members.{CanRunUnder};
ghost use Rattle.fault_campaign.specs.Outcomes.{IsOutcomeOf, IsScheduledReport, scenario_run, trap_count};
ghost use Rattle.nook_data.specs.Valid.{IsValidScenario};

use guarded_run::{Guarded, guard_scenario};
use nook_data::memory::NoMemory;
use nook_data::scenario::Scenario;
use part_core::LeftRooms;
use request_taps::TapBus;
use run_results::{Report, report_of};
use sim_run::simulate_over;
use std::alloc::Global;

/// The status of a run in which a part broke its contract.
const BROKEN: u32 = 7;

/// The report of a run. If the guard needed traps, the run is that of the guarded scenario.
#[derive(Drop)]
pub struct Outcome {
    pub report: Report,
    pub guarded: Option<Guarded>,
}

impl Outcome {
    /// The scenario that was run: the guarded one, or the given one if no trap was needed.
    pub fn scenario<'a>(&'a self, given: &'a Scenario) -> &'a Scenario
        ensures { result.now ≡ scenario_run self.now.guarded given.now }
    {
        match &self.guarded {
            Some(guarded) => &guarded.scenario,
            None => given,
        }
    }

    /// The number of traps that the guard needed.
    pub fn trap_count(&self) -> u64
        ensures { result ≡ trap_count self.now.guarded }
    {
        match &self.guarded {
            Some(guarded) => guarded.stops.len() as u64,
            None => 0,
        }
    }
}

/// Runs a scenario as a campaign does. A campaign with a guard first runs it without the guard, since most members
/// break nothing, and guards it only after a run that broke a contract. The parts reuse the memory for acts that
/// earlier runs left, and leave theirs.
///
/// # Errors
///
/// Out of memory.
pub fn run_under(
    alloc: Global,
    guard: bool,
    scenario: &Scenario,
    left: &mut LeftRooms,
) -> Result<Outcome, NoMemory>
    requires { CanRunUnder guard scenario.now }
    ensures { IfOk result (IsOutcomeOf guard scenario.now) }
{
    let report = report_run(alloc, scenario, left)?;
    if guard && report.status == BROKEN {
        return run_guarded(alloc, scenario, left);
    }
    Ok(Outcome {
        report,
        guarded: None,
    })
}

/// Guards a scenario, and runs the guarded one.
fn run_guarded(
    alloc: Global,
    scenario: &Scenario,
    left: &mut LeftRooms,
) -> Result<Outcome, NoMemory>
    requires { CanRunUnder true scenario.now }
    ensures { IfOk result (IsOutcomeOf true scenario.now) }
{
    let guarded = guard_scenario(alloc, scenario)?;
    let report = report_run(alloc, &guarded.scenario, left)?;
    Ok(Outcome {
        report,
        guarded: Some(guarded),
    })
}

/// The report of a valid scenario's scheduled run, without listeners.
fn report_run(alloc: Global, scenario: &Scenario, left: &mut LeftRooms) -> Result<Report, NoMemory>
    requires { IsValidScenario scenario.now }
    ensures { IfOk result (IsScheduledReport scenario.now) }
{
    let mut unheard = TapBus::new(alloc, Vec::new(alloc))?;
    let whole = simulate_over(alloc, scenario, &mut unheard, left)?;
    report_of(alloc, scenario, whole.run, whole.ends)
}
