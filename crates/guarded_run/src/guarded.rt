//! A guarded scenario.

ghost use Rattle.std.specs.Prelude.{◌≡◌, ◌<◌, ◌++◌, [], ◌∷◌, All, IfOk, OnOk, length};
ghost use Rattle.guard_defs.specs.FirstBreaks.{IsFirstStop};
ghost use Rattle.guard_defs.specs.Guard.{HasRoom};
ghost use Rattle.guarded_run.specs.Guarded.{IsGuarded};
ghost use Rattle.guarded_run.specs.NextStop.{IsNextStop};
ghost use Rattle.nook_data.specs.Members.{struck, with_fault};
ghost use Rattle.nook_data.specs.Valid.{IsValidScenario};
ghost use Rattle.sim_run.specs.Breaks.{IsWrongBurst};

use guard_defs::stop::{Stop, Stops};
use guard_point::stop_burst;
use nook_data::lists::{Items, TryCopy};
use nook_data::memory::NoMemory;
use nook_data::scenario::{Fault, PartSpec, Scenario};
use sim_run::{WrongBurst, run_to_break};
use std::alloc::Global;

/// More rounds than a scenario has traps: each of at most 8 parts fails at most 17 times.
const MOST_ROUNDS: u32 = 137;

/// A scenario with its guard's traps added after the faults of its parts, and these traps in the order in which they
/// were found.
#[derive(Drop)]
pub struct Guarded {
    pub scenario: Scenario,
    pub stops: Stops,
}

impl Guarded {
    /// The scenario unchanged, with no trap.
    fn new(alloc: Global, scenario: &Scenario) -> Result<Guarded, NoMemory>
        ensures scenario { IfOk result (λ guarded. guarded.scenario ≡ scenario.now) }
        ensures stops { IfOk result (λ guarded. guarded.stops ≡ []) }
    {
        Ok(Guarded {
            scenario: scenario.copy(alloc)?,
            stops: Items::new(alloc),
        })
    }

    /// Adds a trap after the faults of its part, and after the traps that were found before.
    fn add(&mut self, alloc: Global, stop: Stop) -> Result<(), NoMemory>
        requires { stop.part < length self.old.scenario.parts }
        ensures scenario { OnOk result
            (self.new.scenario ≡ struck self.old.scenario stop.part stop.trap) }
        ensures stops { OnOk result (self.new.stops ≡ self.old.stops ++ stop ∷ []) }
    {
        strike(alloc, &mut self.scenario, stop.part, stop.trap)?;
        self.stops.push(stop)
    }
}

/// Guards a valid scenario, each part of which has room for the traps that it may need: runs it repeatedly, with one
/// more trap each time, until its drivers break no clause of their contracts.
///
/// # Errors
///
/// Out of memory.
pub fn guard_scenario(alloc: Global, scenario: &Scenario) -> Result<Guarded, NoMemory>
    requires valid { IsValidScenario scenario.now }
    requires room { All HasRoom scenario.now.parts }
    ensures { IfOk result (λ guarded. IsGuarded scenario.now guarded) }
{
    let mut guarded = Guarded::new(alloc, scenario)?;
    for _round in 0..MOST_ROUNDS {
        let Some(stop) = next_stop(alloc, &guarded.scenario)? else {
            return Ok(guarded);
        };
        guarded.add(alloc, stop)?;
    }
    unreachable!()
}

/// The guard's first trap of a valid scenario; `None` if its run breaks no clause.
fn next_stop(alloc: Global, scenario: &Scenario) -> Result<Option<Stop>, NoMemory>
    requires { IsValidScenario scenario.now }
    ensures { IfOk result (IsNextStop scenario.now) }
{
    match run_to_break(alloc, scenario)? {
        Some(wrong) => Ok(Some(stop_before(alloc, scenario, wrong)?)),
        None => Ok(None),
    }
}

/// The trap before the first deed that breaks a clause, in the first burst of a scenario's run that breaks any.
fn stop_before(alloc: Global, scenario: &Scenario, wrong: WrongBurst) -> Result<Stop, NoMemory>
    requires { IsWrongBurst scenario.now wrong }
    ensures { IfOk result (IsFirstStop scenario.now) }
{
    let WrongBurst {
        part,
        domain,
        event,
        monitor,
    } = wrong;
    let faults = scenario.parts.get(part as usize).faults.as_slice();
    let Some((trap, clause)) = stop_burst(alloc, domain, &event, faults, &monitor)? else {
        unreachable!()
    };
    Ok(Stop { part, trap, clause })
}

/// Adds a fault after those of the part with this index.
#[tactic(auto, using(crate::proofs::Striking::struck_by))]
fn strike(alloc: Global, scenario: &mut Scenario, index: u32, fault: Fault) -> Result<(), NoMemory>
    requires { index < length scenario.old.parts }
    ensures { OnOk result (scenario.new ≡ struck scenario.old index fault) }
{
    let index = index as usize;
    let part = with_fault(alloc, scenario.parts.get(index), fault)?;
    scenario.parts.set(index, part);
    Ok(())
}

/// A part with one more fault, after its own.
fn with_fault(alloc: Global, part: &PartSpec, fault: Fault) -> Result<PartSpec, NoMemory>
    ensures { IfOk result (λ made. made ≡ with_fault fault part.now) }
{
    let mut made = part.copy(alloc)?;
    made.faults.push(fault)?;
    Ok(made)
}
