//! The instructions of a burst in a scenario's run.

ghost use Rattle.std.specs.Prelude.{◌≡◌, IfOk};
ghost use Rattle.nook_data.specs.Valid.{IsValidScenario};
ghost use Rattle.register_points.specs.Found.{AreKnown, has_faults, instrs_by, instrs_found};

use crate::walking::instrs_of;
use domain_call::Domain;
use nook_data::lists::Items;
use nook_data::machine::{Context, Instr};
use nook_data::memory::NoMemory;
use nook_data::scenario::{Fault, Scenario};
use nook_data::steps::Event;
use sim_run::{FoundBurst, run_to_burst};
use std::alloc::Global;

/// The instructions of burst number `burst` of part `index` in the scheduled run of a valid scenario, except the one
/// that ends the burst. There are none if the run has no such burst, or if faults of the part strike in it.
///
/// # Errors
///
/// Out of memory.
pub fn instrs_of_burst(
    alloc: Global,
    scenario: &Scenario,
    index: u32,
    burst: u32,
) -> Result<Items<Option<Instr>>, NoMemory>
    requires { IsValidScenario scenario.now }
    ensures { IfOk result (AreKnown scenario.now index burst) }
{
    let Some(spec) = scenario.parts.as_slice().get(index as usize) else {
        return Ok(Items::new(alloc));
    };
    if has_faults(spec.faults.as_slice(), burst) {
        return Ok(Items::new(alloc));
    }
    match run_to_burst(alloc, scenario, index, burst)? {
        Some(found) => instrs_shown(alloc, found),
        None => Ok(Items::new(alloc)),
    }
}

/// The instructions of a burst that was found.
fn instrs_shown(alloc: Global, found: FoundBurst) -> Result<Items<Option<Instr>>, NoMemory>
    ensures { IfOk result (λ instrs. instrs ≡ instrs_found found.domain.state found.event) }
{
    let FoundBurst { domain, event } = found;
    instrs_found(alloc, domain, &event)
}

/// Whether there are faults of a burst.
fn has_faults(faults: &[Fault], burst: u32) -> bool
    ensures { result ≡ has_faults burst faults.now }
{
    faults.iter().any(|fault| fault.burst == burst)
}

/// The instructions of an event's burst, from the domain before it.
fn instrs_found(
    alloc: Global,
    domain: Domain,
    event: &Event,
) -> Result<Items<Option<Instr>>, NoMemory>
    ensures { IfOk result (λ instrs. instrs ≡ instrs_found domain.state event.now) }
{
    match event {
        Event::Burst { context, .. } => match domain.find_inside(*context) {
            Some(inside) => instrs_inside(alloc, domain, &inside),
            None => Ok(Items::new(alloc)),
        },
        _ => Ok(Items::new(alloc)),
    }
}

/// The instructions of the burst of what runs in a context.
fn instrs_inside(
    alloc: Global,
    domain: Domain,
    inside: &Context,
) -> Result<Items<Option<Instr>>, NoMemory>
    ensures { IfOk result (λ instrs. instrs ≡ instrs_by inside.now domain.state) }
{
    let mut cpu = inside.cpu;
    let mut bus = domain.detach();
    instrs_of(alloc, &mut cpu, &mut bus)
}
