//! The guard's trap of a burst.

ghost use Rattle.std.specs.Prelude.{◌≡◌, ℕ, IfOk};
ghost use Rattle.guard_defs.specs.Turns.{turns_before};
ghost use Rattle.guard_point.specs.Placing.{stop_before, turns_by};
ghost use Rattle.guard_point.specs.Stopping.{StopsBurst};
ghost use Rattle.machine_defs.specs.BurstFaults.{faults_of_burst};
ghost use Rattle.part_defs.specs.Domain.{context_of, machine_of};

use crate::walking::turns_before;
use contract_monitor::{Monitor, WrongDeed};
use domain_call::Domain;
use fault_script::FaultScript;
use nook_data::clause::Clause;
use nook_data::lists::Items;
use nook_data::machine::Context;
use nook_data::memory::NoMemory;
use nook_data::scenario::{Fault, FaultKind};
use nook_data::steps::Event;
use std::alloc::Global;

/// The guard's trap of a burst, and the smallest clause that the deed after it would have broken. `domain` is that of
/// the part before the burst, `event` the burst's, `faults` those of the part, and `monitor` has seen the part's
/// journal before the burst and found no break. `None` if the burst breaks nothing.
///
/// # Errors
///
/// Out of memory.
pub fn stop_burst(
    alloc: Global,
    domain: Domain,
    event: &Event,
    faults: &[Fault],
    monitor: &Monitor,
) -> Result<Option<(Fault, Clause)>, NoMemory>
    ensures { IfOk result (StopsBurst domain.state event.now faults.now monitor.now) }
{
    match monitor.first_wrong(event)? {
        Some(wrong) => stop_before(alloc, domain, event, faults, wrong),
        None => Ok(None),
    }
}

/// The trap before the instruction of a burst's deed, and the clause that the deed breaks.
fn stop_before(
    alloc: Global,
    domain: Domain,
    event: &Event,
    faults: &[Fault],
    wrong: WrongDeed,
) -> Result<Option<(Fault, Clause)>, NoMemory>
    ensures { IfOk result (λ stop. stop ≡ stop_before wrong event.now faults.now domain.state) }
{
    match event {
        Event::Burst { context, burst, .. } => {
            let after = turns_in(alloc, domain, *context, *burst, faults, wrong.index)?;
            let trap = Fault {
                burst: *burst,
                after,
                kind: FaultKind::Trap,
            };
            Ok(Some((trap, wrong.clause)))
        }
        _ => Ok(None),
    }
}

/// The number of instructions in a context's burst before the one of a deed; 0 if nothing runs in the context.
fn turns_in(
    alloc: Global,
    domain: Domain,
    context: u8,
    burst: u32,
    faults: &[Fault],
    index: u64,
) -> Result<u32, NoMemory>
    ensures { IfOk result (λ turns. turns
        ≡ turns_by index (faults_of_burst burst faults.now) domain.state
        (context_of context domain.state.contexts)) }
{
    match domain.find_inside(context) {
        Some(inside) => {
            let script = script_of(alloc, faults)?;
            turns_inside(alloc, domain, &inside, script.faults_at(burst), index)
        }
        None => Ok(0),
    }
}

/// The faults of a part in the order in which they strike.
fn script_of(alloc: Global, faults: &[Fault]) -> Result<FaultScript, NoMemory>
    ensures { IfOk result (λ script. (burst : ℕ)
        → faults_of_burst burst script ≡ faults_of_burst burst faults.now) }
{
    let mut own = Vec::with_capacity(alloc, faults.len())?;
    own.extend_from_slice(faults)?;
    FaultScript::new(Items::from_vec(own))
}

/// The number of instructions before the one of a deed, in the burst of what runs in a context. `faults` are those of
/// the burst in the order in which they strike.
fn turns_inside(
    alloc: Global,
    domain: Domain,
    inside: &Context,
    faults: &[Fault],
    index: u64,
) -> Result<u32, NoMemory>
    ensures { IfOk result (λ turns. turns
        ≡ turns_before index domain.state.entries faults.now (machine_of inside.now domain.state)) }
{
    let mut cpu = inside.cpu;
    let mut bus = domain.detach();
    turns_before(alloc, &mut cpu, &mut bus, faults, index)
}
