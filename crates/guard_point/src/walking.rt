//! A burst, run one instruction at a time up to the one of a deed.

ghost use Rattle.std.specs.Prelude.{◌≡◌, ◌||◌, is_some, nat_le, nat_lt, IfOk};
ghost use Rattle.driver_isa.specs.Turns.{machine_of};
ghost use Rattle.guard_defs.specs.Turns.{turns_before};

use driver_isa::{Bus, run_turn, strike_due};
use nook_data::journal::SpareRooms;
use nook_data::limits::{MOST_ACTS, MOST_INSTRUCTIONS};
use nook_data::machine::{BurstEnd, Cpu};
use nook_data::memory::NoMemory;
use nook_data::scenario::Fault;
use std::alloc::Global;

/// The number of instructions in a burst before the one of a deed: of the act with this index, or of the crossing if
/// there is no such act. `faults` are those of the burst in the order in which they strike. The burst is run up to
/// and including that instruction.
pub fn turns_before<B: Bus>(
    alloc: Global,
    cpu: &mut Cpu,
    bus: &mut B,
    faults: &[Fault],
    index: u64,
) -> Result<u32, NoMemory>
    ensures { IfOk result (λ turns. turns ≡ turns_before index (B.entries bus.old) faults.now
        (machine_of cpu.old (B.words bus.old) (B.device bus.old))) }
{
    let mut spare = SpareRooms::new(alloc);
    let mut acts = spare.open_log()?;
    let mut pending = faults;
    for turns in 0..MOST_INSTRUCTIONS {
        let struck = strike_due(pending, turns, cpu.counter, &mut cpu.registers, bus);
        if struck.stopped.is_some() {
            return Ok(turns);
        }
        pending = struck.rest;
        let crossing = run_turn(cpu, bus, &mut acts);
        if is_last(crossing, acts.len() as u64, index) {
            return Ok(turns);
        }
    }
    Ok(MOST_INSTRUCTIONS)
}

/// Whether an instruction ends the burst or does the act with this index, given the number of acts up to it.
fn is_last(crossing: Option<BurstEnd>, acts: u64, index: u64) -> bool
    ensures { result ≡ (is_some crossing || nat_lt index acts || nat_le MOST_ACTS acts) }
{
    crossing.is_some() || acts > index || acts >= MOST_ACTS as u64
}
