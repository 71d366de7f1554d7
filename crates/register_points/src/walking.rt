//! The instructions of a burst, run one at a time.

ghost use Rattle.std.specs.Prelude.{◌≡◌, ◌||◌, [], is_some, nat_le, option_map, unwrap_or, IfOk, None};
ghost use Rattle.driver_isa.specs.Turns.{machine_of};
ghost use Rattle.register_laws.specs.Uses.{instr_in, instrs_from};
ghost use Rattle.machine_defs.specs.Pages.{fetch_word};

use driver_isa::{Bus, decode, run_turn};
use nook_data::journal::SpareRooms;
use nook_data::limits::{MOST_ACTS, MOST_INSTRUCTIONS};
use nook_data::lists::{Items, Word};
use nook_data::machine::{BurstEnd, Cpu, Instr};
use nook_data::memory::NoMemory;
use nook_data::memory_map::TEXT_WORDS;
use std::alloc::Global;

/// The instructions of a burst without faults, in the order in which they are executed, except the one that ends it.
/// The burst is run.
pub fn instrs_of<B: Bus>(
    alloc: Global,
    cpu: &mut Cpu,
    bus: &mut B,
) -> Result<Items<Option<Instr>>, NoMemory>
    ensures { IfOk result (λ instrs. instrs ≡ instrs_from MOST_INSTRUCTIONS (B.entries bus.old)
        (machine_of cpu.old (B.words bus.old) (B.device bus.old)) []) }
{
    let mut spare = SpareRooms::new(alloc);
    let mut acts = spare.open_log()?;
    let mut instrs = Items::new(alloc);
    for _turn in 0..MOST_INSTRUCTIONS {
        let instr = instr_at(bus, cpu.counter);
        let crossing = run_turn(cpu, bus, &mut acts);
        if is_last(crossing, acts.len()) {
            return Ok(instrs);
        }
        instrs.push(instr)?;
    }
    Ok(instrs)
}

/// The instruction at a counter, if the word there is one and may be fetched.
fn instr_at<B: Bus>(bus: &B, counter: Word) -> Option<Instr>
    ensures { result ≡ instr_in (fetch_word (B.words bus.now) counter) }
{
    if counter >= TEXT_WORDS {
        return None;
    }
    decode(bus.read(counter)?)
}

/// Whether an instruction ends the burst, given the number of acts up to it.
fn is_last(crossing: Option<BurstEnd>, acts: usize) -> bool
    ensures { result ≡ (is_some crossing || nat_le MOST_ACTS acts) }
{
    crossing.is_some() || acts >= MOST_ACTS
}
