//! Bursts: instructions up to a crossing, with the faults that strike between them.

ghost use Rattle.std.specs.Prelude.{◌≡◌, ◌<◌, ◌≤◌, ◌+◌, ◌-◌, ℕ, List, None, false, length, [], true};
ghost use Rattle.driver_isa.specs.Decoding.{instr_of, rest_instr};
ghost use Rattle.driver_isa.specs.Entries.{IsEntryAt, is_done};
ghost use Rattle.driver_isa.specs.Runs.{is_due, past_run};
ghost use Rattle.driver_isa.specs.Steps.{cpu_of};
ghost use Rattle.driver_isa.specs.Turns.{machine_of};
ghost use Rattle.machine_defs.specs.Burst.{burst as burst_of, burst_from, count_at};
ghost use Rattle.nook_data.specs.declared.machine.Act.{Act};

use crate::bus::Bus;
use crate::faults::strike_due;
use crate::instructions::{Decoded, same};
use crate::turn::{InstructionResult, Rest, compute, finish, is_done, take_turn};
use nook_data::journal::ActLog;
use nook_data::limits::{MOST_ACTS, MOST_INSTRUCTIONS};
use nook_data::lists::Word;
use nook_data::machine::{BurstEnd, Cpu, TrapCause};
use nook_data::memory_map::TEXT_WORDS;
use nook_data::scenario::Fault;

/// How a burst went: the number of its instructions, including a last one that trapped, and its end.
#[derive(Clone, Copy)]
pub struct BurstDone {
    pub count: u32,
    pub end: BurstEnd,
}

/// How far a run of instructions came: the burst's instructions so far, the counter, and the burst's end if reached.
#[derive(Clone, Copy)]
struct Run {
    count: u32,
    counter: Word,
    end: Option<BurstEnd>,
}

/// How far a run of entries came: the burst's instructions so far and the counter.
#[derive(Clone, Copy)]
struct Reached {
    count: u32,
    counter: Word,
}

/// An entry of which something is left to do, the instructions left from it on, and its index; or that none are left.
#[derive(Clone, Copy)]
struct Halt {
    at: usize,
    left: u32,
    rest: Rest,
    entry: Decoded,
}

/// A whole burst: its instructions, the counter that it left, and its end.
#[derive(Clone, Copy)]
struct Whole {
    count: u32,
    counter: Word,
    end: BurstEnd,
}

/// Runs one burst to its crossing. `faults` are those of this burst in rising order of `after`: one with
/// `after` = k strikes before instruction k + 1, those with the same k in list order. `acts` is empty, with full room.
/// It takes no memory.
// As a separate function, its loop has the processor's registers for itself.
#[inline(never)]
#[tactic(auto, unfolding(machine_defs::specs::Burst::burst))]
pub fn run_burst<B: Bus>(
    cpu: &mut Cpu,
    bus: &mut B,
    faults: &[Fault],
    acts: &mut ActLog,
) -> BurstDone
    requires { acts.old ≡ [] }
    ensures burst { burst_of (B.entries bus.old) faults.now
        (machine_of cpu.old (B.words bus.old) (B.device bus.old))
        ≡ record {
          machine = machine_of cpu.new (B.words bus.new) (B.device bus.new);
          acts = acts.new;
          count = result.count;
          ending = result.end;
        } }
    ensures entries { B.entries bus.new ≡ B.entries bus.old }
    ensures held { B.held bus.new ≡ B.held bus.old }
{
    let run = run_turns(cpu.counter, &mut cpu.registers, bus, faults, acts);
    cpu.counter = run.counter;
    BurstDone {
        count: run.count,
        end: run.end,
    }
}

/// The burst of a machine. The counter is passed and returned by value, so it stays in a register.
#[inline(always)]
fn run_turns<B: Bus>(
    first: Word,
    registers: &mut [Word; 16],
    bus: &mut B,
    faults: &[Fault],
    acts: &mut ActLog,
) -> Whole
    requires { acts.old ≡ [] }
    ensures burst { burst_from MOST_INSTRUCTIONS (B.entries bus.old) faults.now
        (machine_of (cpu_of first registers.old) (B.words bus.old) (B.device bus.old)) acts.old
        ≡ record {
          machine = machine_of (cpu_of result.counter registers.new) (B.words bus.new)
              (B.device bus.new);
          acts = acts.new;
          count = result.count;
          ending = result.end;
        } }
    ensures entries { B.entries bus.new ≡ B.entries bus.old }
    ensures held { B.held bus.new ≡ B.held bus.old }
{
    let mut pending = faults;
    let mut counter = first;
    let mut count = 0;
    while count < MOST_INSTRUCTIONS {
        let struck = strike_due(pending, count, counter, registers, bus);
        if let Some(cause) = struck.stopped {
            return stopped(count, counter, cause);
        }
        pending = struck.rest;
        let stop = next_stop(pending, count);
        let run = run_until(counter, count, stop, registers, bus, acts);
        count = run.count;
        counter = run.counter;
        if let Some(end) = run.end {
            return Whole {
                count,
                counter,
                end,
            };
        }
    }
    stopped(MOST_INSTRUCTIONS, counter, TrapCause::Hang)
}

/// Runs instructions up to a crossing or until `stop` of the burst are done. No fault strikes here: `went` holds for
/// faults of which none is due before that.
#[inline(always)]
fn run_until<B: Bus>(
    first: Word,
    before: u32,
    stop: u32,
    registers: &mut [Word; 16],
    bus: &mut B,
    acts: &mut ActLog,
) -> Run
    requires room { length acts.old < MOST_ACTS }
    requires some { before < stop }
    requires within { stop ≤ MOST_INSTRUCTIONS }
    ensures went { (pending : List Fault)
        → ((k : ℕ) → before ≤ k → k < stop → is_due k pending ≡ false)
        → burst_from (MOST_INSTRUCTIONS - before) (B.entries bus.old) pending
        (machine_of (cpu_of first registers.old) (B.words bus.old) (B.device bus.old)) acts.old
        ≡ past_run result.count (B.entries bus.new) pending
        (machine_of (cpu_of result.counter registers.new) (B.words bus.new) (B.device bus.new))
        acts.new result.end }
    ensures room { result.end ≡ None → length acts.new < MOST_ACTS }
    ensures further { before < result.count }
    ensures within { result.count ≤ stop }
    ensures entries { B.entries bus.new ≡ B.entries bus.old }
    ensures held { B.held bus.new ≡ B.held bus.old }
{
    let mut run = run_to(before, first, None);
    while run.end.is_none() && run.count < stop {
        run = run_some(run.counter, run.count, stop, registers, bus, acts);
    }
    run
}

/// Runs at least one instruction, up to a crossing or until `stop` of the burst are done. No fault strikes here either.
#[inline(always)]
fn run_some<B: Bus>(
    first: Word,
    before: u32,
    stop: u32,
    registers: &mut [Word; 16],
    bus: &mut B,
    acts: &mut ActLog,
) -> Run
    requires room { length acts.old < MOST_ACTS }
    requires some { before < stop }
    requires within { stop ≤ MOST_INSTRUCTIONS }
    ensures went { (pending : List Fault)
        → ((k : ℕ) → before ≤ k → k < stop → is_due k pending ≡ false)
        → burst_from (MOST_INSTRUCTIONS - before) (B.entries bus.old) pending
        (machine_of (cpu_of first registers.old) (B.words bus.old) (B.device bus.old)) acts.old
        ≡ past_run result.count (B.entries bus.new) pending
        (machine_of (cpu_of result.counter registers.new) (B.words bus.new) (B.device bus.new))
        acts.new result.end }
    ensures room { result.end ≡ None → length acts.new < MOST_ACTS }
    ensures further { before < result.count }
    ensures within { result.count ≤ stop }
    ensures entries { B.entries bus.new ≡ B.entries bus.old }
    ensures held { B.held bus.new ≡ B.held bus.old }
{
    let reached = run_entries(first, before, stop, registers, bus, acts);
    if reached.count < stop {
        return run_one(reached.counter, reached.count, registers, bus, acts);
    }
    Run {
        count: reached.count,
        counter: reached.counter,
        end: None,
    }
}

/// Runs instructions from the decoded text until `stop` of the burst are done, or up to one that ends the burst, leaves
/// the text or may do the last act.
// It has few locals, so that the processor's registers hold them.
#[inline(always)]
fn run_entries<B: Bus>(
    first: Word,
    before: u32,
    stop: u32,
    registers: &mut [Word; 16],
    bus: &mut B,
    acts: &mut ActLog,
) -> Reached
    requires room { length acts.old < MOST_ACTS }
    requires some { before < stop }
    requires within { stop ≤ MOST_INSTRUCTIONS }
    ensures went { (pending : List Fault)
        → ((k : ℕ) → before ≤ k → k < stop → is_due k pending ≡ false)
        → burst_from (MOST_INSTRUCTIONS - result.count) (B.entries bus.new) pending
        (machine_of (cpu_of result.counter registers.new) (B.words bus.new) (B.device bus.new))
        acts.new
        ≡ burst_from (MOST_INSTRUCTIONS - before) (B.entries bus.old) pending
        (machine_of (cpu_of first registers.old) (B.words bus.old) (B.device bus.old)) acts.old }
    ensures room { length acts.new < MOST_ACTS }
    ensures further { before ≤ result.count }
    ensures within { result.count ≤ stop }
    ensures entries { B.entries bus.new ≡ B.entries bus.old }
    ensures held { B.held bus.new ≡ B.held bus.old }
{
    if first >= TEXT_WORDS {
        return Reached {
            count: before,
            counter: first,
        };
    }
    let mut at = first as usize;
    let mut left = stop - before;
    while left > 0 {
        let halt = run_computed(at, left, registers, bus);
        let reached = Reached {
            count: stop - halt.left,
            counter: halt.at as u32,
        };
        if is_done(halt.rest) {
            return reached;
        }
        at = match finish(halt.rest, halt.entry, halt.at, registers, bus, acts) {
            Some(next) => next,
            None => return reached,
        };
        left = halt.left - 1;
    }
    Reached {
        count: stop,
        counter: at as u32,
    }
}

/// Runs as many entries as only read the bus, `most` at most.
#[inline(always)]
fn run_computed<B: Bus>(first: usize, most: u32, registers: &mut [Word; 16], bus: &B) -> Halt
    requires { first ≤ TEXT_WORDS }
    ensures went { (stop : ℕ) (pending : List Fault) (acts : List Act)
        → most ≤ stop → stop ≤ MOST_INSTRUCTIONS → length acts < MOST_ACTS
        → ((k : ℕ) → stop - most ≤ k → k < stop → is_due k pending ≡ false)
        → burst_from (MOST_INSTRUCTIONS - (stop - result.left)) (B.entries bus.now) pending
        (machine_of (cpu_of result.at registers.new) (B.words bus.now) (B.device bus.now)) acts
        ≡ burst_from (MOST_INSTRUCTIONS - (stop - most)) (B.entries bus.now) pending
        (machine_of (cpu_of first registers.old) (B.words bus.now) (B.device bus.now)) acts }
    ensures most { result.left ≤ most }
    ensures some { is_done result.rest ≡ false → 0 < result.left }
    ensures all { is_done result.rest ≡ true → result.left ≡ 0 }
    ensures inside { result.at ≤ TEXT_WORDS }
    ensures entry { IsEntryAt (instr_of result.entry) (B.words bus.now) result.at }
    ensures rest { is_done result.rest ≡ false → instr_of result.entry
        ≡ rest_instr result.rest result.entry.a result.entry.b result.entry.imm }
{
    let text = bus.text();
    let mut at = first;
    let mut left = most;
    while left > 0 {
        let entry = &text[at];
        let computed = compute(entry, at, registers, bus);
        if !is_done(computed.rest) {
            return Halt {
                at,
                left,
                rest: computed.rest,
                entry: same(entry),
            };
        }
        at = computed.at;
        left -= 1;
    }
    Halt {
        at,
        left,
        rest: Rest::Nothing,
        entry: text[at],
    }
}

/// Runs any one instruction.
// Not inlined: it is seldom called.
#[inline(never)]
fn run_one<B: Bus>(
    counter: Word,
    count: u32,
    registers: &mut [Word; 16],
    bus: &mut B,
    acts: &mut ActLog,
) -> Run
    requires room { length acts.old < MOST_ACTS }
    requires within { count < MOST_INSTRUCTIONS }
    ensures went { (pending : List Fault) → is_due count pending ≡ false
        → burst_from (MOST_INSTRUCTIONS - count) (B.entries bus.old) pending
        (machine_of (cpu_of counter registers.old) (B.words bus.old) (B.device bus.old)) acts.old
        ≡ past_run result.count (B.entries bus.new) pending
        (machine_of (cpu_of result.counter registers.new) (B.words bus.new) (B.device bus.new))
        acts.new result.end }
    ensures room { result.end ≡ None → length acts.new < MOST_ACTS }
    ensures count { result.count ≡ count + 1 }
    ensures entries { B.entries bus.new ≡ B.entries bus.old }
    ensures held { B.held bus.new ≡ B.held bus.old }
{
    let next = counter.wrapping_add(1);
    match take_turn(counter, registers, bus, acts) {
        InstructionResult::Next => run_to(count + 1, next, None),
        InstructionResult::Acted if acts.len() >= MOST_ACTS => {
            run_to(count + 1, next, Some(BurstEnd::Pause))
        }
        InstructionResult::Acted => run_to(count + 1, next, None),
        InstructionResult::To(target) => run_to(count + 1, target, None),
        InstructionResult::Ended { last, end } => run_to(count + 1, last, Some(end)),
    }
}

/// A run that came so far.
fn run_to(count: u32, counter: Word, end: Option<BurstEnd>) -> Run
    ensures { result ≡ record { count = count; counter = counter; end = end } }
{
    Run {
        count,
        counter,
        end,
    }
}

/// The number of instructions before the next fault, or in a whole burst if no later fault is due.
fn next_stop(pending: &[Fault], count: u32) -> u32
    requires within { count < MOST_INSTRUCTIONS }
    requires clear { is_due count pending.now ≡ false }
    ensures further { count < result }
    ensures within { result ≤ MOST_INSTRUCTIONS }
    ensures quiet { (k : ℕ) → count ≤ k → k < result → is_due k pending.now ≡ false }
{
    match pending {
        [fault, ..] if count < fault.after && fault.after < MOST_INSTRUCTIONS => fault.after,
        _ => MOST_INSTRUCTIONS,
    }
}

/// The end of a burst that a trap stops before or in an instruction; a Hang counts as a whole burst.
fn stopped(count: u32, counter: Word, cause: TrapCause) -> Whole
    ensures count { result.count ≡ count_at count cause }
    ensures counter { result.counter ≡ counter }
    ensures cause { result.end ≡ BurstEnd.Trap cause }
{
    let count = match cause {
        TrapCause::Hang => MOST_INSTRUCTIONS,
        _ => count,
    };
    Whole {
        count,
        counter,
        end: BurstEnd::Trap(cause),
    }
}
