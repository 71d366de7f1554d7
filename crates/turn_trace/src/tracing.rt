//! One burst, traced instruction by instruction.

ghost use Rattle.std.specs.Prelude.{◌≡◌, map, IfOk, OnOk};
ghost use Rattle.driver_isa.specs.Turns.{machine_of};
ghost use Rattle.machine_defs.specs.Burst.{strikes_at};
ghost use Rattle.turn_trace.specs.Bursts.{burst_trace, strike as struck_step, struck_at};
ghost use Rattle.nook_io.specs.Changes.{change};
ghost use Rattle.report_text.specs.Writing.{Wrote};
ghost use Rattle.turn_trace.specs.Lines.{step_lines};

use crate::traced::take_turn;
use crate::writing::{write_strike, write_turn};
use driver_isa::{Bus, strike};
use nook_data::journal::SpareRooms;
use nook_data::limits::{MOST_ACTS, MOST_INSTRUCTIONS};
use nook_data::machine::{Cpu, TrapCause};
use nook_data::scenario::Fault;
use nook_io::outside::Sink;
use report_text::{Line, WriteStop};
use std::alloc::Global;

/// The result of the faults at one position: the faults after them, and the trap if one of them is a trap.
#[derive(Drop)]
struct Struck<'a> {
    rest: &'a [Fault],
    stopped: Option<TrapCause>,
}

/// Runs one burst to its crossing and writes a line for each fault that strikes and each instruction. Each line is
/// written before the next instruction runs. `faults` are those of this burst in ascending order of `after`; returns
/// those that did not strike. If the sink fails or memory runs out, a prefix of the burst has happened, and the sink
/// has received a prefix of its lines.
#[tactic(auto, unfolding(crate::specs::Bursts::burst_trace))]
pub fn trace_burst<'a, B: Bus, K: Sink>(
    alloc: Global,
    cpu: &mut Cpu,
    bus: &mut B,
    faults: &'a [Fault],
    sink: &mut K,
) -> Result<&'a [Fault], WriteStop>
    ensures written { Wrote (change K.held K.count sink.old sink.new) result
        (step_lines (B.entries bus.old)
        (burst_trace (B.entries bus.old) faults.now
        (machine_of cpu.old (B.words bus.old) (B.device bus.old))).steps) }
    ensures unstruck { IfOk result (λ rest. rest.now
        ≡ (burst_trace (B.entries bus.old) faults.now
        (machine_of cpu.old (B.words bus.old) (B.device bus.old))).unstruck) }
    ensures left { OnOk result (machine_of cpu.new (B.words bus.new) (B.device bus.new)
        ≡ (burst_trace (B.entries bus.old) faults.now
        (machine_of cpu.old (B.words bus.old) (B.device bus.old))).left) }
{
    let mut spare = SpareRooms::new(alloc);
    let mut line = Line::new(alloc);
    let mut pending = faults;
    let mut acts = 0;
    for point in 0..MOST_INSTRUCTIONS {
        let struck = strike_due(sink, &mut line, pending, point, cpu, bus)?;
        pending = struck.rest;
        if struck.stopped.is_some() {
            return Ok(pending);
        }
        let turned = take_turn(point + 1, cpu, bus, &mut spare)?;
        write_turn(alloc, sink, &mut line, &turned.recorded)?;
        if turned.end.is_some() {
            return Ok(pending);
        }
        acts += turned.recorded.acts.len();
        if acts >= MOST_ACTS {
            return Ok(pending);
        }
    }
    Ok(pending)
}

/// Strikes the faults due at this position in their order, up to one that is a trap, and writes the line of each after
/// it has struck.
fn strike_due<'a, B: Bus, K: Sink>(
    sink: &mut K,
    line: &mut Line,
    faults: &'a [Fault],
    point: u32,
    cpu: &mut Cpu,
    bus: &mut B,
) -> Result<Struck<'a>, WriteStop>
    ensures struck { IfOk result (λ struck. strikes_at point (B.entries bus.old) faults.now
        (machine_of cpu.old (B.words bus.old) (B.device bus.old))
        ≡ record {
          machine = machine_of cpu.new (B.words bus.new) (B.device bus.new);
          rest = struck.rest.now;
          stopped = struck.stopped;
        }) }
    ensures written { Wrote (change K.held K.count sink.old sink.new) result
        (step_lines (B.entries bus.old) (map struck_step (struck_at point faults.now))) }
    ensures entries { B.entries bus.new ≡ B.entries bus.old }
    ensures held { B.held bus.new ≡ B.held bus.old }
{
    let mut rest = faults;
    while let Some((fault, more)) = rest.split_first() {
        if fault.after != point {
            break;
        }
        rest = more;
        let hit = strike(fault.kind, cpu.counter, &mut cpu.registers, bus);
        write_strike(sink, line, fault, hit.refused)?;
        if hit.stopped.is_some() {
            return Ok(Struck {
                rest,
                stopped: hit.stopped,
            });
        }
    }
    Ok(Struck {
        rest,
        stopped: None,
    })
}
