//! Writes each line of a burst when it is made. A line is built in a buffer that is emptied first and
//! reused for the next line.

ghost use Rattle.std.specs.Prelude.{◌≡◌, ◌++◌, codes};
ghost use Rattle.report_defs.specs.ReportLines.{line_feed};
ghost use Rattle.nook_io.specs.Changes.{change};
ghost use Rattle.report_text.specs.Writing.{Wrote};
ghost use Rattle.turn_trace.specs.Lines.{fault_text, refusal_text, start_line, turn_line, unstruck_line};
ghost use Rattle.turn_trace.specs.Lines.{unstruck_lines};

use crate::lines::{push_start, push_strike, push_turn, push_unstruck};
use crate::traced::TracedTurn;
use nook_data::machine::Cpu;
use nook_data::scenario::Fault;
use nook_io::outside::Sink;
use report_text::{Line, WriteStop, write_text};
use std::alloc::Global;

/// Writes the counter and the registers at the start of a burst, without registers that are 0.
pub fn write_start<K: Sink>(alloc: Global, sink: &mut K, cpu: &Cpu) -> Result<(), WriteStop>
    ensures { Wrote (change K.held K.count sink.old sink.new) result (start_line cpu.now) }
{
    let mut line = Line::new(alloc);
    push_start(&mut line, cpu)?;
    write_text(sink, &line)
}

/// Writes the line of a fault that struck, with whether it was refused.
pub fn write_strike<K: Sink>(
    sink: &mut K,
    line: &mut Line,
    fault: &Fault,
    refused: bool,
) -> Result<(), WriteStop>
    ensures { Wrote (change K.held K.count sink.old sink.new) result
        (fault_text (codes "fault ") fault.now ++ (refusal_text refused ++ line_feed)) }
{
    line.clear();
    push_strike(line, fault, refused)?;
    write_text(sink, line)
}

/// Writes the line of an instruction.
pub fn write_turn<K: Sink>(
    alloc: Global,
    sink: &mut K,
    line: &mut Line,
    turn: &TracedTurn,
) -> Result<(), WriteStop>
    ensures { Wrote (change K.held K.count sink.old sink.new) result (turn_line turn.now) }
{
    line.clear();
    push_turn(alloc, line, turn)?;
    write_text(sink, line)
}

/// Writes the lines of the faults that did not strike.
pub fn write_unstruck<K: Sink>(
    alloc: Global,
    sink: &mut K,
    faults: &[Fault],
) -> Result<(), WriteStop>
    ensures { Wrote (change K.held K.count sink.old sink.new) result (unstruck_lines faults.now) }
{
    let mut line = Line::new(alloc);
    for fault in faults {
        write_unstruck_line(sink, &mut line, fault)?;
    }
    Ok(())
}

/// Writes the line of a fault that did not strike.
fn write_unstruck_line<K: Sink>(
    sink: &mut K,
    line: &mut Line,
    fault: &Fault,
) -> Result<(), WriteStop>
    ensures { Wrote (change K.held K.count sink.old sink.new) result (unstruck_line fault.now) }
{
    line.clear();
    push_unstruck(line, fault)?;
    write_text(sink, line)
}
