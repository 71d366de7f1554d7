//! The lines of a burst's steps: each call appends to a line. The caller drops the line after `NoMemory`.

ghost use Rattle.std.specs.Prelude.{◌≡◌, ◌++◌, OnOk, codes};
ghost use Rattle.turn_trace.specs.Lines.{effects_text, fault_text, fetch_text, jumped_text, kind_text, refusal_text};
ghost use Rattle.turn_trace.specs.Lines.{register_note, register_notes, set_text, start_line, stored_text, turn_line};
ghost use Rattle.turn_trace.specs.Lines.{unstruck_line, word_text};
ghost use Rattle.report_defs.specs.ReportLines.{line_feed, spaced};

use crate::traced::TracedTurn;
use driver_asm::word_text;
use nook_data::lists::Word;
use nook_data::machine::Cpu;
use nook_data::memory::NoMemory;
use nook_data::scenario::{Fault, FaultKind, fault_name, fault_word};
use report_text::{Line, push_acts_tail, push_number};
use std::alloc::Global;

/// The counter and the registers at the start of a burst, without registers that are 0.
pub fn push_start(line: &mut Line, cpu: &Cpu) -> Result<(), NoMemory>
    ensures { OnOk result (line.new ≡ line.old ++ start_line cpu.now) }
{
    push_number(line, "start ", u64::from(cpu.counter))?;
    push_registers(line, &cpu.registers)?;
    line.push("\n")
}

/// The registers that are not 0, each after a space.
fn push_registers(line: &mut Line, registers: &[Word]) -> Result<(), NoMemory>
    ensures { OnOk result (line.new ≡ line.old ++ register_notes 0 registers.now) }
{
    for number in 0..registers.len() {
        push_register(line, number as u64, registers[number])?;
    }
    Ok(())
}

/// A register and its word after a space, if the word is not 0.
fn push_register(line: &mut Line, number: u64, word: Word) -> Result<(), NoMemory>
    ensures { OnOk result (line.new ≡ line.old ++ register_note number word) }
{
    if word == 0 {
        return Ok(());
    }
    push_number(line, " r", number)?;
    push_number(line, " ", u64::from(word))
}

/// The line of an instruction.
pub fn push_turn(alloc: Global, line: &mut Line, turn: &TracedTurn) -> Result<(), NoMemory>
    ensures { OnOk result (line.new ≡ line.old ++ turn_line turn.now) }
{
    push_fetch(alloc, line, turn)?;
    push_effects(line, turn)?;
    line.push("\n")
}

/// An instruction's number, its counter and the word that it fetched.
fn push_fetch(alloc: Global, line: &mut Line, turn: &TracedTurn) -> Result<(), NoMemory>
    ensures { OnOk result (line.new ≡ line.old ++ fetch_text turn.now) }
{
    line.number(u64::from(turn.number))?;
    push_number(line, " ", u64::from(turn.counter))?;
    line.push(" ")?;
    push_word(alloc, line, turn.word)
}

/// The effects of an instruction, each after a bar.
fn push_effects(line: &mut Line, turn: &TracedTurn) -> Result<(), NoMemory>
    ensures { OnOk result (line.new ≡ line.old ++ effects_text turn.now) }
{
    push_set(line, turn.set)?;
    push_stored(line, turn.stored)?;
    push_jumped(line, turn.jumped)?;
    push_acts_tail(line, turn.acts.as_slice())
}

/// The word that was fetched.
fn push_word(alloc: Global, line: &mut Line, word: Option<Word>) -> Result<(), NoMemory>
    ensures { OnOk result (line.new ≡ line.old ++ word_text word) }
{
    let Some(word) = word else {
        return line.push("-");
    };
    let text = word_text(alloc, word)?;
    line.push(text.as_str())
}

/// A register that was set.
fn push_set(line: &mut Line, set: Option<(u8, Word)>) -> Result<(), NoMemory>
    ensures { OnOk result (line.new ≡ line.old ++ set_text set) }
{
    let Some((register, word)) = set else {
        return Ok(());
    };
    push_number(line, " | r", u64::from(register))?;
    push_number(line, " ", u64::from(word))
}

/// A word that was stored.
fn push_stored(line: &mut Line, stored: Option<(Word, Word)>) -> Result<(), NoMemory>
    ensures { OnOk result (line.new ≡ line.old ++ stored_text stored) }
{
    let Some((address, word)) = stored else {
        return Ok(());
    };
    push_number(line, " | [", u64::from(address))?;
    push_number(line, "] ", u64::from(word))
}

/// A counter that is not the next one.
fn push_jumped(line: &mut Line, jumped: Option<Word>) -> Result<(), NoMemory>
    ensures { OnOk result (line.new ≡ line.old ++ jumped_text jumped) }
{
    let Some(counter) = jumped else {
        return Ok(());
    };
    push_number(line, " | goto ", u64::from(counter))
}

/// The line of a fault that struck, with whether it was refused.
pub fn push_strike(line: &mut Line, fault: &Fault, refused: bool) -> Result<(), NoMemory>
    ensures { OnOk result (line.new ≡ line.old
        ++ (fault_text (codes "fault ") fault.now ++ (refusal_text refused ++ line_feed))) }
{
    push_fault(line, "fault ", fault)?;
    if refused {
        line.push(" refused")?;
    }
    line.push("\n")
}

/// The line of a fault that did not strike.
pub fn push_unstruck(line: &mut Line, fault: &Fault) -> Result<(), NoMemory>
    ensures { OnOk result (line.new ≡ line.old ++ unstruck_line fault.now) }
{
    push_fault(line, "unstruck ", fault)?;
    line.push("\n")
}

/// A word, the number of instructions before a fault, and the fault's kind.
fn push_fault(line: &mut Line, word: &str, fault: &Fault) -> Result<(), NoMemory>
    ensures { OnOk result (line.new ≡ line.old ++ fault_text word.now fault.now) }
{
    push_number(line, word, u64::from(fault.after))?;
    line.push(" ")?;
    push_kind(line, fault.kind)
}

/// A kind of fault, with what it writes and where.
fn push_kind(line: &mut Line, kind: FaultKind) -> Result<(), NoMemory>
    ensures { OnOk result (line.new ≡ line.old ++ kind_text kind) }
{
    line.push(fault_word(fault_name(kind)))?;
    match kind {
        FaultKind::Trap | FaultKind::Hang => Ok(()),
        FaultKind::Poke { address, value } => push_writing(line, address, value),
        FaultKind::Code { address, value } => push_writing(line, address, value),
        FaultKind::Reg { register, value } => push_writing(line, u32::from(register), value),
    }
}

/// An address or a register, and the value that is written there.
fn push_writing(line: &mut Line, target: u32, value: u32) -> Result<(), NoMemory>
    ensures { OnOk result (line.new ≡ line.old ++ (spaced target ++ spaced value)) }
{
    push_number(line, " ", u64::from(target))?;
    push_number(line, " ", u64::from(value))
}
