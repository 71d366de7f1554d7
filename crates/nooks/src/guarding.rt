//! The subcommands of a guard: each driver is stopped before it breaks its class's contract.

ghost use Rattle.std.specs.Prelude.{◌≡◌, ◌≤◌, ◌++◌, List, All, IfOk, OnOk, length, map};
ghost use Rattle.guard_defs.specs.Guard.{HasRoom};
ghost use Rattle.guard_defs.specs.GuardText.{guard_line, guard_lines};
ghost use Rattle.nook_data.specs.Valid.{IsValidScenario};
ghost use Rattle.nook_io.specs.Listening.{Listening};
ghost use Rattle.nooks.specs.Answers.{AnswersInput, GivesGuarded, IsGuardReport, IsGuardedText};
ghost use Rattle.nooks.specs.Endings.{Writes};
ghost use Rattle.nooks.specs.Guardable.{first_without_room, guardable_from, has_room, no_room};
ghost use Rattle.nooks.specs.Making.{IsGuardMade};
ghost use Rattle.nook_io.specs.Changes.{change};
ghost use Rattle.nooks.specs.Streams.{Whole};
ghost use Rattle.report_defs.specs.ReportText.{report_text};
ghost use Rattle.report_text.specs.Whole.{report_rows};
ghost use Rattle.run_results.specs.Reports.{IsReport, lists_of};
ghost use Rattle.report_text.specs.Writing.{Wrote};
ghost use Rattle.request_taps.specs.Bus.{seen, settled};
ghost use Rattle.scenario_read.specs.Gives.{Gives};

use crate::answering::{at_root, bus_of, refuse, refuse_for};
use crate::heard::Heard;
use crate::program::{LIMIT, Status, finish};
use crate::simulated::{judge_run, status_of};
use asm_defs::keys::Key;
use command_forms::Form;
use guard_defs::stop::Stop;
use guarded_run::{Guarded, guard_scenario};
use input_defs::input::{InputFault, Path, PathStep, Refusal};
use nook_data::limits::{MOST_FAULTS, MOST_PARTS};
use nook_data::lists::Words8;
use nook_data::memory::NoMemory;
use nook_data::scenario::{PartSpec, Scenario};
use nook_io::outside::{Listener, Sink};
use report_text::{Line, WriteStop, push_number, write_report, write_text};
use request_taps::Bus;
use run_results::Report;
use scenario_read::{ScenarioFault, read_scenario};
use scenario_write::write_scenario_line;
use std::alloc::Global;

/// A guarded scenario with its traps, and the report of its run.
#[derive(Drop)]
struct GuardReport {
    guarded: Guarded,
    report: Report,
}

/// Guards the scenario in some bytes, simulates the guarded one, and writes the traps and the report.
pub fn run_guard<K: Sink, T: Drop>(
    alloc: Global,
    bytes: &[u8],
    sink: &mut K,
    listeners: Vec<T>,
) -> Status
where
    Heard<T>: Listener,
    ensures ends { Writes (AnswersInput Form.Guard (Whole bytes.now)
        (map (λ v. ⟦<Heard<T> as Listener>⟧.listening (record { value = v })) listeners.items))
        (change K.held K.count sink.old sink.new) result }
    ensures later { K.count sink.old ≤ K.count sink.new }
    ensures kept { (result ≡ Status.WriteFault → ⊥) → K.count sink.new ≡ K.count sink.old }
{
    match read_guardable(alloc, bytes) {
        Ok(scenario) => report_guarded(alloc, &scenario, sink, listeners),
        Err(stop) => refuse_for(alloc, sink, &stop),
    }
}

/// Guards the scenario in some bytes, and writes the guarded one, unless its text is longer than what `run` reads.
pub fn run_guard_scenario<K: Sink>(alloc: Global, bytes: &[u8], sink: &mut K) -> Status
    ensures ends { (hearing : List Listening)
        → Writes (AnswersInput Form.GuardScenario (Whole bytes.now) hearing)
        (change K.held K.count sink.old sink.new) result }
    ensures later { K.count sink.old ≤ K.count sink.new }
    ensures kept { (result ≡ Status.WriteFault → ⊥) → K.count sink.new ≡ K.count sink.old }
{
    match read_guardable(alloc, bytes) {
        Ok(scenario) => give_guarded(alloc, &scenario, sink),
        Err(stop) => refuse_for(alloc, sink, &stop),
    }
}

/// The scenario in some bytes, each part of which has room for the traps that its guard may need.
fn read_guardable(alloc: Global, bytes: &[u8]) -> Result<Scenario, ScenarioFault>
    ensures gives { Gives result (guardable_from bytes.now) }
    ensures valid { IfOk result IsValidScenario }
    ensures room { IfOk result (λ scenario. All HasRoom scenario.parts) }
{
    let scenario = read_scenario(alloc, bytes)?;
    match first_without_room(scenario.parts.as_slice()) {
        Some(index) => Err(ScenarioFault::Bad(no_room(alloc, index)?)),
        None => Ok(scenario),
    }
}

/// The index of the first part that has no room.
fn first_without_room(parts: &[PartSpec]) -> Option<u32>
    requires { length parts.now ≤ MOST_PARTS }
    ensures { result ≡ first_without_room 0 parts.now }
{
    let mut index = 0;
    for part in parts {
        if !has_room(part) {
            return Some(index);
        }
        index += 1;
    }
    None
}

/// Whether a part has room for a trap at each failure; there is at most one more failure than its limit.
fn has_room(part: &PartSpec) -> bool
    ensures { result ≡ has_room part.now }
{
    let free = MOST_FAULTS.saturating_sub(part.faults.len());
    (part.limit as usize) < free
}

/// Why a scenario is refused if the part at an index is the first without room.
fn no_room(alloc: Global, index: u32) -> Result<Refusal, NoMemory>
    ensures { IfOk result (λ refusal. refusal ≡ no_room index) }
{
    let mut path = Path::new(alloc);
    path.push(PathStep::At(Key::Parts))?;
    path.push(PathStep::Position(index))?;
    path.push(PathStep::At(Key::Faults))?;
    Ok(Refusal {
        fault: InputFault::TooMany,
        path,
    })
}

/// Guards a scenario, simulates the guarded one, which listeners hear, and writes the traps and the report.
fn report_guarded<K: Sink, T: Drop>(
    alloc: Global,
    scenario: &Scenario,
    sink: &mut K,
    listeners: Vec<T>,
) -> Status
where
    Heard<T>: Listener,
    requires valid { IsValidScenario scenario.now }
    requires room { All HasRoom scenario.now.parts }
    ensures ends { Writes (IsGuardReport scenario.now
        (map (λ v. ⟦<Heard<T> as Listener>⟧.listening (record { value = v })) listeners.items))
        (change K.held K.count sink.old sink.new) result }
    ensures later { K.count sink.old ≤ K.count sink.new }
    ensures kept { (result ≡ Status.WriteFault → ⊥) → K.count sink.new ≡ K.count sink.old }
{
    match bus_of(alloc, listeners) {
        Ok(mut taps) => guard_and_report(alloc, scenario, sink, &mut taps),
        Err(NoMemory) => Status::NoMemory,
    }
}

/// Guards a scenario, simulates the guarded one, which a bus of listeners hears, and writes the traps and the report.
fn guard_and_report<K: Sink, L: Listener>(
    alloc: Global,
    scenario: &Scenario,
    sink: &mut K,
    taps: &mut Bus<L>,
) -> Status
    requires valid { IsValidScenario scenario.now }
    requires room { All HasRoom scenario.now.parts }
    ensures ends { (hearing : List Listening)
        → map (seen L.listening) taps.old ≡ map settled hearing
        → Writes (IsGuardReport scenario.now hearing)
        (change K.held K.count sink.old sink.new) result }
    ensures later { K.count sink.old ≤ K.count sink.new }
    ensures kept { (result ≡ Status.WriteFault → ⊥) → K.count sink.new ≡ K.count sink.old }
{
    match judge_guarded(alloc, scenario, taps) {
        Ok(made) => give_guard_report(alloc, &made, sink),
        Err(NoMemory) => Status::NoMemory,
    }
}

/// Guards a scenario, simulates the guarded one over a bus of listeners, and sums that run up. No one hears the runs in
/// which the traps are found.
fn judge_guarded<L: Listener>(
    alloc: Global,
    scenario: &Scenario,
    taps: &mut Bus<L>,
) -> Result<GuardReport, NoMemory>
    requires valid { IsValidScenario scenario.now }
    requires room { All HasRoom scenario.now.parts }
    ensures { (hearing : List Listening) → map (seen L.listening) taps.old ≡ map settled hearing
        → IfOk result (λ made. IsGuardMade scenario.now hearing made.guarded made.report) }
{
    let guarded = guard_scenario(alloc, scenario)?;
    let report = judge_run(alloc, &guarded.scenario, taps)?;
    Ok(GuardReport { guarded, report })
}

/// Writes the traps of a guard and the report of the guarded scenario's run.
fn give_guard_report<K: Sink>(alloc: Global, made: &GuardReport, sink: &mut K) -> Status
    ensures ends { (scenario : Scenario) (hearing : List Listening)
        → IsGuardMade scenario hearing made.now.guarded made.now.report
        → Writes (IsGuardReport scenario hearing) (change K.held K.count sink.old sink.new) result }
    ensures later { K.count sink.old ≤ K.count sink.new }
    ensures kept { (result ≡ Status.WriteFault → ⊥) → K.count sink.new ≡ K.count sink.old }
{
    match write_guard_report(alloc, &made.guarded, &made.report, sink) {
        Ok(()) => status_of(made.report.status),
        Err(WriteStop::Fault) => Status::WriteFault,
        Err(WriteStop::NoMemory) => Status::NoMemory,
    }
}

/// Writes a line for each trap, and then the report.
fn write_guard_report<K: Sink>(
    alloc: Global,
    guarded: &Guarded,
    report: &Report,
    sink: &mut K,
) -> Result<(), WriteStop>
    ensures rows { Wrote (change K.held K.count sink.old sink.new) result
        (guard_lines guarded.now.stops ++ report_rows guarded.now.scenario report.now) }
    ensures text { IsReport guarded.now.scenario report.now
        → Wrote (change K.held K.count sink.old sink.new) result
        (guard_lines guarded.now.stops
        ++ report_text guarded.now.scenario (lists_of report.now.run.journals)
        report.now.run.answers report.now.run.taps report.now.status) }
{
    write_guard_lines(alloc, guarded.stops.as_slice(), sink)?;
    write_report(alloc, &guarded.scenario, report, sink)
}

/// Writes a line for each trap.
fn write_guard_lines<K: Sink>(alloc: Global, stops: &[Stop], sink: &mut K) -> Result<(), WriteStop>
    ensures { Wrote (change K.held K.count sink.old sink.new) result (guard_lines stops.now) }
{
    let mut lines = Line::new(alloc);
    push_guard_lines(&mut lines, stops)?;
    write_text(sink, &lines)
}

/// Adds a line for each trap.
fn push_guard_lines(lines: &mut Line, stops: &[Stop]) -> Result<(), NoMemory>
    ensures { OnOk result (lines.new ≡ lines.old ++ guard_lines stops.now) }
{
    for stop in stops {
        push_guard_line(lines, stop)?;
    }
    Ok(())
}

/// Adds the line of a trap: its part, its burst, the instructions before it, and the clause that it protects.
fn push_guard_line(line: &mut Line, stop: &Stop) -> Result<(), NoMemory>
    ensures { OnOk result (line.new ≡ line.old ++ guard_line stop.now) }
{
    push_number(line, "guard ", u64::from(stop.part))?;
    push_number(line, " burst ", u64::from(stop.trap.burst))?;
    push_number(line, " after ", u64::from(stop.trap.after))?;
    push_number(line, " clause ", u64::from(stop.clause.number()))?;
    line.push("\n")
}

/// Guards a scenario, and writes the guarded one.
fn give_guarded<K: Sink>(alloc: Global, scenario: &Scenario, sink: &mut K) -> Status
    requires valid { IsValidScenario scenario.now }
    requires room { All HasRoom scenario.now.parts }
    ensures ends { Writes (GivesGuarded scenario.now)
        (change K.held K.count sink.old sink.new) result }
    ensures later { K.count sink.old ≤ K.count sink.new }
    ensures kept { (result ≡ Status.WriteFault → ⊥) → K.count sink.new ≡ K.count sink.old }
{
    match guarded_text(alloc, scenario) {
        Ok(text) => give_text(alloc, text.as_slice(), sink),
        Err(NoMemory) => Status::NoMemory,
    }
}

/// The text of a scenario's guarded scenario.
fn guarded_text(alloc: Global, scenario: &Scenario) -> Result<Words8, NoMemory>
    requires valid { IsValidScenario scenario.now }
    requires room { All HasRoom scenario.now.parts }
    ensures { IfOk result (IsGuardedText scenario.now) }
{
    let guarded = guard_scenario(alloc, scenario)?;
    write_scenario_line(alloc, &guarded.scenario)
}

/// Writes the text of a guarded scenario, or refuses it if `run` would refuse to read that many bytes.
fn give_text<K: Sink>(alloc: Global, text: &[u8], sink: &mut K) -> Status
    ensures ends { (scenario : Scenario) → IsGuardedText scenario text.now
        → Writes (GivesGuarded scenario) (change K.held K.count sink.old sink.new) result }
    ensures later { K.count sink.old ≤ K.count sink.new }
    ensures kept { (result ≡ Status.WriteFault → ⊥) → K.count sink.new ≡ K.count sink.old }
{
    if text.len() > LIMIT as usize {
        refuse(alloc, sink, &at_root(alloc, InputFault::TooMany))
    } else {
        finish(sink, text, Status::Done)
    }
}
