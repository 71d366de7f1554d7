//! The subcommand `mirror`: one disk that a scenario's thread reads and writes, kept by the drivers of two parts.

ghost use Rattle.std.specs.Prelude.{◌≡◌, ◌==◌, ◌≤◌, ℕ, true, List, Ok, IfOk, if◌then◌else◌, map};
ghost use Rattle.std.specs.List.{list_any};
ghost use Rattle.mirrored_run.specs.Mirrors.{is_lost, is_mirror};
ghost use Rattle.nook_io.specs.Listening.{Listening};
ghost use Rattle.input_defs.specs.ScenarioReading.{scenario_from};
ghost use Rattle.nook_data.specs.Valid.{IsValidScenario};
ghost use Rattle.nooks.specs.Answers.{AnswersInput, IsMirrored};
ghost use Rattle.nooks.specs.Endings.{Writes};
ghost use Rattle.nooks.specs.Making.{IsMirrorMade};
ghost use Rattle.nook_io.specs.Changes.{change};
ghost use Rattle.nooks.specs.Streams.{Whole};
ghost use Rattle.run_results.specs.Statuses.{status_number};
ghost use Rattle.request_taps.specs.Bus.{seen, settled};

use crate::answering::{bus_of, refuse_for};
use crate::heard::Heard;
use crate::program::{Status, finish};
use crate::simulated::status_of;
use crate::texts::NOT_MIRROR;
use command_forms::Form;
use mirrored_run::{is_mirror, run_mirror};
use nook_data::memory::NoMemory;
use nook_data::mirror::{MirrorAnswer, MirrorAnswers};
use nook_data::scenario::Scenario;
use nook_io::outside::{Listener, Sink};
use report_text::{WriteStop, write_mirror_report};
use request_taps::Bus;
use run_results::{Report, ReportStatus, report_of};
use scenario_read::read_scenario;
use std::alloc::Global;
use std::sync::Wait;

/// A report of a mirror's run, with the mirror's answers and status.
#[derive(Drop)]
struct MirrorReport {
    report: Report,
    answers: MirrorAnswers,
    status: u32,
}

/// Serves the mirror of the scenario in some bytes and writes the report.
pub fn serve_bytes<R: Wait, K: Sink, T: Drop>(
    rt: &R,
    alloc: Global,
    bytes: &[u8],
    sink: &mut K,
    listeners: Vec<T>,
) -> Status
where
    Heard<T>: Listener,
    ensures ends { Writes (AnswersInput Form.Mirror (Whole bytes.now)
        (map (λ v. ⟦<Heard<T> as Listener>⟧.listening (record { value = v })) listeners.items))
        (change K.held K.count sink.old sink.new) result }
    ensures later { K.count sink.old ≤ K.count sink.new }
    ensures kept { (result ≡ Status.WriteFault → ⊥) → K.count sink.new ≡ K.count sink.old }
{
    match read_scenario(alloc, bytes) {
        Ok(scenario) => serve(rt, alloc, &scenario, sink, listeners),
        Err(stop) => refuse_for(alloc, sink, &stop),
    }
}

/// Serves the mirror of a scenario and writes the report, or says that no mirror serves it.
fn serve<R: Wait, K: Sink, T: Drop>(
    rt: &R,
    alloc: Global,
    scenario: &Scenario,
    sink: &mut K,
    listeners: Vec<T>,
) -> Status
where
    Heard<T>: Listener,
    requires { IsValidScenario scenario.now }
    ensures ends { (bytes : List ℕ) → scenario_from bytes ≡ Ok scenario.now
        → Writes (AnswersInput Form.Mirror (Whole bytes)
        (map (λ v. ⟦<Heard<T> as Listener>⟧.listening (record { value = v })) listeners.items))
        (change K.held K.count sink.old sink.new) result }
    ensures later { K.count sink.old ≤ K.count sink.new }
    ensures kept { (result ≡ Status.WriteFault → ⊥) → K.count sink.new ≡ K.count sink.old }
{
    if !is_mirror(scenario) {
        return finish(sink, NOT_MIRROR, Status::BadInput);
    }
    match bus_of(alloc, listeners) {
        Ok(mut taps) => serve_and_report(rt, alloc, scenario, sink, &mut taps),
        Err(NoMemory) => Status::NoMemory,
    }
}

/// Serves the mirror of a scenario, lets a bus of listeners hear the run, and writes the report.
fn serve_and_report<R: Wait, K: Sink, L: Listener>(
    rt: &R,
    alloc: Global,
    scenario: &Scenario,
    sink: &mut K,
    taps: &mut Bus<L>,
) -> Status
    requires valid { IsValidScenario scenario.now }
    requires served { is_mirror scenario.now ≡ true }
    ensures ends { (hearing : List Listening)
        → map (seen L.listening) taps.old ≡ map settled hearing
        → Writes (IsMirrored scenario.now hearing)
        (change K.held K.count sink.old sink.new) result }
    ensures later { K.count sink.old ≤ K.count sink.new }
    ensures kept { (result ≡ Status.WriteFault → ⊥) → K.count sink.new ≡ K.count sink.old }
{
    match judge_mirror(rt, alloc, scenario, taps) {
        Ok(made) => give_mirror_report(alloc, scenario, &made, sink),
        Err(NoMemory) => Status::NoMemory,
    }
}

/// Serves the mirror of a scenario, lets a bus of listeners hear the run, and sums it up.
fn judge_mirror<R: Wait, L: Listener>(
    rt: &R,
    alloc: Global,
    scenario: &Scenario,
    taps: &mut Bus<L>,
) -> Result<MirrorReport, NoMemory>
    requires valid { IsValidScenario scenario.now }
    requires served { is_mirror scenario.now ≡ true }
    ensures { (hearing : List Listening) → map (seen L.listening) taps.old ≡ map settled hearing
        → IfOk result (λ made. IsMirrorMade scenario.now hearing made.report made.answers
        made.status) }
{
    let mirrored = run_mirror(rt, alloc, scenario, taps)?;
    let report = report_of(alloc, scenario, mirrored.whole.run, mirrored.whole.ends)?;
    let status = mirror_status(report.status, mirrored.answers.as_slice()).number();
    Ok(MirrorReport {
        report,
        answers: mirrored.answers,
        status,
    })
}

/// Writes the report of a mirror's run.
fn give_mirror_report<K: Sink>(
    alloc: Global,
    scenario: &Scenario,
    made: &MirrorReport,
    sink: &mut K,
) -> Status
    ensures ends { (hearing : List Listening)
        → IsMirrorMade scenario.now hearing made.now.report made.now.answers made.now.status
        → Writes (IsMirrored scenario.now hearing)
        (change K.held K.count sink.old sink.new) result }
    ensures later { K.count sink.old ≤ K.count sink.new }
    ensures kept { (result ≡ Status.WriteFault → ⊥) → K.count sink.new ≡ K.count sink.old }
{
    match write_mirror_report(
        alloc,
        scenario,
        &made.report,
        &made.answers,
        made.status,
        sink,
    ) {
        Ok(()) => status_of(made.status),
        Err(WriteStop::Fault) => Status::WriteFault,
        Err(WriteStop::NoMemory) => Status::NoMemory,
    }
}

/// The status of a mirror; a report of its two parts apart would end with this number.
fn mirror_status(apart: u32, answers: &[MirrorAnswer]) -> ReportStatus
    ensures { status_number result
        ≡ (if apart == 7 then 7 else if list_any is_lost answers.now then 1 else 0) }
{
    let is_broken = apart == ReportStatus::Broken.number();
    ReportStatus::of(is_broken, is_any_lost(answers))
}

/// Whether both sides were lost at one of the answers.
fn is_any_lost(answers: &[MirrorAnswer]) -> bool
    ensures { result ≡ list_any is_lost answers.now }
{
    answers.iter().any(|answer| is_lost(answer))
}

/// Whether both sides were lost.
fn is_lost(answer: &MirrorAnswer) -> bool
    ensures { result ≡ is_lost answer.now }
{
    matches!(answer, MirrorAnswer::BothLost)
}
