//! Whole runs: a scenario is simulated, judged, and reported.

ghost use Rattle.std.specs.Prelude.{◌≡◌, ◌^◌, ◌<◌, ◌≤◌, List, [], IfOk, length, map};
ghost use Rattle.run_defs.specs.Generated.{generated};
ghost use Rattle.nook_io.specs.Listening.{Listening};
ghost use Rattle.run_defs.specs.Simulation.{events_count};
ghost use Rattle.report_defs.specs.ReportText.{gen_line, summary_line};
ghost use Rattle.nook_data.specs.Valid.{IsValidScenario};
ghost use Rattle.nooks.specs.Answers.{IsReported, IsSummary};
ghost use Rattle.nooks.specs.Endings.{Writes};
ghost use Rattle.nooks.specs.Making.{IsMade, ReportsStatus};
ghost use Rattle.nook_io.specs.Changes.{change};
ghost use Rattle.run_results.specs.Statuses.{status_number};
ghost use Rattle.run_results.specs.Reports.{failures_in};
ghost use Rattle.request_taps.specs.Bus.{seen, settled};
ghost use Rattle.run_results.specs.Journals.{events_in};

use crate::program::Status;
use command_forms::Form;
use nook_data::journal::Journal;
use nook_data::limits::MOST_PARTS;
use nook_data::memory::NoMemory;
use nook_data::scenario::Scenario;
use nook_io::listeners::CountListener;
use nook_io::outside::{Gate, Listener, Sink};
use report_text::{Summary, WriteStop, write_report, write_summary};
use request_taps::Bus;
use run_results::{PartReport, Report, ReportStatus, report_of};
use scenario_gen::generate;
use sim_run::simulate;
use std::alloc::Global;
use std::sync::Wait;
use std::thread::Threads;
use threaded_run::run_threads;

/// Simulates a scenario, which a bus of listeners hears, and writes the report.
pub fn simulate_and_report<K: Sink, L: Listener>(
    alloc: Global,
    scenario: &Scenario,
    sink: &mut K,
    taps: &mut Bus<L>,
) -> Status
    requires { IsValidScenario scenario.now }
    ensures ends { (hearing : List Listening)
        → map (seen L.listening) taps.old ≡ map settled hearing
        → Writes (IsReported Form.Run scenario.now hearing)
        (change K.held K.count sink.old sink.new) result }
    ensures later { K.count sink.old ≤ K.count sink.new }
    ensures kept { (result ≡ Status.WriteFault → ⊥) → K.count sink.new ≡ K.count sink.old }
{
    match judge_run(alloc, scenario, taps) {
        Ok(report) => give_report(alloc, scenario, &report, sink),
        Err(NoMemory) => Status::NoMemory,
    }
}

/// Runs the threads of a scenario, lets a bus of listeners hear the run, and writes the report.
pub fn run_threads_and_report<R: Threads + Wait + Sync, K: Sink, L: Listener, G: Gate>(
    rt: &R,
    alloc: Global,
    scenario: &Scenario,
    sink: &mut K,
    taps: &mut Bus<L>,
    gate: &G,
) -> Status
    requires { IsValidScenario scenario.now }
    ensures ends { (hearing : List Listening)
        → map (seen L.listening) taps.old ≡ map settled hearing
        → Writes (IsReported Form.RunThreads scenario.now hearing)
        (change K.held K.count sink.old sink.new) result }
    ensures later { K.count sink.old ≤ K.count sink.new }
    ensures kept { (result ≡ Status.WriteFault → ⊥) → K.count sink.new ≡ K.count sink.old }
{
    match judge_threads(rt, alloc, scenario, taps, gate) {
        Ok(report) => give_report(alloc, scenario, &report, sink),
        Err(NoMemory) => Status::NoMemory,
    }
}

/// Writes the report of a scenario's run.
fn give_report<K: Sink>(alloc: Global, scenario: &Scenario, report: &Report, sink: &mut K) -> Status
    ensures ends { (asked : Form) (hearing : List Listening)
        → IsMade asked scenario.now hearing report.now
        → Writes (IsReported asked scenario.now hearing)
        (change K.held K.count sink.old sink.new) result }
    ensures later { K.count sink.old ≤ K.count sink.new }
    ensures kept { (result ≡ Status.WriteFault → ⊥) → K.count sink.new ≡ K.count sink.old }
{
    match write_report(alloc, scenario, report, sink) {
        Ok(()) => status_of(report.status),
        Err(WriteStop::Fault) => Status::WriteFault,
        Err(WriteStop::NoMemory) => Status::NoMemory,
    }
}

/// Simulates a scenario over a bus of listeners, and sums the run up.
pub fn judge_run<L: Listener>(
    alloc: Global,
    scenario: &Scenario,
    taps: &mut Bus<L>,
) -> Result<Report, NoMemory>
    requires { IsValidScenario scenario.now }
    ensures { (hearing : List Listening) → map (seen L.listening) taps.old ≡ map settled hearing
        → IfOk result (IsMade Form.Run scenario.now hearing) }
{
    let whole = simulate(alloc, scenario, taps)?;
    report_of(alloc, scenario, whole.run, whole.ends)
}

/// Runs the threads of a scenario, lets a bus of listeners hear the run, and sums it up.
fn judge_threads<R: Threads + Wait + Sync, L: Listener, G: Gate>(
    rt: &R,
    alloc: Global,
    scenario: &Scenario,
    taps: &mut Bus<L>,
    gate: &G,
) -> Result<Report, NoMemory>
    requires { IsValidScenario scenario.now }
    ensures { (hearing : List Listening) → map (seen L.listening) taps.old ≡ map settled hearing
        → IfOk result (IsMade Form.RunThreads scenario.now hearing) }
{
    let whole = run_threads(rt, alloc, scenario, taps, gate)?;
    report_of(alloc, scenario, whole.run, whole.ends)
}

/// The status after a report that ends with this number.
pub fn status_of(number: u32) -> Status
    ensures { ReportsStatus number result }
{
    match ReportStatus::of_number(number) {
        Some(ReportStatus::Kept) => Status::Done,
        Some(ReportStatus::GivenUp) => Status::GivenUp,
        Some(ReportStatus::Broken) => Status::ContractBroken,
        None => Status::ContractBroken,
    }
}

/// Simulates the generated scenario of a number from 1 to 256, and writes the line that sums it up.
pub fn run_generated<K: Sink>(alloc: Global, number: u32, sink: &mut K) -> Status
    requires { number ≤ 256 }
    ensures ends { Writes (IsSummary number) (change K.held K.count sink.old sink.new) result }
    ensures later { K.count sink.old ≤ K.count sink.new }
    ensures kept { (result ≡ Status.WriteFault → ⊥) → K.count sink.new ≡ K.count sink.old }
{
    let Ok(report) = generate_report(alloc, number) else {
        return Status::NoMemory;
    };
    match write_summary(alloc, sink, sum_up(number, &report)) {
        Ok(()) => status_of(report.status),
        Err(WriteStop::Fault) => Status::WriteFault,
        Err(WriteStop::NoMemory) => Status::NoMemory,
    }
}

/// The report of a generated scenario, which no listener hears.
fn generate_report(alloc: Global, number: u32) -> Result<Report, NoMemory>
    requires { number ≤ 256 }
    ensures { IfOk result (IsMade Form.Run (generated number) []) }
{
    let scenario = generate(number, alloc)?;
    let mut unheard: Bus<CountListener> = Bus::of(alloc, Vec::new(alloc))?;
    judge_run(alloc, &scenario, &mut unheard)
}

/// What the line of a generated scenario says of its report.
fn sum_up(number: u32, report: &Report) -> Summary
    requires number { number ≤ 256 }
    requires made { IsMade Form.Run (generated number) [] report.now }
    ensures { gen_line result.number result.events result.failures (status_number result.status)
        ≡ summary_line number (generated number).parts (map events_in report.now.run.journals) }
{
    let Some(status) = ReportStatus::of_number(report.status) else {
        unreachable!()
    };
    Summary {
        number,
        events: count_events(report.run.journals.as_slice()),
        failures: count_failures(report.parts.as_slice()),
        status,
    }
}

/// The number of events of some journals.
fn count_events(journals: &[Journal]) -> u64
    requires { events_count (map events_in journals.now) < 2 ^ 63 }
    ensures { result ≡ events_count (map events_in journals.now) }
{
    let mut count = 0;
    for journal in journals {
        count += journal.len() as u64;
    }
    count
}

/// The failures of some parts.
fn count_failures(parts: &[PartReport]) -> u64
    requires { length parts.now ≤ MOST_PARTS }
    ensures { result ≡ failures_in parts.now }
{
    let mut count = 0;
    for part in parts {
        count += u64::from(part.failures);
    }
    count
}
