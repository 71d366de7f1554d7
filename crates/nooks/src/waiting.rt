//! The subcommands that read an input and wait for a turn at a part: `run threads` and `mirror`.

ghost use Rattle.std.specs.Prelude.{◌≡◌, ◌+◌, ◌≤◌, Some, map};
ghost use Rattle.nook_data.specs.Valid.{IsValidScenario};
ghost use Rattle.nook_io.specs.Causes.{TakesAtMost};
ghost use Rattle.nooks.specs.Answers.{AnswersInput, IsReported};
ghost use Rattle.nooks.specs.Endings.{Ends, Writes};
ghost use Rattle.command_forms.specs.Forms.{form_for, limit_of};
ghost use Rattle.nook_io.specs.Changes.{change};
ghost use Rattle.nooks.specs.Streams.{Whole};

use crate::answering::{bus_of, refuse_for, refuse_source};
use crate::heard::Heard;
use crate::mirroring::serve_bytes;
use crate::program::{LIMIT, Status};
use crate::simulated::run_threads_and_report;
use command_forms::{Form, WaitingForm};
use nook_data::memory::NoMemory;
use nook_data::scenario::Scenario;
use nook_io::outside::{Gate, Listener, Sink, Source};
use nook_io::whole::read_all;
use scenario_read::read_scenario;
use std::alloc::Global;
use std::sync::Wait;
use std::thread::Threads;

/// What starts threads, and the gate that they pass.
#[derive(Drop)]
pub struct Threading<'a, R, G> {
    pub rt: &'a R,
    pub gate: &'a G,
}

/// Reads the source and answers its bytes.
pub fn read_and_wait<R: Threads + Wait + Sync, S: Source, K: Sink, G: Gate, T: Drop>(
    threading: &Threading<'_, R, G>,
    alloc: Global,
    asked: WaitingForm,
    source: &mut S,
    sink: &mut K,
    listeners: Vec<T>,
) -> Status
where
    Heard<T>: Listener,
    ensures ends { Ends (Some (form_for asked))
        (map (λ v. ⟦<Heard<T> as Listener>⟧.listening (record { value = v })) listeners.items)
        (change S.left S.count source.old source.new)
        (change K.held K.count sink.old sink.new) result }
    ensures unwritten { result ≡ Status.ReadFault → sink.new ≡ sink.old }
    ensures taken { TakesAtMost (S.left source.old) (S.left source.new)
        (limit_of (form_for asked) + 1) }
    ensures source_later { S.count source.old ≤ S.count source.new }
    ensures sink_later { K.count sink.old ≤ K.count sink.new }
    ensures source_kept { (result ≡ Status.ReadFault → ⊥)
        → S.count source.new ≡ S.count source.old }
    ensures sink_kept { (result ≡ Status.WriteFault → ⊥) → K.count sink.new ≡ K.count sink.old }
{
    match read_all(alloc, source, LIMIT) {
        Ok(bytes) => wait(threading, alloc, asked, bytes.as_slice(), sink, listeners),
        Err(stop) => refuse_source(alloc, stop, sink),
    }
}

/// Answers the bytes of the source, or reports their first input error.
fn wait<R: Threads + Wait + Sync, K: Sink, G: Gate, T: Drop>(
    threading: &Threading<'_, R, G>,
    alloc: Global,
    asked: WaitingForm,
    bytes: &[u8],
    sink: &mut K,
    listeners: Vec<T>,
) -> Status
where
    Heard<T>: Listener,
    ensures ends { Writes (AnswersInput (form_for asked) (Whole bytes.now)
        (map (λ v. ⟦<Heard<T> as Listener>⟧.listening (record { value = v })) listeners.items))
        (change K.held K.count sink.old sink.new) result }
    ensures later { K.count sink.old ≤ K.count sink.new }
    ensures kept { (result ≡ Status.WriteFault → ⊥) → K.count sink.new ≡ K.count sink.old }
{
    match asked {
        WaitingForm::RunThreads => {
            run_scenario_by_threads(threading.rt, alloc, bytes, sink, listeners, threading.gate)
        }
        WaitingForm::Mirror => serve_bytes(threading.rt, alloc, bytes, sink, listeners),
    }
}

/// Runs the threads of the scenario in some bytes and writes the report.
fn run_scenario_by_threads<R: Threads + Wait + Sync, K: Sink, G: Gate, T: Drop>(
    rt: &R,
    alloc: Global,
    bytes: &[u8],
    sink: &mut K,
    listeners: Vec<T>,
    gate: &G,
) -> Status
where
    Heard<T>: Listener,
    ensures ends { Writes (AnswersInput Form.RunThreads (Whole bytes.now)
        (map (λ v. ⟦<Heard<T> as Listener>⟧.listening (record { value = v })) listeners.items))
        (change K.held K.count sink.old sink.new) result }
    ensures later { K.count sink.old ≤ K.count sink.new }
    ensures kept { (result ≡ Status.WriteFault → ⊥) → K.count sink.new ≡ K.count sink.old }
{
    match read_scenario(alloc, bytes) {
        Ok(scenario) => report_threads(rt, alloc, &scenario, sink, listeners, gate),
        Err(stop) => refuse_for(alloc, sink, &stop),
    }
}

/// Runs the threads of a scenario, which listeners hear, and writes the report.
fn report_threads<R: Threads + Wait + Sync, K: Sink, G: Gate, T: Drop>(
    rt: &R,
    alloc: Global,
    scenario: &Scenario,
    sink: &mut K,
    listeners: Vec<T>,
    gate: &G,
) -> Status
where
    Heard<T>: Listener,
    requires { IsValidScenario scenario.now }
    ensures ends { Writes (IsReported Form.RunThreads scenario.now
        (map (λ v. ⟦<Heard<T> as Listener>⟧.listening (record { value = v })) listeners.items))
        (change K.held K.count sink.old sink.new) result }
    ensures later { K.count sink.old ≤ K.count sink.new }
    ensures kept { (result ≡ Status.WriteFault → ⊥) → K.count sink.new ≡ K.count sink.old }
{
    match bus_of(alloc, listeners) {
        Ok(mut taps) => run_threads_and_report(rt, alloc, scenario, sink, &mut taps, gate),
        Err(NoMemory) => Status::NoMemory,
    }
}
