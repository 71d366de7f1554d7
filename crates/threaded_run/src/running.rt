//! The run of a scenario by threads.

ghost use Rattle.std.specs.Prelude.{◌≡◌, IfOk, OnErr, map};
ghost use Rattle.app_threads.specs.Order.{AllFollow, all_stamps};
ghost use Rattle.app_threads.specs.Workers.{AreSeats};
ghost use Rattle.nook_data.specs.Valid.{IsValidScenario};
ghost use Rattle.run_results.specs.Reports.{HaveEnds};
ghost use Rattle.request_taps.specs.Bus.{result_of, seen, after_hearing_all};
ghost use Rattle.run_results.specs.Journals.{AreRuns, events_in};
ghost use Rattle.part_server.specs.Desk.{IsDeskSeat, desk_spec, desk_view};
ghost use Rattle.threaded_run.specs.Leaving.{AreAlone, HaveWorked};
ghost use Rattle.threaded_run.specs.Threaded.{AreAnswered, HearAllOrNothing, IsThreaded, in_parts};
ghost use Rattle.threaded_run.specs.Unheard.{IsForMemory, IsWholeRun};

use crate::answering::answers_of;
use crate::closing::leave_all;
use crate::opening::{Opened, arrivals_of, open_desks};
use crate::publishing::publish_all;
use app_threads::{WorkerStop, run_workers};
use nook_data::calls::AnswerTable;
use nook_data::desks::{DeskRefused, WorkerTable};
use nook_data::memory::NoMemory;
use nook_data::scenario::Scenario;
use nook_io::outside::{Gate, Listener};
use request_taps::Bus;
use run_ends::WholeRun;
use run_results::{Journals, PartEnds, Run};
use std::alloc::Global;
use std::sync::Wait;
use std::thread::Threads;

/// What a run left that no tap has heard: its journals, its answers, and what each part ends in.
#[derive(Drop)]
pub struct Unheard {
    pub journals: Journals,
    pub answers: AnswerTable,
    pub ends: PartEnds,
}

/// Runs a valid scenario by threads: each of its threads calls the parts at their desks in the order of its script, and
/// each part with arrivals has a thread that adds them. Then each part takes its remaining steps, and the taps hear the
/// journals, part by part.
///
/// Whatever the order in which the threads got their turns, each journal is a run of its part that has no step left. It
/// has each thread's operations, in order and with the returned answers, and the part's arrivals, in order. It has no
/// other invocation or arrival. The journals are one run: by one clock over all parts, each thread invoked an operation
/// after it got the answer to the previous one.
///
/// The call returns an error if memory runs out; no desk of a valid scenario refuses a thread for another cause. After
/// an error the taps have heard nothing, or all events of the journals of such a run, part by part.
pub fn run_threads<R: Threads + Wait + Sync, L: Listener, G: Gate>(
    rt: &R,
    alloc: Global,
    scenario: &Scenario,
    taps: &mut Bus<L>,
    gate: &G,
) -> Result<WholeRun, NoMemory>
    requires { IsValidScenario scenario.now }
    ensures runs { IfOk result
        (λ whole. AreRuns scenario.now.parts (map events_in whole.run.journals)) }
    ensures ends { IfOk result
        (λ whole. HaveEnds scenario.now.parts whole.run.journals whole.ends) }
    ensures threaded { IfOk result (λ whole. IsThreaded scenario.now
        (map events_in whole.run.journals) whole.run.answers) }
    ensures answered { IfOk result (λ whole. AreAnswered scenario.now whole.run.answers) }
    ensures heard { IfOk result (λ whole. map (seen L.listening) taps.new
        ≡ after_hearing_all (in_parts 0 (map events_in whole.run.journals))
        (map (seen L.listening) taps.old)) }
    ensures totals { IfOk result
        (λ whole. whole.run.taps ≡ map result_of (map (seen L.listening) taps.new)) }
    ensures refused { OnErr result (HearAllOrNothing scenario.now
        (map (seen L.listening) taps.old) (map (seen L.listening) taps.new)) }
{
    let left = run_unheard(rt, alloc, scenario, gate)?;
    publish_all(taps, left.journals.as_slice());
    let totals = taps.totals(alloc)?;
    Ok(WholeRun {
        run: Run {
            journals: left.journals,
            answers: left.answers,
            taps: totals,
        },
        ends: left.ends,
    })
}

/// Runs a valid scenario by threads, and publishes nothing.
fn run_unheard<R: Threads + Wait + Sync, G: Gate>(
    rt: &R,
    alloc: Global,
    scenario: &Scenario,
    gate: &G,
) -> Result<Unheard, NoMemory>
    requires { IsValidScenario scenario.now }
    ensures { IfOk result (IsWholeRun scenario.now) }
{
    let arrivals = arrivals_of(alloc, scenario.parts.as_slice())?;
    let mut opened = open_desks(alloc, scenario.parts.as_slice())?;
    let worked = run_workers(
        rt,
        alloc,
        opened.desks.as_slice(),
        opened.seats.as_mut_slice(),
        &scenario.threads,
        arrivals.as_slice(),
        gate,
    );
    match worked {
        Ok(table) => gather(rt, alloc, scenario, opened, table),
        Err(stop) => Err(out_of_memory(stop)),
    }
}

/// What is left by threads that finished their scripts.
fn gather<R: Wait>(
    rt: &R,
    alloc: Global,
    scenario: &Scenario,
    opened: Opened,
    table: WorkerTable,
) -> Result<Unheard, NoMemory>
    requires specs { map desk_spec opened.desks.items ≡ scenario.now.parts }
    requires seats { AreSeats IsDeskSeat opened.desks.items opened.seats.items }
    requires alone { AreAlone (map desk_view opened.seats.items) }
    requires worked { HaveWorked scenario.now.parts scenario.now.threads
        (map (λ s. (desk_view s).seen) opened.seats.items) table }
    requires order { AllFollow
        (all_stamps (map desk_view opened.seats.items)) scenario.now.threads table }
    ensures { IfOk result (IsWholeRun scenario.now) }
{
    let left = leave_all(rt, alloc, opened)?;
    let answers = answers_of(alloc, scenario.threads.as_slice(), table)?;
    Ok(Unheard {
        journals: left.journals,
        answers,
        ends: left.ends,
    })
}

/// The error for a worker that stopped because memory ran out.
fn out_of_memory(stop: WorkerStop) -> NoMemory
    requires { IsForMemory stop }
{
    match stop {
        WorkerStop::NoMemory => NoMemory,
        WorkerStop::Refused {
            refusal: DeskRefused::NoMemory { .. },
            ..
        } => NoMemory,
        WorkerStop::Refused { .. } => unreachable!(),
    }
}
