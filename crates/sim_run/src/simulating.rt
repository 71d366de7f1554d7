//! A run in progress: its schedule, its parts and its threads.

ghost use Rattle.std.specs.Prelude.{◌≡◌, ◌≤◌, ◌<◌, false, All, IfOk, IfSome, OnOk, length, map, slice_get};
ghost use Rattle.run_defs.specs.Schedules.{picked, round};
ghost use Rattle.run_defs.specs.Simulation.{answer_table, answers_of_thread, begins, journal_of, journals_of};
ghost use Rattle.run_defs.specs.Simulation.{opening_part, opening_thread, started, stepped_by, threads_after};
ghost use Rattle.run_defs.specs.Simulation.{thread_after};
ghost use Rattle.nook_data.specs.Valid.{IsValidPart, IsValidScenario};
ghost use Rattle.sim_run.specs.Able.{AreAble, AreAbleUpTo, concerns};
ghost use Rattle.sim_run.specs.Actors.{has_step};
ghost use Rattle.sim_run.specs.Advanced.{IsAdvanced, IsPick, IsSteppedSeat, IsTaken, state_at};
ghost use Rattle.sim_run.specs.Bursts.{IsFoundIn, is_burst_at};
ghost use Rattle.sim_run.specs.Ends.{ends_of};
ghost use Rattle.sim_run.specs.Published.{HearsChoice, HearsStep, made_of};
ghost use Rattle.request_taps.specs.Bus.{seen};
ghost use Rattle.sim_run.specs.Reached.{IsOpenChoice, MayTake};
ghost use Rattle.sim_run.specs.Watched.{HasSeenAt, HaveSeen, IsOneAfterAt, has_broken_at};
ghost use Rattle.run_results.specs.Journals.{events_in};

use crate::actors::{able_threads, choice_of, list_ready, next_ready};
use crate::chosen::Chosen;
use crate::script::Script;
use crate::seat::SimulatedPart;
use crate::whole_run::FoundBurst;
use contract_monitor::Monitor;
use nook_data::calls::AnswerTable;
use nook_data::limits::{MOST_PARTS, MOST_THREADS};
use nook_data::lists::{Items, TryCopy};
use nook_data::memory::NoMemory;
use nook_data::scenario::{PartSpec, Scenario, ThreadSpec};
use nook_data::steps::{Event, Step};
use nook_io::listeners::TapTotals;
use nook_io::outside::Listener;
use part_core::LeftRooms;
use request_taps::Bus;
use run_ends::WholeRun;
use run_results::{Journals, PartEnds, Run};
use schedule::Schedule;
use std::alloc::Global;
use std::marker::Model;

mod branching;
mod packed;

pub use packed::PackedSimulation;

/// A run in progress.
pub struct Simulating<'a> {
    alloc: Global,
    schedule: Schedule,
    seats: Vec<SimulatedPart<'a>>,
    threads: Vec<Script<'a>>,
    /// Whether each thread has a step; none if that must be found again.
    able: Option<Vec<bool>>,
    /// Room for the numbers of the actors that have a step.
    ready: Vec<u16>,
}

/// An event, and the part that made it.
#[derive(Drop)]
struct PartEvent<'a> {
    part: u32,
    event: &'a Event,
}

impl<'a> Model for Simulating<'a> {
    ghost use Rattle.std.specs.Prelude.{◌≤◌, length, IfSome};
    ghost use Rattle.run_defs.specs.Simulation.{Simulation};
    ghost use Rattle.nook_data.specs.declared.limits.TheConstants.{MOST_PARTS, MOST_THREADS};
    ghost use Rattle.sim_run.specs.Able.{AreAble};

    ghost Value = { Simulation };

    ghost view = { λ s. record {
      order = s.schedule;
      parts = s.seats.items;
      threads = s.threads.items;
    } };

    ghost invariant = { λ s. (length s.seats.items ≤ MOST_PARTS)
        × (length s.threads.items ≤ MOST_THREADS)
        × IfSome s.able (λ able. AreAble s.seats.items s.threads.items able.items) };
}

impl Drop for Simulating<'_> {
    /// Written by hand, so that it is proved once and not in each function that owns a simulation.
    fn drop(self) {
        let Simulating {
            alloc: _,
            schedule: _,
            seats: _,
            threads: _,
            able: _,
            ready: _,
        } = self;
    }
}

impl<'a> Simulating<'a> {
    /// The run of a valid scenario before its first step. Its parts reuse the memory that earlier runs left.
    #[tactic(auto, unfolding(run_defs::specs::Simulation::begins))]
    pub fn new(
        alloc: Global,
        scenario: &'a Scenario,
        left: &mut LeftRooms,
    ) -> Result<Simulating<'a>, NoMemory>
        requires { IsValidScenario scenario.now }
        ensures { IfOk result (λ simulation. simulation ≡ begins scenario.now) }
    {
        let schedule = Schedule::new(scenario.schedule.copy(alloc)?);
        let seats = make_seats(alloc, scenario.parts.as_slice(), left)?;
        let threads = make_threads(alloc, scenario.threads.as_slice())?;
        Ok(Simulating {
            alloc,
            schedule,
            seats,
            threads,
            able: None,
            ready: Vec::new(alloc),
        })
    }

    /// Takes the step that the schedule picks, and returns whether any actor had one. The taps have then heard its
    /// event. After `NoMemory` they have heard its event, or nothing.
    pub fn advance<L: Listener>(&mut self, taps: &mut Bus<L>) -> Result<bool, NoMemory>
        ensures advanced { IfOk result (λ some. IsAdvanced self.old some self.new) }
        ensures heard { HearsStep self.old result (map (seen L.listening) taps.old)
            (map (seen L.listening) taps.new) }
    {
        match self.choose()? {
            Some(chosen) => {
                self.take(taps, chosen)?;
                Ok(true)
            }
            None => Ok(false),
        }
    }

    /// The choice that the schedule picks, if any actor has a step. The step is not taken.
    pub fn choose(&mut self) -> Result<Option<Chosen>, NoMemory>
        ensures picked { IfOk result (λ choice. IsPick self.old choice self.new) }
        ensures parts { OnOk result (self.new.parts ≡ self.old.parts) }
    {
        let able = kept_or_found(self.alloc, self.able.take(), &self.threads, &self.seats)?;
        let chosen = pick(
            self.alloc,
            &mut self.schedule,
            &self.threads,
            &self.seats,
            &able,
            &mut self.ready,
        )?;
        self.able = Some(able);
        Ok(chosen)
    }

    /// Takes a choice that may be taken. The taps have then heard its event; after `NoMemory` they have heard it or
    /// nothing.
    pub fn take<L: Listener>(&mut self, taps: &mut Bus<L>, chosen: Chosen) -> Result<(), NoMemory>
        requires { IsOpenChoice self.old.parts chosen }
        ensures taken { OnOk result
            (self.new ≡ stepped_by self.old self.old.order chosen
            (slice_get self.old.parts chosen.part)) }
        ensures heard { HearsChoice (made_of chosen (slice_get self.old.parts chosen.part)) result
            (map (seen L.listening) taps.old) (map (seen L.listening) taps.new) }
    {
        let mut able = kept_or_found(self.alloc, self.able.take(), &self.threads, &self.seats)?;
        take(
            self.alloc,
            &mut self.seats,
            &mut self.threads,
            &mut able,
            taps,
            chosen,
        )?;
        self.able = Some(able);
        Ok(())
    }

    /// Whether a choice is burst `number` of part `index`.
    pub fn is_burst(&self, chosen: &Chosen, index: u32, number: u32) -> bool
        ensures { result ≡ is_burst_at index number chosen.now
            (slice_get self.now.parts chosen.now.part) }
    {
        match self.seats.get(chosen.part() as usize) {
            Some(seat) => chosen.part() == index && seat.is_burst(chosen.step(), number),
            None => false,
        }
    }

    /// A monitor for each part that has seen the part's journal.
    pub fn monitors(&self) -> Result<Vec<Monitor>, NoMemory>
        ensures { IfOk result (λ monitors. HaveSeen self.now.parts monitors.items) }
    {
        make_monitors(self.alloc, &self.seats)
    }

    /// A monitor of part `index` that has seen its journal.
    pub fn monitor(&self, index: u32) -> Result<Monitor, NoMemory>
        requires { index < length self.now.parts }
        ensures { IfOk result (HasSeenAt (slice_get self.now.parts index)) }
    {
        self.seats[index as usize].monitor(self.alloc)
    }

    /// Shows the monitor of part `index` the part's newest event, which it has not seen. Returns whether the part has
    /// broken a clause. After `NoMemory` the monitor is useless.
    pub fn judge_newest(&self, index: u32, monitor: &mut Monitor) -> Result<bool, NoMemory>
        requires { IsOneAfterAt (slice_get self.now.parts index) monitor.old }
        ensures seen { OnOk result (HasSeenAt (slice_get self.now.parts index) monitor.new) }
        ensures broken { IfOk result
            (λ broken. broken ≡ has_broken_at (slice_get self.now.parts index)) }
    {
        self.seats[index as usize].judge_newest(monitor)
    }

    /// Takes a choice that may be taken, as the last of the run. Returns the domain of its part before the step, and
    /// the step's event. The rest of the run is dropped.
    pub fn into_last(self, chosen: Chosen) -> Result<FoundBurst, NoMemory>
        requires { IsOpenChoice self.parts chosen }
        ensures { IfOk result (IsFoundIn (slice_get self.entry.parts chosen.part) chosen.step) }
    {
        let Simulating {
            alloc,
            schedule: _,
            mut seats,
            threads: _,
            able: _,
            ready: _,
        } = self;
        let index = chosen.part() as usize;
        seats[index].take_last(alloc, chosen.into_step())
    }

    /// The result of the run: each part's journal and final state, each thread's answers, and the given totals of its
    /// taps. The parts leave their other memory in `left`.
    pub fn into_run(self, taps: TapTotals, left: &mut LeftRooms) -> Result<WholeRun, NoMemory>
        ensures journals { IfOk result
            (λ whole. map events_in whole.run.journals ≡ journals_of self.entry) }
        ensures answers { IfOk result (λ whole. whole.run.answers ≡ answer_table self.entry) }
        ensures taps { IfOk result (λ whole. whole.run.taps ≡ taps) }
        ensures ends { IfOk result (λ whole. whole.ends ≡ ends_of self.entry.parts) }
    {
        let Simulating {
            alloc,
            schedule: _,
            seats,
            threads,
            able: _,
            ready: _,
        } = self;
        let ends = take_ends(alloc, &seats)?;
        let journals = take_journals(alloc, seats, left)?;
        let answers = take_answers(alloc, threads)?;
        Ok(WholeRun {
            run: Run {
                journals,
                answers,
                taps,
            },
            ends,
        })
    }
}

/// Whether each thread has a step, as stored, or found again if it was not stored.
fn kept_or_found(
    alloc: Global,
    kept: Option<Vec<bool>>,
    threads: &[Script],
    seats: &[SimulatedPart],
) -> Result<Vec<bool>, NoMemory>
    requires kept { IfSome kept (λ able. AreAble seats.now threads.now able.items) }
    requires threads { length threads.now ≤ MOST_THREADS }
    ensures { IfOk result (λ able. AreAble seats.now threads.now able.items) }
{
    match kept {
        Some(able) => Ok(able),
        None => able_threads(alloc, threads, seats),
    }
}

/// The final state of each part.
fn take_ends(alloc: Global, seats: &[SimulatedPart]) -> Result<PartEnds, NoMemory>
    ensures { IfOk result (λ made. made ≡ ends_of seats.now) }
{
    let mut made = Items::new(alloc);
    for seat in seats {
        made.push(seat.end(alloc)?)?;
    }
    Ok(made)
}

/// A monitor for each part that has seen the part's journal.
fn make_monitors(alloc: Global, seats: &[SimulatedPart]) -> Result<Vec<Monitor>, NoMemory>
    ensures { IfOk result (λ made. HaveSeen seats.now made.items) }
{
    let mut made = Vec::with_capacity(alloc, seats.len())?;
    for seat in seats {
        made.push(seat.monitor(alloc)?)?;
    }
    Ok(made)
}

/// The choice that the schedule picks, if any actor has a step. `ready` becomes the list of actors that have one, if
/// the schedule looks at them all.
fn pick(
    alloc: Global,
    schedule: &mut Schedule,
    threads: &[Script],
    seats: &[SimulatedPart],
    able: &[bool],
    ready: &mut Vec<u16>,
) -> Result<Option<Chosen>, NoMemory>
    requires threads { length threads.now ≤ MOST_THREADS }
    requires seats { length seats.now ≤ MOST_PARTS }
    requires able { AreAble seats.now threads.now able.now }
    ensures { IfOk result (λ choice. IsPick
        (state_at schedule.old seats.now threads.now) choice
        (state_at schedule.new seats.now threads.now)) }
{
    if let Some(cursor) = schedule.cursor() {
        return pick_next(alloc, schedule, cursor, threads, seats, able);
    }
    list_ready(able, seats, ready)?;
    if ready.is_empty() {
        return Ok(None);
    }
    let index = pick_position(schedule, ready);
    choice_of(alloc, ready[index], threads, seats)
}

/// The choice that a round robin picks, if any actor has a step: that of the first actor with one from the cursor on.
fn pick_next(
    alloc: Global,
    schedule: &mut Schedule,
    cursor: u32,
    threads: &[Script],
    seats: &[SimulatedPart],
    able: &[bool],
) -> Result<Option<Chosen>, NoMemory>
    requires round { schedule.old ≡ round cursor }
    requires threads { length threads.now ≤ MOST_THREADS }
    requires seats { length seats.now ≤ MOST_PARTS }
    requires able { AreAble seats.now threads.now able.now }
    ensures { IfOk result (λ choice. IsPick
        (state_at schedule.old seats.now threads.now) choice
        (state_at schedule.new seats.now threads.now)) }
{
    let Some(actor) = next_ready(cursor, able, seats) else {
        return Ok(None);
    };
    schedule.go_on_from(actor as u32 + 1);
    choice_of(alloc, actor, threads, seats)
}

/// The index that the schedule picks in a list that is not empty.
#[tactic(auto, using(crate::proofs::Advancing::position_within))]
fn pick_position(schedule: &mut Schedule, actors: &[u16]) -> usize
    requires { 0 < length actors.now }
    ensures index { result ≡ (picked schedule.old actors.now).index }
    ensures order { schedule.new ≡ (picked schedule.old actors.now).order }
    ensures within { result < length actors.now }
{
    schedule.pick(actors)
}

/// Takes a choice that may be taken: its part makes the event, the taps hear it, and each thread notes it.
#[tactic(auto, unfolding(request_taps::specs::Bus::after_hearing_all))]
fn take<L: Listener>(
    alloc: Global,
    seats: &mut [SimulatedPart],
    threads: &mut [Script],
    able: &mut [bool],
    taps: &mut Bus<L>,
    chosen: Chosen,
) -> Result<(), NoMemory>
    requires choice { IsOpenChoice seats.old chosen }
    requires seats { length seats.old ≤ MOST_PARTS }
    requires threads { length threads.old ≤ MOST_THREADS }
    requires able { AreAble seats.old threads.old able.old }
    ensures heard { HearsChoice (made_of chosen (slice_get seats.old chosen.part)) result
        (map (seen L.listening) taps.old) (map (seen L.listening) taps.new) }
    ensures taken { OnOk result
        (IsTaken (slice_get seats.old chosen.part) chosen seats.old threads.old seats.new
        threads.new) }
    ensures able { OnOk result (AreAble seats.new threads.new able.new) }
{
    let part = chosen.part();
    let index = part as usize;
    take_at(seats, index, chosen.into_step())?;
    let seats = &*seats;
    let event = seats[index].newest();
    taps.publish(part as u8, event);
    hear_all(alloc, threads, able, seats, part, event)
}

/// Each part at the start of its boot.
fn make_seats<'a>(
    alloc: Global,
    specs: &'a [PartSpec],
    left: &mut LeftRooms,
) -> Result<Vec<SimulatedPart<'a>>, NoMemory>
    requires { All IsValidPart specs.now }
    ensures { IfOk result (λ made. made.items ≡ map opening_part specs.now) }
{
    let mut made = Vec::with_capacity(alloc, specs.len())?;
    for spec in specs {
        made.push(SimulatedPart::new(alloc, spec, left)?)?;
    }
    Ok(made)
}

/// Each thread at the start of its script.
fn make_threads<'a>(alloc: Global, specs: &'a [ThreadSpec]) -> Result<Vec<Script<'a>>, NoMemory>
    ensures { IfOk result (λ made. made.items ≡ map opening_thread specs.now) }
{
    let mut made = Vec::with_capacity(alloc, specs.len())?;
    for spec in specs {
        made.push(Script::new(alloc, spec))?;
    }
    Ok(made)
}

/// Part `index` takes a step that it may take.
fn take_at(seats: &mut [SimulatedPart], index: usize, step: Step) -> Result<(), NoMemory>
    requires { MayTake (slice_get seats.old index) step }
    ensures { OnOk result
        (IsSteppedSeat (slice_get seats.old index) seats.old index step seats.new) }
{
    seats[index].take(step)
}

/// Each thread notes an event of a part. `able` is updated for the threads that it concerns.
fn hear_all(
    alloc: Global,
    threads: &mut [Script],
    able: &mut [bool],
    seats: &[SimulatedPart],
    part: u32,
    event: &Event,
) -> Result<(), NoMemory>
    requires few { length threads.old ≤ MOST_THREADS }
    requires able { AreAbleUpTo 0 part event.now seats.now threads.old able.old }
    ensures threads { OnOk result (threads.new ≡ threads_after 0 part event.now threads.old) }
    ensures able { OnOk result (AreAble seats.now threads.new able.new) }
{
    for index in 0..threads.len() {
        hear(
            alloc,
            index as u8,
            &mut threads[index],
            &mut able[index],
            seats,
            &PartEvent { part, event },
        )?;
    }
    Ok(())
}

/// A thread notes an event of a part that concerns it; `able` says whether the thread has a step.
// Most events concern one thread of many, so most of these calls only look.
#[inline(always)]
fn hear(
    alloc: Global,
    number: u8,
    thread: &mut Script,
    able: &mut bool,
    seats: &[SimulatedPart],
    made: &PartEvent,
) -> Result<(), NoMemory>
    requires { concerns number made.now.part made.now.event.now thread.old ≡ false
        → able.old ≡ has_step number seats.now thread.old }
    ensures thread { OnOk result (thread.new ≡ thread_after made.now.part made.now.event.now
        (started number made.now.part made.now.event.now thread.old)) }
    ensures able { OnOk result (able.new ≡ has_step number seats.now thread.new) }
{
    if thread.is_concerned(number, made.part, made.event) {
        thread.hear(alloc, number, made.part, made.event)?;
        *able = thread.has_step(number, seats);
    }
    Ok(())
}

/// Each part's journal.
fn take_journals(
    alloc: Global,
    seats: Vec<SimulatedPart>,
    left: &mut LeftRooms,
) -> Result<Journals, NoMemory>
    ensures { IfOk result (λ made. map events_in made ≡ map journal_of seats.entry.items) }
{
    let mut made = Items::new(alloc);
    for seat in seats {
        made.push(seat.into_journal(left))?;
    }
    Ok(made)
}

/// Each thread's answers.
fn take_answers(alloc: Global, threads: Vec<Script>) -> Result<AnswerTable, NoMemory>
    ensures { IfOk result (λ made. made ≡ map answers_of_thread threads.entry.items) }
{
    let mut made = Items::new(alloc);
    for thread in threads {
        made.push(thread.into_answers())?;
    }
    Ok(made)
}
