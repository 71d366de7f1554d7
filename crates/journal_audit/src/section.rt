//! The section of one part: the part after the lines so far.

ghost use Rattle.std.specs.Prelude.{◌≡◌, ◌<◌, ◌≤◌, ℕ, IfOk, OnOk, Some, bytes_eq, codes, length, map};
ghost use Rattle.run_laws.specs.Audit.{after_event, are_through, arrival_of, context_in, if_burst, if_entered};
ghost use Rattle.run_laws.specs.Audit.{if_invoked, is_complete, opening_section, step_named, thread_on};
ghost use Rattle.report_defs.specs.ReportLines.{event_line};
ghost use Rattle.part_defs.specs.Runs.{state_of};
ghost use Rattle.run_defs.specs.Simulation.{answers_of_thread, coming_after, threads_after};
ghost use Rattle.nook_data.specs.Valid.{IsValidPart};
ghost use Rattle.nook_data.specs.declared.steps.Event.{Event};
ghost use Rattle.journal_audit.specs.Sections.{AreOn, IsAfter, IsTaken, newest_in, state_in, with_threads};

use crate::script::Script;
use crate::words::{context_in, word_at};
use nook_data::calls::AnswerTable;
use nook_data::journal::Journal;
use nook_data::limits::MOST_THREADS;
use nook_data::lists::{Items, TryCopy, Words};
use nook_data::memory::NoMemory;
use nook_data::scenario::{PartSpec, ThreadSpec};
use nook_data::steps::{Event, Step};
use part_core::{Part, StepRefused};
use report_text::event_line;
use std::alloc::Global;
use std::marker::Model;

/// What a finished section leaves: what its part answered each thread, and its journal.
#[derive(Drop)]
pub struct SectionDone {
    pub answers: AnswerTable,
    pub journal: Journal,
}

/// A part after the lines of its section so far, with the frames that have not arrived and each thread's operations.
#[derive(Drop)]
pub struct Section<'a> {
    index: u32,
    spec: &'a PartSpec,
    part: Part,
    coming: &'a [Words],
    threads: Vec<Script<'a>>,
}

impl<'a> Model for Section<'a> {
    ghost use Rattle.std.specs.Prelude.{◌≡◌, ◌≤◌, length, map};
    ghost use Rattle.nook_data.specs.declared.limits.TheConstants.{MOST_THREADS};
    ghost use Rattle.run_laws.specs.Audit.{Section as Sectioned};
    ghost use Rattle.journal_audit.specs.Sections.{AreOn, state_in};

    ghost Value = { Sectioned };

    ghost view = { λ s. record {
      index = s.index;
      spec = s.spec.now;
      seat = record { run = s.part; coming = s.coming.now };
      threads = map state_in s.threads.items;
    } };

    ghost invariant = { λ s. (s.part.state.spec ≡ s.spec.now) × AreOn s.index s.threads.items
        × (length s.threads.items ≤ MOST_THREADS) };
}

impl<'a> Section<'a> {
    /// The section after the first line of a valid part, of a scenario with these threads.
    pub fn new(
        alloc: Global,
        threads: &'a [ThreadSpec],
        index: u32,
        spec: &'a PartSpec,
    ) -> Result<Section<'a>, NoMemory>
        requires threads { length threads.now ≤ MOST_THREADS }
        requires valid { IsValidPart spec.now }
        ensures { IfOk result (λ section. section ≡ opening_section threads.now index spec.now) }
    {
        let threads = threads_on(alloc, index, threads)?;
        let part = Part::new(alloc, spec.copy(alloc)?)?;
        Ok(Section {
            index,
            spec,
            part,
            coming: spec.arrivals.as_slice(),
            threads,
        })
    }

    /// The step that a line names by its words.
    fn step_named(&self, alloc: Global, line: &[u8]) -> Result<Option<Step>, NoMemory>
        ensures { IfOk result (λ step. step ≡ step_named self.now line.now) }
    {
        let kind = word_at(1, line);
        if kind == b"invoke".as_slice() {
            return self.invocation(alloc, word_at(3, line));
        }
        if kind == b"enter".as_slice() {
            return Ok(entry(word_at(3, line)));
        }
        if kind == b"burst".as_slice() {
            return Ok(burst(word_at(2, line)));
        }
        if kind == b"stage".as_slice() {
            return Ok(Some(Step::Stage));
        }
        if kind == b"arrive".as_slice() {
            return self.arrival(alloc);
        }
        Ok(None)
    }

    /// The invocation of the next operation of the thread that a word names.
    fn invocation(&self, alloc: Global, word: &[u8]) -> Result<Option<Step>, NoMemory>
        ensures { IfOk result
            (λ step. step ≡ if_invoked self.now.threads (context_in (codes "t") word.now)) }
    {
        let Some(thread) = context_in(b't', word) else {
            return Ok(None);
        };
        let Some(script) = self.threads.get(thread as usize) else {
            return Ok(None);
        };
        let Some(op) = script.next() else {
            return Ok(None);
        };
        let op = op.copy(alloc)?;
        Ok(Some(Step::Invoke { thread, op }))
    }

    /// The arrival of the next frame.
    fn arrival(&self, alloc: Global) -> Result<Option<Step>, NoMemory>
        ensures { IfOk result (λ step. step ≡ arrival_of self.now.seat.coming) }
    {
        let Some((frame, _)) = self.coming.split_first() else {
            return Ok(None);
        };
        let frame = frame.copy(alloc)?;
        Ok(Some(Step::Arrive { frame }))
    }

    /// Takes the step that a line of an event names, and returns whether the line fits: the step may be taken, and the
    /// line is that of its event. If it does not fit, or memory runs out, the section is of no further use.
    pub fn after_event(&mut self, alloc: Global, line: &[u8]) -> Result<bool, NoMemory>
        ensures { IfOk result (λ fits. IsAfter fits (after_event self.old line.now) self.new) }
    {
        let Some(step) = self.step_named(alloc, line)? else {
            return Ok(false);
        };
        if !self.take(step)? {
            return Ok(false);
        }
        if !self.is_newest(alloc, line)? {
            return Ok(false);
        }
        self.hear(alloc)?;
        Ok(true)
    }

    /// Takes a step, and returns whether it might be taken.
    fn take(&mut self, step: Step) -> Result<bool, NoMemory>
        ensures { IfOk result (λ taken. IsTaken taken self.old step self.new) }
    {
        let coming = frames_after(&step, self.coming);
        match self.part.step(step) {
            Ok(_) => {
                self.coming = coming;
                Ok(true)
            }
            Err(StepRefused::NotEnabled) => Ok(false),
            Err(StepRefused::NoMemory) => Err(NoMemory),
        }
    }

    /// Whether a line is that of the newest event.
    fn is_newest(&self, alloc: Global, line: &[u8]) -> Result<bool, NoMemory>
        requires { 0 < length self.now.seat.run.journal }
        ensures { IfOk result
            (λ same. (event : Event) → newest_in self.now.seat.run.journal ≡ Some event
            → same ≡ bytes_eq line.now (event_line (length self.now.seat.run.journal) event)) }
    {
        let index = self.events().len() as u64;
        let printed = event_line(alloc, index, newest(&self.part))?;
        Ok(printed.as_slice() == line)
    }

    /// Each thread notes the newest event.
    fn hear(&mut self, alloc: Global) -> Result<(), NoMemory>
        requires { 0 < length self.old.seat.run.journal }
        ensures { OnOk result ((event : Event) → newest_in self.old.seat.run.journal ≡ Some event
            → self.new ≡ with_threads self.old
            (threads_after 0 self.old.index event self.old.threads)) }
    {
        hear_all(alloc, &mut self.threads, newest(&self.part))
    }

    /// The events so far, which lead to the part's state.
    pub fn events(&self) -> &[Event]
        ensures events { result.now ≡ self.now.seat.run.journal }
        ensures state { self.now.seat.run.state ≡ state_of self.now.spec self.now.seat.run.journal }
    {
        self.part.journal().as_slice()
    }

    /// Whether all operations on the part were invoked and answered, all frames have arrived, and the part has no step
    /// left.
    #[tactic(auto, unfolding(run_laws::specs::Audit::is_complete))]
    pub fn is_complete(&self) -> bool
        ensures { result ≡ is_complete self.now }
    {
        are_through(&self.threads) && self.coming.is_empty() && self.part.next_any().is_none()
    }

    /// What the part is made from.
    pub fn spec(&self) -> &'a PartSpec
        ensures { result.now ≡ self.now.spec }
    {
        self.spec
    }

    /// The part.
    pub fn part(&self) -> &Part
        ensures run { result.now ≡ self.now.seat.run }
        ensures spec { self.now.seat.run.state.spec ≡ self.now.spec }
    {
        &self.part
    }

    /// The part's index in the scenario.
    pub fn index(&self) -> u32
        ensures { result ≡ self.now.index }
    {
        self.index
    }

    /// What the part answered each thread, and its journal.
    pub fn into_done(self, alloc: Global) -> Result<SectionDone, NoMemory>
        ensures answers { IfOk result
            (λ done. done.answers ≡ map answers_of_thread self.entry.threads) }
        ensures journal { IfOk result (λ done. done.journal.list ≡ self.entry.seat.run.journal) }
    {
        Ok(SectionDone {
            answers: answers_of_each(alloc, self.threads)?,
            journal: self.part.into_journal(),
        })
    }
}

/// What a part answered each of these threads.
fn answers_of_each(alloc: Global, threads: Vec<Script<'_>>) -> Result<AnswerTable, NoMemory>
    ensures { IfOk result
        (λ made. made ≡ map answers_of_thread (map state_in threads.entry.items)) }
{
    let mut made = Items::new(alloc);
    for thread in threads {
        made.push(thread.into_answers())?;
    }
    Ok(made)
}

/// Each thread's operations on a part.
fn threads_on<'a>(
    alloc: Global,
    part: u32,
    specs: &'a [ThreadSpec],
) -> Result<Vec<Script<'a>>, NoMemory>
    ensures states { IfOk result
        (λ made. map state_in made.items ≡ map (thread_on part) specs.now) }
    ensures parts { IfOk result (λ made. AreOn part made.items) }
{
    let mut made = Vec::with_capacity(alloc, specs.len())?;
    for spec in specs {
        made.push(Script::new(alloc, part, spec))?;
    }
    Ok(made)
}

/// The entry of the thread that a word names.
fn entry(word: &[u8]) -> Option<Step>
    ensures { result ≡ if_entered (context_in (codes "x") word.now) }
{
    let Some(thread) = context_in(b'x', word) else {
        return None;
    };
    Some(Step::Enter { thread })
}

/// The burst of the context that a word names.
fn burst(word: &[u8]) -> Option<Step>
    ensures { result ≡ if_burst (context_in (codes "x") word.now) }
{
    let Some(context) = context_in(b'x', word) else {
        return None;
    };
    Some(Step::Burst { context })
}

/// The newest event of a part.
fn newest(part: &Part) -> &Event
    requires { 0 < length part.now.journal }
    ensures { newest_in part.now.journal ≡ Some result.now }
{
    let journal = part.journal();
    journal.get(journal.len() - 1)
}

/// Each thread notes an event of the part.
fn hear_all(alloc: Global, threads: &mut [Script], event: &Event) -> Result<(), NoMemory>
    requires few { length threads.old ≤ MOST_THREADS }
    ensures parts { (part : ℕ) → AreOn part threads.old → AreOn part threads.new }
    ensures states { (part : ℕ) → AreOn part threads.old
        → OnOk result (map state_in threads.new ≡ threads_after 0 part event.now
        (map state_in threads.old)) }
{
    for index in 0..threads.len() {
        threads[index].hear(alloc, index as u8, event)?;
    }
    Ok(())
}

/// Whether all threads are done with a part.
fn are_through(threads: &[Script]) -> bool
    ensures { result ≡ are_through (map state_in threads.now) }
{
    threads.iter().all(|thread| thread.is_through())
}

/// The frames that are left after a step.
fn frames_after<'a>(step: &Step, coming: &'a [Words]) -> &'a [Words]
    ensures { result.now ≡ coming_after step.now coming.now }
{
    match (step, coming.split_first()) {
        (Step::Arrive { .. }, Some((_, rest))) => rest,
        _ => coming,
    }
}
