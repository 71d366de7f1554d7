//! A thread of a run: its script, its open call and its answers.

ghost use Rattle.std.specs.Prelude.{drop, ◌≡◌, is_some, slice_get, true, IfOk, None, OnOk, if◌then◌else◌};
ghost use Rattle.nook_data.specs.Answers.{answer_among, answer_at};
ghost use Rattle.sim_run.specs.Able.{concerns, is_invocation, looks_at};
ghost use Rattle.sim_run.specs.Actors.{choice_when, has_step};
ghost use Rattle.sim_run.specs.Opened.{waiting_of};
ghost use Rattle.run_defs.specs.Simulation.{going_on, invocation, opening_thread, started, thread_after};

use crate::chosen::Chosen;
use crate::seat::SimulatedPart;
use nook_data::calls::{Answer, Op, PartAnswers};
use nook_data::digest::{mixed, mixed_words};
use nook_data::lists::{Items, TryCopy};
use nook_data::memory::NoMemory;
use nook_data::same::{Same, are_same};
use nook_data::scenario::ThreadSpec;
use nook_data::steps::{Event, Step};
use std::alloc::Global;
use std::marker::Model;

/// An open call: its part and its number.
#[derive(Clone, Copy)]
pub struct Open {
    pub part: u32,
    pub call: u32,
}

/// A thread: the operations that it has not invoked, its open call, and its answers with their parts.
#[derive(Drop)]
pub struct Script<'a> {
    rest: &'a [(u32, Op)],
    waiting: Option<Open>,
    answers: PartAnswers,
}

impl<'a> Model for Script<'a> {
    ghost use Rattle.run_defs.specs.Simulation.{ThreadState};
    ghost use Rattle.sim_run.specs.Opened.{waiting_of};

    ghost Value = { ThreadState };

    ghost view = { λ s. record {
      rest = s.rest.now;
      waiting = waiting_of s.waiting;
      answers = s.answers;
    } };
}

impl<'a> Script<'a> {
    /// A thread at the start of its script.
    pub fn new(alloc: Global, spec: &'a ThreadSpec) -> Script<'a>
        ensures { result ≡ opening_thread spec.now }
    {
        Script {
            rest: spec.ops.as_slice(),
            waiting: None,
            answers: Items::new(alloc),
        }
    }

    /// A copy of the thread.
    pub fn copied(&self, alloc: Global) -> Result<Script<'a>, NoMemory>
        ensures { IfOk result (λ made. made ≡ self.now) }
    {
        let answers = self.answers.copy(alloc)?;
        Ok(Script {
            rest: self.rest,
            waiting: self.waiting,
            answers,
        })
    }

    /// Whether the other thread is the same.
    pub fn is_same(&self, other: &Script) -> bool
        ensures { result ≡ true → self.now ≡ other.now }
    {
        are_same_calls(self.waiting, other.waiting)
            && are_same(self.rest, other.rest)
            && self.answers.is_same(&other.answers)
    }

    /// Mixes the thread's position in its script and its answers into a digest.
    pub fn digest(&self, digest: u64) -> u64 {
        let mut digest = mixed(digest, self.rest.len() as u64);
        if let Some(call) = self.waiting {
            digest = mixed(digest, u64::from(call.call));
        }
        for answer in &self.answers {
            digest = mixed_answer(digest, &answer.1);
        }
        digest
    }

    /// The answers so far, each with its part.
    pub fn answers(&self) -> &PartAnswers
        ensures { result.now ≡ self.now.answers }
    {
        &self.answers
    }

    /// Whether the thread has a step: that of its open call, else the invocation of its next operation.
    pub fn has_step(&self, thread: u8, seats: &[SimulatedPart]) -> bool
        ensures { result ≡ has_step thread seats.now self.now }
    {
        match self.waiting {
            Some(call) => goes_on(seats, call.part, thread).is_some(),
            None => match self.rest.first() {
                Some((part, op)) => may_invoke(seats, *part, thread, op),
                None => false,
            },
        }
    }

    /// The thread's step, if it has one. An operation that it invokes is copied.
    pub fn choice(
        &self,
        alloc: Global,
        thread: u8,
        seats: &[SimulatedPart],
    ) -> Result<Option<Chosen>, NoMemory>
        ensures { IfOk result
            (λ choice. choice ≡ choice_when thread seats.now self.now self.now.waiting) }
    {
        let actor = thread as u16;
        match self.waiting {
            Some(call) => Ok(Chosen::of_step(actor, call.part, goes_on(seats, call.part, thread))),
            None => match self.rest.first() {
                Some((part, op)) => {
                    let step = invoked(alloc, seats, *part, thread, op)?;
                    Ok(Chosen::of_step(actor, *part, step))
                }
                None => Ok(None),
            },
        }
    }

    /// Whether the thread's next step depends on the part.
    fn looks_at(&self, part: u32) -> bool
        ensures { result ≡ looks_at part self.now }
    {
        match self.waiting {
            Some(call) => call.part == part,
            None => match self.rest.first() {
                Some((next, _)) => *next == part,
                None => false,
            },
        }
    }

    /// Whether an event of a part concerns the thread: its next step depends on the part, or it invoked. Any other
    /// event changes neither the thread nor what it can do.
    pub fn is_concerned(&self, thread: u8, part: u32, event: &Event) -> bool
        ensures { result ≡ concerns thread part event.now self.now }
    {
        self.looks_at(part) || is_invocation(thread, event)
    }

    /// Notes an event of a part: this thread's invocation removes its next operation, and an answer to its open call is
    /// stored.
    pub fn hear(
        &mut self,
        alloc: Global,
        thread: u8,
        part: u32,
        event: &Event,
    ) -> Result<(), NoMemory>
        ensures { OnOk result
            (self.new ≡ thread_after part event.now (started thread part event.now self.old)) }
    {
        self.start(thread, part, event);
        self.settle(alloc, part, event)
    }

    /// This thread's invocation removes its next operation.
    fn start(&mut self, thread: u8, part: u32, event: &Event)
        ensures { self.new ≡ started thread part event.now self.old }
    {
        if let Event::Invoke {
            call,
            thread: caller,
            ..
        } = event
            && *caller == thread
        {
            self.rest = rest_of(self.rest);
            self.waiting = Some(Open { part, call: *call });
        }
    }

    /// Stores an answer to the open call.
    fn settle(&mut self, alloc: Global, part: u32, event: &Event) -> Result<(), NoMemory>
        ensures { OnOk result (self.new ≡ thread_after part event.now self.old) }
    {
        let Some(call) = self.waiting else {
            return Ok(());
        };
        if call.part != part {
            return Ok(());
        }
        if let Some(answer) = event.copy_of_answer(alloc, call.call)? {
            self.answers.push((part, answer))?;
            self.waiting = None;
        }
        Ok(())
    }

    /// The answers, each with its part.
    pub fn into_answers(self) -> PartAnswers
        ensures { result ≡ self.entry.answers }
    {
        self.answers
    }
}

/// Whether two threads have the same open call, or both have none.
fn are_same_calls(call: Option<Open>, other: Option<Open>) -> bool
    ensures { result ≡ true → waiting_of call ≡ waiting_of other }
{
    match (call, other) {
        (Some(call), Some(other)) => call.part == other.part && call.call == other.call,
        (None, None) => true,
        _ => false,
    }
}

/// Mixes the words of an answer into a digest.
fn mixed_answer(digest: u64, answer: &Answer) -> u64 {
    match answer {
        Answer::Blocks(words) => mixed_words(digest, words.as_slice()),
        Answer::Frame(frame) => mixed_words(digest, frame.as_slice()),
        Answer::Value(value) => mixed(digest, u64::from(*value)),
        _ => mixed(digest, 1),
    }
}

/// Whether an event is an invocation of the thread.
fn is_invocation(thread: u8, event: &Event) -> bool
    ensures { result ≡ is_invocation thread event.now }
{
    match event {
        Event::Invoke { thread: caller, .. } => *caller == thread,
        _ => false,
    }
}

/// The next step of a thread's open call in a part.
fn goes_on(seats: &[SimulatedPart], part: u32, thread: u8) -> Option<Step>
    ensures { result ≡ going_on thread (slice_get seats.now part) }
{
    match seats.get(part as usize) {
        Some(seat) => seat.going_on(thread),
        None => None,
    }
}

/// Whether a thread may invoke an operation of a part.
fn may_invoke(seats: &[SimulatedPart], part: u32, thread: u8, op: &Op) -> bool
    ensures { result ≡ is_some (invocation thread op.now (slice_get seats.now part)) }
{
    match seats.get(part as usize) {
        Some(seat) => seat.can_invoke(thread, op),
        None => false,
    }
}

/// The invocation of an operation of a part, if it may be taken.
#[tactic(auto, using(crate::proofs::Choosing::some_invocation, crate::proofs::Choosing::no_invocation))]
fn invoked(
    alloc: Global,
    seats: &[SimulatedPart],
    part: u32,
    thread: u8,
    op: &Op,
) -> Result<Option<Step>, NoMemory>
    ensures { IfOk result (λ step. step ≡ invocation thread op.now (slice_get seats.now part)) }
{
    if !may_invoke(seats, part, thread, op) {
        return Ok(None);
    }
    let op = op.copy(alloc)?;
    Ok(Some(Step::Invoke { thread, op }))
}

/// The operations after the first one.
fn rest_of<'a>(ops: &'a [(u32, Op)]) -> &'a [(u32, Op)]
    ensures { result.now ≡ drop 1 ops.now }
{
    match ops.split_first() {
        Some((_, rest)) => rest,
        None => ops,
    }
}
