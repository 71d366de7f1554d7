//! A thread's operations on one part: those that it has not invoked, its open call and its answers.

ghost use Rattle.std.specs.Prelude.{drop, ◌≡◌, ℕ, true, List, ◌∷◌, [], None, IfOk, MatchOption, OnOk, filter};
ghost use Rattle.std.specs.Prelude.{if◌then◌else◌};
ghost use Rattle.run_laws.specs.Audit.{is_on, is_through, thread_on};
ghost use Rattle.nook_data.specs.Answers.{answer_among, answer_at};
ghost use Rattle.run_defs.specs.Simulation.{started, thread_after};
ghost use Rattle.journal_audit.specs.Sections.{is_at, with_state};
ghost use Rattle.nook_data.specs.declared.calls.Op.{Op};

use nook_data::calls::{Op, PartAnswers};
use nook_data::lists::Items;
use nook_data::memory::NoMemory;
use nook_data::scenario::ThreadSpec;
use nook_data::steps::Event;
use std::alloc::Global;
use std::marker::Model;

/// A thread's operations on one part, and their answers.
#[derive(Drop)]
pub struct Script<'a> {
    part: u32,
    /// The rest of the thread's script, from an operation on the part on.
    rest: &'a [(u32, Op)],
    /// The number of the open call.
    waiting: Option<u32>,
    answers: PartAnswers,
}

impl<'a> Model for Script<'a> {
    ghost use Rattle.std.specs.Prelude.{◌≡◌, true, filter};
    ghost use Rattle.run_laws.specs.Audit.{is_on};
    ghost use Rattle.journal_audit.specs.Sections.{OnPart, is_at, waiting_on};

    ghost Value = { OnPart };

    ghost view = { λ s. record {
      part = s.part;
      state = record {
        rest = filter (is_on s.part) s.rest.now;
        waiting = waiting_on s.part s.waiting;
        answers = s.answers;
      };
    } };

    ghost invariant = { λ s. is_at s.part s.rest.now ≡ true };
}

impl<'a> Script<'a> {
    /// A thread's operations on a part, before it has invoked any.
    pub fn new(alloc: Global, part: u32, spec: &'a ThreadSpec) -> Script<'a>
        ensures { result ≡ record { part = part; state = thread_on part spec.now } }
    {
        Script {
            part,
            rest: from_part(part, spec.ops.as_slice()),
            waiting: None,
            answers: Items::new(alloc),
        }
    }

    /// The next operation on the part.
    pub fn next(&self) -> Option<&'a Op>
        ensures { MatchOption result (self.now.state.rest ≡ [])
            (λ op. (more : List (ℕ × Op))
            × (self.now.state.rest ≡ (self.now.part, op.now) ∷ more)) }
    {
        match self.rest.first() {
            Some((_, op)) => Some(op),
            None => None,
        }
    }

    /// Whether all operations on the part were invoked and answered.
    pub fn is_through(&self) -> bool
        ensures { result ≡ is_through self.now.state }
    {
        self.rest.is_empty() && self.waiting.is_none()
    }

    /// Notes an event of the part: this thread's invocation takes its next operation, and an answer to its open call is
    /// kept.
    pub fn hear(&mut self, alloc: Global, thread: u8, event: &Event) -> Result<(), NoMemory>
        ensures part { self.new.part ≡ self.old.part }
        ensures state { OnOk result (self.new.state
            ≡ thread_after self.old.part event.now
            (started thread self.old.part event.now self.old.state)) }
    {
        self.start(thread, event);
        self.settle(alloc, event)
    }

    /// If the event is an invocation by this thread, takes the next operation.
    fn start(&mut self, thread: u8, event: &Event)
        ensures { self.new ≡ with_state self.old
            (started thread self.old.part event.now self.old.state) }
    {
        if let Event::Invoke {
            call,
            thread: caller,
            ..
        } = event
            && *caller == thread
        {
            self.rest = following_first(self.part, self.rest);
            self.waiting = Some(*call);
        }
    }

    /// If the event answers the open call, keeps the answer.
    fn settle(&mut self, alloc: Global, event: &Event) -> Result<(), NoMemory>
        ensures part { self.new.part ≡ self.old.part }
        ensures state { OnOk result (self.new
            ≡ with_state self.old (thread_after self.old.part event.now self.old.state)) }
    {
        let Some(call) = self.waiting else {
            return Ok(());
        };
        if let Some(answer) = event.copy_of_answer(alloc, call)? {
            self.answers.push((self.part, answer))?;
            self.waiting = None;
        }
        Ok(())
    }

    /// The answers, each with its part.
    pub fn into_answers(self) -> PartAnswers
        ensures { result ≡ self.entry.state.answers }
    {
        self.answers
    }
}

/// The operations from the first one on a part.
fn from_part<'a>(part: u32, ops: &'a [(u32, Op)]) -> &'a [(u32, Op)]
    ensures same { filter (is_on part) result.now ≡ filter (is_on part) ops.now }
    ensures first { is_at part result.now ≡ true }
{
    for index in 0..ops.len() {
        if ops[index].0 == part {
            return &ops[index..];
        }
    }
    &ops[ops.len()..]
}

/// The operations after the first one, from the next one on the part.
fn following_first<'a>(part: u32, ops: &'a [(u32, Op)]) -> &'a [(u32, Op)]
    requires { is_at part ops.now ≡ true }
    ensures rest { filter (is_on part) result.now ≡ drop 1 (filter (is_on part) ops.now) }
    ensures first { is_at part result.now ≡ true }
{
    match ops.split_first() {
        Some((_, rest)) => from_part(part, rest),
        None => ops,
    }
}
