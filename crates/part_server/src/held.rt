//! The part in a lock, and what a caller does with it while it has the turn.

ghost use Rattle.std.specs.Prelude.{◌≡◌, ◌<◌, ◌≤◌, IsSome, Some, false, length, true};
ghost use Rattle.nook_data.specs.Classes.{same_class};
ghost use Rattle.nook_data.specs.Numbered.{at_number};
ghost use Rattle.part_defs.specs.Log.{call_of_thread};
ghost use Rattle.part_defs.specs.Steps.{can_invoke, enabled};
ghost use Rattle.nook_data.specs.declared.classes.Class.TheVariants as class;
ghost use Rattle.part_core.specs.Kept.{IsKept};
ghost use Rattle.part_core.specs.Turning.{IsStepped};
ghost use Rattle.part_server.specs.Answers.{AnswersShortly, Invokes};
ghost use Rattle.part_server.specs.Turns.{ArriveGives, FindGives, GoOnGives, InvokeGives, InvokedGives, IsGoingOn};
ghost use Rattle.part_server.specs.Turns.{IsOwn, LookGives, ReachedGives, RefusalGives, SettleGives};
ghost use Rattle.desk_like.specs.Desks.{IsAt};

use crate::answers::{first_answer, invocation};
use crate::waiting::{Progress, Waiting};
use nook_data::calls::Op;
use nook_data::desks::{DeskRefused, Receipt};
use nook_data::limits::{MOST_ANSWER_WORDS, MOST_FRAME_WORDS};
use nook_data::lists::Words;
use nook_data::memory::{NoMemory, Room};
use nook_data::steps::{Event, Step};
use part_core::{Part, StepDone, StepRefused};
use std::marker::Model;

/// A part, which its run represents.
#[derive(Drop)]
pub struct LockedPart {
    part: Part,
}

impl Model for LockedPart {
    ghost use Rattle.part_defs.specs.Runs.{PartRun};
    ghost use Rattle.part_core.specs.Kept.{IsKept};

    ghost Value = { PartRun };

    ghost view = { λ s. s.part };

    ghost invariant = { λ s. IsKept s.part };
}

impl LockedPart {
    /// Takes a part.
    pub fn new(part: Part) -> LockedPart
        ensures part { result ≡ part }
        ensures kept { IsKept result }
    {
        let _journal = part.journal();
        let _spec = part.spec();
        LockedPart { part }
    }

    /// Returns the part.
    pub fn into_part(self) -> Part
        ensures part { result ≡ self }
        ensures kept { IsKept result }
    {
        self.part
    }

    /// The number of events.
    pub fn count(&self) -> u64
        ensures { result ≡ length self.now.journal }
    {
        self.part.journal().len() as u64
    }

    /// Takes one step, as `Part::step` does.
    fn step(&mut self, step: Step) -> Result<StepDone, StepRefused>
        ensures stepped { IsStepped self.old step result self.new }
        ensures was { IsKept self.old }
        ensures kept { IsKept self.new }
    {
        self.part.step(step)
    }

    /// The event with a number, from 1.
    fn event(&self, number: u64) -> &Event
        requires { (0 < number) × (number ≤ length self.now.journal) }
        ensures there { at_number number self.now.journal ≡ Some result.now }
        ensures short { AnswersShortly result.now }
    {
        self.part.journal().get(number as usize - 1)
    }

    /// The receipt for an open call if one of the events not yet looked at answers it; otherwise the call again.
    pub fn look(&self, waiting: Waiting) -> Result<Receipt, Waiting>
        requires looked { waiting.looked ≤ length self.now.journal }
        requires room { MOST_ANSWER_WORDS ≤ waiting.room }
        ensures gives { LookGives self.now.journal waiting result }
        ensures kept { IsKept self.now }
    {
        let events = self.part.journal().as_slice();
        match first_answer(events, waiting.looked, waiting.call) {
            Some(number) => Ok(waiting.receipt(number, self.event(number))),
            None => Err(waiting),
        }
    }

    /// Invokes an operation for a thread.
    pub fn invoke(&mut self, thread: u8, op: Op, room: Room<u32>) -> Result<Progress, DeskRefused>
        requires thread { thread < 16 }
        requires room { MOST_ANSWER_WORDS ≤ room }
        ensures gives { InvokeGives self.old self.new thread op result }
        ensures kept { IsKept self.new }
    {
        match self.step(Step::Invoke { thread, op }) {
            Ok(done) => Ok(self.invoked(done.number, thread, room)),
            Err(StepRefused::NoMemory) => Err(DeskRefused::NoMemory { call: None }),
            Err(StepRefused::NotEnabled) => Err(self.refusal(thread)),
        }
    }

    /// Why a thread may not invoke an operation.
    fn refusal(&self, thread: u8) -> DeskRefused
        requires thread { thread < 16 }
        requires refused { can_invoke self.now.state thread ≡ false }
        ensures { RefusalGives self.now thread result }
    {
        match self.part.open_of(thread) {
            Some(call) => DeskRefused::OpenCall { call },
            None => DeskRefused::TooManyCalls,
        }
    }

    /// How far a call got in the last event, which invoked it.
    fn invoked(&self, number: u64, thread: u8, room: Room<u32>) -> Progress
        requires last { (number ≡ length self.now.journal) × IsAt self.now.journal number Invokes }
        requires room { MOST_ANSWER_WORDS ≤ room }
        ensures { InvokedGives self.now.journal thread result }
    {
        let Event::Invoke { call, .. } = self.event(number) else {
            unreachable!()
        };
        self.reached(Waiting {
            call: *call,
            thread,
            at_invoke: number,
            looked: number as usize,
            room,
        })
    }

    /// How far a call got in the last event. After it, all events were looked at.
    fn reached(&self, waiting: Waiting) -> Progress
        requires some { 0 < length self.now.journal }
        requires looked { waiting.looked ≡ length self.now.journal }
        requires room { MOST_ANSWER_WORDS ≤ waiting.room }
        ensures { ReachedGives self.now.journal waiting result }
    {
        let number = waiting.looked as u64;
        let event = self.event(number);
        if event.answer_to(waiting.call).is_some() {
            Progress::Answered(waiting.receipt(number, event))
        } else {
            Progress::Open(waiting)
        }
    }

    /// Takes a step for an open call: its own next step if there is one, otherwise the part's.
    pub fn go_on(&mut self, mut waiting: Waiting) -> Result<Progress, DeskRefused>
        requires { IsGoingOn self.old waiting }
        ensures gives { GoOnGives self.old self.new waiting result }
        ensures kept { IsKept self.new }
    {
        match self.step(self.next(waiting.thread)) {
            Ok(done) => {
                waiting.looked = done.number as usize;
                Ok(self.reached(waiting))
            }
            Err(StepRefused::NoMemory) => Err(DeskRefused::NoMemory {
                call: Some(waiting.call),
            }),
            Err(StepRefused::NotEnabled) => unreachable!(),
        }
    }

    /// The next step of a thread's open call if there is one, otherwise the part's.
    fn next(&self, thread: u8) -> Step
        requires { IsSome (call_of_thread thread self.now.state.log.pending) }
        ensures own { IsOwn result }
        ensures enabled { enabled self.now.state result ≡ true }
    {
        match self.part.next_for(thread) {
            Some(step) => step,
            None => match self.part.next_any() {
                Some(step) => step,
                None => unreachable!(),
            },
        }
    }

    /// The thread's open call, ready to be waited for.
    pub fn find(&self, thread: u8, room: Room<u32>) -> Result<Waiting, DeskRefused>
        requires { MOST_ANSWER_WORDS ≤ room }
        ensures gives { FindGives self.now thread result }
        ensures kept { IsKept self.now }
    {
        let Some(call) = self.part.open_of(thread) else {
            return Err(DeskRefused::NoOpenCall);
        };
        let events = self.part.journal().as_slice();
        let Some(at_invoke) = invocation(events, call, thread) else {
            unreachable!()
        };
        Ok(Waiting {
            call,
            thread,
            at_invoke,
            looked: events.len(),
            room,
        })
    }

    /// Adds the arrival of a frame. Returns whether the device's ring had room for it.
    pub fn arrive(&mut self, frame: Words) -> Result<bool, DeskRefused>
        requires net { same_class self.old.state.spec.class class.Net ≡ true }
        requires some { 1 ≤ length frame }
        requires fits { length frame ≤ MOST_FRAME_WORDS }
        ensures gives { ArriveGives self.old self.new frame result }
        ensures kept { IsKept self.new }
    {
        match self.step(Step::Arrive { frame }) {
            Ok(done) => match self.event(done.number) {
                Event::Arrive { kept, .. } => Ok(*kept),
                _ => unreachable!(),
            },
            Err(StepRefused::NoMemory) => Err(DeskRefused::NoMemory { call: None }),
            Err(StepRefused::NotEnabled) => Err(DeskRefused::TooManyArrivals),
        }
    }

    /// Takes the part's next step, and returns whether there was one.
    pub fn settle(&mut self) -> Result<bool, NoMemory>
        ensures gives { SettleGives self.old self.new result }
        ensures kept { IsKept self.new }
    {
        let Some(step) = self.part.next_any() else {
            return Ok(false);
        };
        match self.step(step) {
            Ok(_) => Ok(true),
            Err(StepRefused::NoMemory) => Err(NoMemory),
            Err(StepRefused::NotEnabled) => unreachable!(),
        }
    }
}
