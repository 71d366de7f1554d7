//! A part with its journal: one atomic step adds one event.

ghost use Rattle.std.specs.Prelude.{◌≡◌, ◌<◌, ◌≤◌, ◌^◌, is_some, length, true, [], IsSome, IfNone, IfSome, IfOk, OnErr, OnOk};
ghost use Rattle.machine_defs.specs.Devices.{medium_of};
ghost use Rattle.machine_defs.specs.Pages.{object_words};
ghost use Rattle.part_defs.specs.Log.{call_of_thread, open_call};
ghost use Rattle.part_defs.specs.Views.CallLogs.{answered_at, blocked_by};
ghost use Rattle.part_defs.specs.Runs.{IsRun, next_any, next_for, next_recovery, opening_run, run_after, state_of};
ghost use Rattle.part_defs.specs.Steps.{can_arrive, can_invoke, enabled};
ghost use Rattle.nook_data.specs.Valid.{IsValidPart};
ghost use Rattle.part_core.specs.Answering.{call_number};
ghost use Rattle.part_core.specs.Turning.{IsStepped};
ghost use Rattle.part_laws.specs.Answered.{is_answered};
ghost use Rattle.part_laws.specs.Recovery.{HasFacts, IsKeptRun};

mod packed;

use crate::left_rooms::LeftRooms;
use crate::state::State;
use domain_call::Domain;
use fault_script::FaultScript;
use nook_data::journal::Journal;
use nook_data::limits::BLOCK_WORDS;
use nook_data::lists::{TryCopy, Word, Words};
use nook_data::memory::{NoMemory, Room};
use nook_data::memory_map::{LAST_OBJECT, OBJECT_WORDS, object_start};
use nook_data::scenario::PartSpec;
use nook_data::steps::{Event, Mode, Step};
pub use packed::PackedPart;
use std::alloc::Global;
use std::marker::Model;

/// The number of the event that a step made, from 1.
#[derive(Clone, Copy, PartialEq, Eq)]
pub struct StepDone {
    pub number: u64,
}

/// Why a step was not taken. The part is unchanged.
#[derive(Clone, Copy, PartialEq, Eq)]
pub enum StepRefused {
    /// The step may not be taken now.
    NotEnabled,
    /// Memory ran out.
    NoMemory,
}

/// One part. Contracts see its state and the list of its events. Whatever steps it took, its journal is a run of the
/// part.
pub struct Part {
    /// Allocated separately, so that a part is moved without it.
    state: Box<State>,
    script: FaultScript,
    journal: Journal,
}

impl Model for Part {
    ghost use Rattle.part_defs.specs.Runs.{PartRun};
    ghost use Rattle.part_core.specs.Kept.{AreSameFaults, IsKept};

    ghost Value = { PartRun };

    ghost view = { λ s. record { state = s.state.value; journal = s.journal.list } };

    ghost invariant = { λ s. IsKept (record { state = s.state.value; journal = s.journal.list })
        × AreSameFaults s.script s.state.value.spec.faults };
}

impl Drop for Part {
    /// Written by hand, so that it is proved once and not in each function that owns a part.
    fn drop(self) {
        let Part {
            state: _,
            script: _,
            journal: _,
        } = self;
    }
}

impl Part {
    /// A part at the start of its boot, with an empty journal. The spec is valid.
    pub fn new(alloc: Global, spec: PartSpec) -> Result<Part, NoMemory>
        requires { IsValidPart spec }
        ensures { IfOk result (λ part. part ≡ opening_run spec) }
    {
        Part::over(alloc, spec, &mut LeftRooms::none(alloc))
    }

    /// Like `new`, in the memory for acts, crossings, pages and claims that other parts left.
    pub fn over(alloc: Global, spec: PartSpec, left: &mut LeftRooms) -> Result<Part, NoMemory>
        requires { IsValidPart spec }
        ensures { IfOk result (λ part. part ≡ opening_run spec) }
    {
        let script = FaultScript::new(spec.faults.copied(alloc)?)?;
        let state = Box::new(alloc, State::over(alloc, spec, left)?)?;
        Ok(Part {
            state,
            script,
            journal: Journal::new(alloc),
        })
    }

    /// Whether the step may be taken now.
    pub fn enabled(&self, step: &Step) -> bool
        ensures { result ≡ enabled self.now.state step.now }
    {
        self.state.enabled(step)
    }

    /// Whether the thread may invoke an operation now: it is below 16 and has no open call, and numbers are left.
    pub fn can_invoke(&self, thread: u8) -> bool
        ensures { result ≡ can_invoke self.now.state thread }
    {
        self.state.can_invoke(thread)
    }

    /// Whether the frame may arrive now.
    pub fn can_arrive(&self, frame: &Words) -> bool
        ensures { result ≡ can_arrive self.now.state frame.now }
    {
        self.state.can_arrive(frame)
    }

    /// Takes one step, which adds one event to the journal. It returns `NotEnabled` exactly if the step may not be
    /// taken; a refusal leaves the part unchanged.
    pub fn step(&mut self, step: Step) -> Result<StepDone, StepRefused>
        ensures { IsStepped self.old step result self.new }
    {
        if !self.state.enabled(&step) {
            return Err(StepRefused::NotEnabled);
        }
        match self.take(step) {
            Ok(done) => Ok(done),
            Err(NoMemory) => Err(StepRefused::NoMemory),
        }
    }

    /// Takes one step that may be taken, which adds one event to the journal. After `NoMemory` the part is unchanged.
    pub fn take(&mut self, step: Step) -> Result<StepDone, NoMemory>
        requires { enabled self.old.state step ≡ true }
        ensures ok { OnOk result (self.new ≡ run_after self.old step) }
        ensures number { IfOk result (λ done. done.number ≡ length self.new.journal) }
        ensures err { OnErr result (self.new ≡ self.old) }
    {
        if self.journal.reserve().is_err() {
            return Err(NoMemory);
        }
        match self.state.step(step, &self.script) {
            Ok(event) => {
                self.journal.push_reserved(event);
                Ok(StepDone {
                    number: self.journal.len() as u64,
                })
            }
            Err(_) => Err(NoMemory),
        }
    }

    /// The Enter or the Burst of the thread's open call, if it may be taken. A thread without an open call has no step,
    /// nor has thread 16: the shadow's own call is a step of `next_recovery`.
    pub fn next_for(&self, thread: u8) -> Option<Step>
        ensures { result ≡ next_for self.now.state thread }
    {
        self.state.next_for(thread)
    }

    /// The stage, or the burst of the shadow's own call, if it may be taken.
    pub fn next_recovery(&self) -> Option<Step>
        ensures { result ≡ next_recovery self.now.state }
    {
        self.state.next_recovery()
    }

    /// `next_recovery`, otherwise `next_for` of the open call with the smallest number that has one. It is never None
    /// while a call is open.
    pub fn next_any(&self) -> Option<Step>
        ensures next { result ≡ next_any self.now.state }
        ensures enabled { IfSome result (λ step. enabled self.now.state step ≡ true) }
        ensures none { IfNone result (self.now.state.log.pending ≡ []) }
    {
        self.state.next_any()
    }

    /// The journal, which is a run of the part. The rest of the part is dropped. It takes no memory.
    pub fn into_journal(self) -> Journal
        ensures journal { result.list ≡ self.journal }
        ensures run { IsRun self.state.spec result.list }
        ensures facts { IsKeptRun self.state.spec result.list
            → HasFacts self.state.spec result.list }
    {
        let Part {
            state: _,
            script: _,
            journal,
        } = self;
        journal
    }

    /// The journal, as from `into_journal`. The part leaves its memory for acts, crossings, pages and
    /// claims.
    pub fn into_journal_leaving(self, left: &mut LeftRooms) -> Journal
        ensures journal { result.list ≡ self.journal }
        ensures run { IsRun self.state.spec result.list }
    {
        let Part {
            state,
            script: _,
            journal,
        } = self;
        Box::into_inner(state).leave(left);
        journal
    }

    /// The driver's domain as it is now.
    pub fn domain(&self) -> &Domain
        ensures { result.now.state ≡ self.now.state.domain }
    {
        &self.state.domain
    }

    /// The bursts so far: fewer than 2^23, as in every run.
    pub fn bursts(&self) -> u32
        ensures count { result ≡ self.now.state.bursts }
        ensures few { result < 2 ^ 23 }
    {
        self.state.bursts
    }

    /// The events so far. They are a run of the part, which is in the state that they lead to.
    pub fn journal(&self) -> &Journal
        ensures journal { result.now.list ≡ self.now.journal }
        ensures run { IsRun self.now.state.spec result.now.list }
        ensures state { self.now.state ≡ state_of self.now.state.spec result.now.list }
    {
        &self.journal
    }

    /// What the part is made from. It is valid.
    pub fn spec(&self) -> &PartSpec
        ensures spec { result.now ≡ self.now.state.spec }
        ensures valid { IsValidPart self.now.state.spec }
    {
        &self.state.spec
    }

    /// What the part is doing.
    pub fn mode(&self) -> Mode
        ensures { result ≡ self.now.state.mode }
    {
        self.state.mode
    }

    /// The words of kernel object 0 to 12.
    pub fn object(&self, alloc: Global, object: u32) -> Result<Words, NoMemory>
        requires { object ≤ LAST_OBJECT }
        ensures { IfOk result (λ words. words ≡ object_words object self.now.state.domain.memory) }
    {
        let room = Room::new(alloc, OBJECT_WORDS as usize)?;
        let start = object_start(object);
        Ok(self.state.domain.pages().words(start, OBJECT_WORDS, room))
    }

    /// The blocks of the disk; none if the part has another device.
    pub fn medium(&self) -> &[[Word; BLOCK_WORDS]]
        ensures { result.now ≡ medium_of self.now.state.domain.device }
    {
        self.state.domain.device().medium()
    }

    /// The configuration last acknowledged, by key.
    pub fn config(&self) -> [Word; 4]
        ensures { result ≡ self.now.state.log.config }
    {
        self.state.log.configuration()
    }

    /// The failures so far.
    pub fn failures(&self) -> u32
        ensures { result ≡ self.now.state.failures }
    {
        self.state.failures
    }

    /// The number of the thread's open call, which may be passed to `blocked_by`.
    pub fn open_of(&self, thread: u8) -> Option<u32>
        ensures number { result ≡ call_number (call_of_thread thread self.now.state.log.pending) }
        ensures open { IfSome result (λ call. IsSome (open_call call self.now.state.log.pending)) }
    {
        match self.state.log.call_of_thread(thread) {
            Some(entry) => Some(entry.call),
            None => None,
        }
    }

    /// The number of the first open call that the open call `call` has to wait for; None exactly if it waits for no
    /// call.
    pub fn blocked_by(&self, call: u32) -> Option<u32>
        requires { IsSome (open_call call self.now.state.log.pending) }
        ensures { IfSome (open_call call self.now.state.log.pending) (λ c.
            result ≡ call_number
            (blocked_by self.now.state.spec.class c self.now.state.log.pending)) }
    {
        self.state.blocked_by(call)
    }

    /// How many calls were invoked so far.
    pub fn calls(&self) -> u32
        ensures { result ≡ self.now.state.log.count }
    {
        self.state.log.count()
    }

    /// The number of the event that answered the call, from 1; None exactly if the call is open or no call was given
    /// this number.
    pub fn answered_at(&self, call: u32) -> Option<u64>
        ensures number { result ≡ answered_at self.now.journal call }
        ensures reported { is_some result ≡ is_answered self.now.state.log call }
    {
        number_of_answer(self.journal.as_slice(), call)
    }
}

/// The number, from 1, of the first event that answers the call.
fn number_of_answer(events: &[Event], call: u32) -> Option<u64>
    ensures { result ≡ answered_at events.now call }
{
    for number in 0..events.len() {
        if events[number].answer_to(call).is_some() {
            return Some(number as u64 + 1);
        }
    }
    None
}
