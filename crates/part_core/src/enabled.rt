//! Which steps may be taken.

ghost use Rattle.std.specs.Prelude.{◌≡◌, Some, IfSome, IsSome};
ghost use Rattle.part_defs.specs.Log.{call_of_thread, is_blocked, open_call};
ghost use Rattle.part_defs.specs.Views.CallLogs.{blocked_by};
ghost use Rattle.part_core.specs.Answering.{call_number};
ghost use Rattle.part_defs.specs.Steps.{can_arrive, can_burst, can_enter, can_invoke, can_stage, enabled, is_driven};
ghost use Rattle.part_defs.specs.Steps.{is_inside, is_ready};

use crate::state::State;
use nook_data::calls::CallEntry;
use nook_data::classes::Class;
use nook_data::limits::{MOST_CALLS, MOST_FRAME_WORDS, SHADOW};
use nook_data::lists::Words;
use nook_data::steps::{Mode, Step};

impl State {
    /// Whether the step may be taken now.
    #[tactic(auto, unfolding(part_defs::specs::Steps::enabled))]
    pub fn enabled(&self, step: &Step) -> bool
        ensures { result ≡ enabled self.now step.now }
    {
        match step {
            Step::Invoke { thread, .. } => self.can_invoke(*thread),
            Step::Enter { thread } => self.can_enter(*thread),
            Step::Burst { context } => self.can_burst(*context),
            Step::Stage => self.can_stage(),
            Step::Arrive { frame } => self.can_arrive(frame),
        }
    }

    /// Whether this is one of 16 threads, has no open call, and numbers are left.
    pub fn can_invoke(&self, thread: u8) -> bool
        ensures { result ≡ can_invoke self.now thread }
    {
        thread < SHADOW
            && self.log.call_of_thread(thread).is_none()
            && self.log.count() < MOST_CALLS
    }

    /// Whether the driver runs, the thread's call is Held, and nothing blocks it.
    pub fn can_enter(&self, thread: u8) -> bool
        ensures { result ≡ can_enter self.now thread }
    {
        self.mode == Mode::Running && self.is_ready(thread)
    }

    /// Whether the thread's call is Held, and nothing blocks it.
    fn is_ready(&self, thread: u8) -> bool
        ensures { result ≡ is_ready self.now (call_of_thread thread self.now.log.pending) }
    {
        match self.log.call_of_thread(thread) {
            Some(call) => !call.inside && !self.is_blocked(call),
            None => false,
        }
    }

    /// Whether an open call with a smaller number conflicts with this open call.
    fn is_blocked(&self, call: &CallEntry) -> bool
        requires { open_call call.now.call self.now.log.pending ≡ Some call.now }
        ensures { result ≡ is_blocked self.now.spec.class call.now self.now.log.pending }
    {
        self.log.blocked_by(self.spec.class, call.call).is_some()
    }

    /// The number of the first open call that the open call `call` has to wait for.
    pub fn blocked_by(&self, call: u32) -> Option<u32>
        requires { IsSome (open_call call self.now.log.pending) }
        ensures { IfSome (open_call call self.now.log.pending)
            (λ c. result ≡ call_number (blocked_by self.now.spec.class c self.now.log.pending)) }
    {
        self.log.blocked_by(self.spec.class, call)
    }

    /// Whether the context is Inside: the shadow's own, or, while the driver runs, that of a thread's call.
    pub fn can_burst(&self, context: u8) -> bool
        ensures { result ≡ can_burst self.now context }
    {
        if context == SHADOW {
            self.is_driven()
        } else {
            self.mode == Mode::Running && self.is_inside(context)
        }
    }

    /// Whether the thread's call is Inside.
    fn is_inside(&self, thread: u8) -> bool
        ensures { result ≡ is_inside (call_of_thread thread self.now.log.pending) }
    {
        match self.log.call_of_thread(thread) {
            Some(call) => call.inside,
            None => false,
        }
    }

    /// Whether the shadow's own call is Inside.
    pub fn is_driven(&self) -> bool
        ensures { result ≡ is_driven self.now }
    {
        self.domain.is_inside(SHADOW)
    }

    /// Whether a stage is due and does not wait for the shadow's call.
    pub fn can_stage(&self) -> bool
        ensures { result ≡ can_stage self.now }
    {
        self.stage_due().is_some() && !self.is_driven()
    }

    /// Whether this is a frame of 1 to 64 words for a part of class net, and arrivals are left.
    pub fn can_arrive(&self, frame: &Words) -> bool
        ensures { result ≡ can_arrive self.now frame.now }
    {
        self.spec.class == Class::Net
            && 1 <= frame.len()
            && frame.len() <= MOST_FRAME_WORDS
            && self.arrived < MOST_CALLS
    }
}
