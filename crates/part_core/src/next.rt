//! The next step of a part.

ghost use Rattle.std.specs.Prelude.{◌≡◌};
ghost use Rattle.part_defs.specs.Runs.{next_any, next_for, next_of_calls, next_recovery};

use crate::state::State;
use nook_data::limits::SHADOW;
use nook_data::steps::Step;

impl State {
    /// The Enter or the Burst of a thread's open call, if it may be taken. A thread without an open call has no step.
    #[tactic(auto, unfolding(part_defs::specs::Runs::next_for, part_defs::specs::Steps::enabled))]
    pub fn next_for(&self, thread: u8) -> Option<Step>
        ensures { result ≡ next_for self.now thread }
    {
        if self.log.call_of_thread(thread).is_none() {
            None
        } else if self.can_enter(thread) {
            Some(Step::Enter { thread })
        } else if self.can_burst(thread) {
            Some(Step::Burst { context: thread })
        } else {
            None
        }
    }

    /// The stage, or the burst of the shadow's context, if it may be taken.
    #[tactic(auto, unfolding(part_defs::specs::Runs::next_recovery, part_defs::specs::Steps::enabled))]
    pub fn next_recovery(&self) -> Option<Step>
        ensures { result ≡ next_recovery self.now }
    {
        if self.can_stage() {
            Some(Step::Stage)
        } else if self.can_burst(SHADOW) {
            Some(Step::Burst { context: SHADOW })
        } else {
            None
        }
    }

    /// The recovery's next step, otherwise that of the open call with the smallest number that has one.
    #[tactic(auto, unfolding(part_defs::specs::Runs::next_any))]
    pub fn next_any(&self) -> Option<Step>
        ensures { result ≡ next_any self.now }
    {
        match self.next_recovery() {
            Some(step) => Some(step),
            None => self.next_of_calls(),
        }
    }

    /// The next step of the first open call that has one.
    fn next_of_calls(&self) -> Option<Step>
        ensures { result ≡ next_of_calls self.now self.now.log.pending }
    {
        for entry in self.log.pending() {
            if let Some(step) = self.next_for(entry.thread) {
                return Some(step);
            }
        }
        None
    }
}
