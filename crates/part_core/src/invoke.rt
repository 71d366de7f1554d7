//! The step Invoke: a thread requests an operation, which is answered at once or stays open.

ghost use Rattle.std.specs.Prelude.{◌≡◌, true, IfNone};
ghost use Rattle.part_defs.specs.Calls.{answer_in, after_invoke, queue_in};
ghost use Rattle.part_defs.specs.Log.{queue_after, shadow_answer};
ghost use Rattle.part_defs.specs.Steps.{enabled};
ghost use Rattle.part_core.specs.Answering.{answer_at_once, queue_at_once};
ghost use Rattle.part_core.specs.Turning.{IsStepOf};

use crate::state::State;
use class_table::static_check;
use nook_data::calls::{Answer, Op};
use nook_data::lists::TryCopy;
use nook_data::memory::NoMemory;
use nook_data::steps::{Event, Mode, Stage, Step};
use shadow_proxy::{Proxy, front_for, proxy};

impl State {
    /// The static check answers the operation, or the mode answers or holds it. A call that is held keeps a copy of
    /// the operation in the log.
    #[tactic(auto, unfolding(part_defs::specs::Calls::after_invoke, part_defs::specs::Steps::enabled))]
    pub fn invoke(&mut self, thread: u8, op: Op) -> Result<Event, NoMemory>
        requires { enabled self.old (Step.Invoke thread op) ≡ true }
        ensures { IsStepOf (after_invoke thread op self.old) self.old result self.new }
    {
        match self.answer_at_once(thread, &op) {
            Some(answer) => {
                let call = self.log.number();
                Ok(Event::Invoke {
                    call,
                    thread,
                    op,
                    answer: Some(answer),
                })
            }
            None => {
                let kept = op.copy(self.alloc)?;
                let call = self.log.invoke(thread, kept)?;
                Ok(Event::Invoke {
                    call,
                    thread,
                    op,
                    answer: None,
                })
            }
        }
    }

    /// How the operation is answered at once. If it is answered with a frame, the frame leaves the queue.
    fn answer_at_once(&mut self, thread: u8, op: &Op) -> Option<Answer>
        ensures answer { result ≡ answer_at_once thread op.now self.old }
        ensures state { self.new ≡ record self.old { queue = queue_at_once op.now self.old } }
        ensures held { IfNone result (self.new ≡ self.old) }
    {
        match static_check(self.spec.class, self.spec.blocks, op) {
            Some(answer) => Some(answer),
            None => self.answer_in_mode(thread, op),
        }
    }

    fn answer_in_mode(&mut self, thread: u8, op: &Op) -> Option<Answer>
        ensures answer { result ≡ answer_in self.old.mode thread op.now self.old }
        ensures state { self.new
            ≡ record self.old { queue = queue_in self.old.mode op.now self.old.queue } }
        ensures held { IfNone result (self.new ≡ self.old) }
    {
        match self.mode {
            Mode::Boot { .. } | Mode::Running => None,
            Mode::Recovering { stage } => self.shadow_answer(thread, op, stage),
            Mode::Dead { .. } => Some(Answer::Gone {
                failures: self.failures,
            }),
        }
    }

    #[tactic(auto, using(recovery_manager::proofs::OpenCalls::answered_by_front, crate::proofs::ShadowAnswers::held_leaves_queue))]
    fn shadow_answer(&mut self, thread: u8, op: &Op, stage: Stage) -> Option<Answer>
        ensures answer { result
            ≡ shadow_answer op.now thread self.old.log.config self.old.log.holder stage
            self.old.queue }
        ensures state { self.new ≡ record self.old { queue = queue_after op.now self.old.queue } }
        ensures held { IfNone result (self.new ≡ self.old) }
    {
        let front = front_for(op, &mut self.queue);
        match proxy(op, thread, self.log.shadow(), &stage, front) {
            Proxy::Answer(answer) => Some(answer),
            Proxy::Hold => None,
        }
    }
}
