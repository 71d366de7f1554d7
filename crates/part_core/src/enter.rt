//! The step Enter: a Held call is answered by its class, or goes Inside.

ghost use Rattle.std.specs.Prelude.{◌≡◌, true};
ghost use Rattle.part_defs.specs.Calls.{after_enter};
ghost use Rattle.nook_data.specs.Classes.{admit, is_of_class};
ghost use Rattle.nook_data.specs.Frames.{head_of, tail_of};
ghost use Rattle.part_core.specs.Entering.{IsEnterable};
ghost use Rattle.part_core.specs.Turning.{stepped_to};

use crate::state::State;
use nook_data::calls::{Answer, Op};
use nook_data::classes::{Admit, Class, ClassState};
use nook_data::lists::Words;
use nook_data::rx_front::RxFront;
use nook_data::steps::Event;

impl State {
    /// A thread's Held call is answered by its class, or goes Inside with its parameters copied from the log. It takes
    /// no memory.
    #[tactic(auto, unfolding(part_defs::specs::Calls::after_enter))]
    pub fn enter(&mut self, thread: u8) -> Event
        requires { IsEnterable thread self.old }
        ensures { after_enter thread self.old ≡ stepped_to self.new result }
    {
        let Some(entry) = self.log.call_of_thread(thread) else {
            unreachable!()
        };
        let (call, caller, attempt) = (entry.call, entry.thread, entry.attempts + 1);
        let state = ClassState {
            holder: self.log.holder(),
            queued: self.queue.len(),
        };
        match admit(self.spec.class, thread, &entry.op, &state) {
            Admit::Reply(answer) => {
                self.log.answered(call);
                entered(call, caller, attempt, Some(answer))
            }
            Admit::TakeFrame => {
                self.log.answered(call);
                let frame = self.front();
                entered(call, caller, attempt, Some(Answer::Frame(frame)))
            }
            Admit::Enter { entry: index } => {
                self.domain.enter(caller, index, &entry.op);
                self.log.entered(call);
                entered(call, caller, attempt, None)
            }
        }
    }

    /// Takes the oldest frame from the queue; an empty frame if the queue is empty.
    fn front(&mut self) -> Words
        ensures frame { result ≡ head_of self.old.queue }
        ensures state { self.new ≡ record self.old { queue = tail_of self.old.queue } }
    {
        match self.queue.take_front() {
            Some(frame) => frame,
            None => Words::new(self.alloc),
        }
    }
}

/// The event of an Enter.
fn entered(call: u32, thread: u8, attempt: u32, answer: Option<Answer>) -> Event
    ensures { result ≡ Event.Enter call thread attempt answer }
{
    Event::Enter {
        call,
        thread,
        attempt,
        answer,
    }
}

/// How the class handles one of its operations.
fn admit(class: Class, thread: u8, op: &Op, state: &ClassState) -> Admit
    requires { is_of_class class op.now ≡ true }
    ensures { result ≡ admit class thread op.now state.now.holder state.now.queued }
{
    match class {
        Class::Block => class_block::admit(thread, op, state),
        Class::Net => class_net::admit(thread, op, state),
        Class::Sound => class_sound::admit(thread, op, state),
    }
}
