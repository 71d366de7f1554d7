//! A call that waits for its answer.

ghost use Rattle.std.specs.Prelude.{◌≡◌, ◌≤◌, Some, is_some, true};
ghost use Rattle.nook_data.specs.Answers.{answer_at};
ghost use Rattle.part_server.specs.Answers.{AnswersShortly};

use nook_data::desks::Receipt;
use nook_data::limits::MOST_ANSWER_WORDS;
use nook_data::memory::Room;
use nook_data::steps::Event;

/// An open call of a thread, the number of its invocation, and room for its answer. None of the first `looked` events
/// answers it.
#[derive(Drop)]
pub struct Waiting {
    pub call: u32,
    pub thread: u8,
    pub at_invoke: u64,
    pub looked: usize,
    pub room: Room<u32>,
}

/// How far a call got in a turn.
#[derive(Drop)]
pub enum Progress {
    Answered(Receipt),
    Open(Waiting),
}

impl Waiting {
    /// The receipt for the answer of the event with a number. It allocates nothing.
    pub fn receipt(self, number: u64, event: &Event) -> Receipt
        requires answers { is_some (answer_at self.call event.now) ≡ true }
        requires short { AnswersShortly event.now }
        requires room { MOST_ANSWER_WORDS ≤ self.room }
        ensures call { result.call ≡ self.call }
        ensures at_invoke { result.at_invoke ≡ self.at_invoke }
        ensures at_reply { result.at_reply ≡ number }
        ensures answer { answer_at self.call event.now ≡ Some result.answer }
    {
        match event.answer_to(self.call) {
            Some(answer) => Receipt {
                call: self.call,
                at_invoke: self.at_invoke,
                at_reply: number,
                answer: answer.copy_in_room(self.room),
            },
            None => unreachable!(),
        }
    }
}
