//! The answer that an event gives to a call.

ghost use Rattle.std.specs.Prelude.{◌≡◌, None, Some, IfOk, MatchOption};
ghost use Rattle.nook_data.specs.Answers.{answer_among, answer_at};

use crate::calls::Answer;
use crate::lists::TryCopy;
use crate::memory::NoMemory;
use crate::steps::Event;
use std::alloc::Global;

impl Event {
    /// The answer that the event gives to the call with this number, counted from 1; `None` if it gives it none.
    pub fn answer_to(&self, call: u32) -> Option<&Answer>
        ensures { MatchOption result (answer_at call self.now ≡ None)
            (λ answer. answer_at call self.now ≡ Some answer.now) }
    {
        match self {
            Event::Invoke {
                call: this,
                answer: Some(answer),
                ..
            }
            | Event::Enter {
                call: this,
                answer: Some(answer),
                ..
            }
            | Event::Burst {
                call: this,
                answer: Some(answer),
                ..
            } if *this == call => Some(answer),
            Event::Stage { answers, .. } => answer_among(answers.as_slice(), call),
            _ => None,
        }
    }

    /// A copy of the answer that `answer_to` returns.
    pub fn copy_of_answer(&self, alloc: Global, call: u32) -> Result<Option<Answer>, NoMemory>
        ensures { IfOk result (λ answer. answer ≡ answer_at call self.now) }
    {
        match self.answer_to(call) {
            Some(answer) => Ok(Some(answer.copy(alloc)?)),
            None => Ok(None),
        }
    }
}

/// The first answer to the call with this number among the answers of a stage.
pub fn answer_among(answers: &[(u32, Answer)], call: u32) -> Option<&Answer>
    ensures { MatchOption result (answer_among call answers.now ≡ None)
        (λ answer. answer_among call answers.now ≡ Some answer.now) }
{
    for (this, answer) in answers {
        if *this == call {
            return Some(answer);
        }
    }
    None
}
