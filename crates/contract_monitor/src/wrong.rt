//! The first deed of a burst that breaks a clause.

ghost use Rattle.std.specs.Prelude.{◌≡◌, fold, map, IfOk, None};
ghost use Rattle.promise_defs.specs.Contract.{acts as acted, deeds_of};
ghost use Rattle.contract_monitor.specs.Keeping.{kept_act};
ghost use Rattle.contract_monitor.specs.Wrong.{first_wrong, wrong_among, wrong_at};

use crate::known::Known;
use nook_data::calls::Answer;
use nook_data::clause::Clause;
use nook_data::lists::TryCopy;
use nook_data::machine::Act;
use nook_data::memory::NoMemory;
use nook_data::steps::{End, Event, FailCause};

/// A deed of a burst that breaks a clause of the class's contract: the number of the burst's deeds before it, and the
/// smallest clause that it breaks.
#[derive(Clone, Copy)]
pub struct WrongDeed {
    pub index: u64,
    pub clause: Clause,
}

impl Known {
    /// The first deed of an event that breaks a clause. The event is tried on a copy of what is known.
    pub fn first_wrong(&self, event: &Event) -> Result<Option<WrongDeed>, NoMemory>
        ensures { IfOk result (λ wrong. wrong ≡ first_wrong self.now.known event.now) }
    {
        match event {
            Event::Burst {
                call,
                end,
                acts,
                answer,
                failure,
                ..
            } => {
                let mut known = self.copy(self.alloc)?;
                known.wrong_in_burst(*call, acts.as_slice(), end, answer, failure)
            }
            _ => Ok(None),
        }
    }

    /// The first deed of a burst of a call that breaks a clause. What is known is useless afterwards.
    fn wrong_in_burst(
        &mut self,
        call: u32,
        acts: &[Act],
        end: &End,
        answer: &Option<Answer>,
        failure: &Option<FailCause>,
    ) -> Result<Option<WrongDeed>, NoMemory>
        ensures { IfOk result (λ wrong. wrong
            ≡ wrong_among call self.old.known (deeds_of acts.now end.now answer.now failure.now)) }
    {
        match self.wrong_act(call, acts)? {
            Some(wrong) => Ok(Some(wrong)),
            None => {
                let clause = self.see_crossing(call, end, answer, failure)?;
                Ok(wrong_at(acts.len() as u64, clause))
            }
        }
    }

    /// The first act of a burst of a call that breaks a clause. If none does, all of them are now known.
    fn wrong_act(&mut self, call: u32, acts: &[Act]) -> Result<Option<WrongDeed>, NoMemory>
        ensures wrong { IfOk result
            (λ wrong. wrong ≡ wrong_among call self.old.known (map acted acts.now)) }
        ensures kept { IfOk result
            (λ wrong. wrong ≡ None → self.new ≡ fold (kept_act call) self.old acts.now) }
    {
        let mut index = 0_u64;
        for act in acts {
            if let Some(clause) = self.see_next(call, act)? {
                return Ok(Some(WrongDeed { index, clause }));
            }
            index += 1;
        }
        Ok(None)
    }
}

/// A deed with this many deeds before it, if it breaks a clause.
fn wrong_at(index: u64, clause: Option<Clause>) -> Option<WrongDeed>
    ensures { result ≡ wrong_at index clause }
{
    match clause {
        Some(clause) => Some(WrongDeed { index, clause }),
        None => None,
    }
}
