//! What the crossing at the end of a burst requests is done in the same step.

ghost use Rattle.std.specs.Prelude.{◌≡◌, ◌<◌, ◌^◌, None, true};
ghost use Rattle.part_defs.specs.Crossing.{after_crossing, failed_crossing, is_last};
ghost use Rattle.part_core.specs.Crossings.{crossed_to, IsCrossable};

use crate::rooms::Rooms;
use crate::state::State;
use nook_data::calls::Answer;
use nook_data::limits::{CONTEXTS, MOST_BURSTS};
use nook_data::machine::BurstEnd;
use nook_data::steps::{End, FailCause, Mode, Stage};

/// What became of a crossing, as the burst's event shows it.
#[derive(Drop)]
pub struct Outcome {
    pub end: End,
    pub answer: Option<Answer>,
    pub failure: Option<FailCause>,
}

impl State {
    /// Handles a trap, a 32nd burst that is no reply, a kernel call, a pause, or a reply. It takes no memory.
    #[tactic(auto, unfolding(part_defs::specs::Crossing::after_crossing))]
    pub fn cross(&mut self, context: u8, end: BurstEnd, rooms: &mut Rooms) -> Outcome
        requires crossable { IsCrossable context self.old }
        requires rooms { rooms.old ≡ true }
        ensures { after_crossing context end self.old ≡ crossed_to self.new result }
    {
        match end {
            BurstEnd::Trap(cause) => self.fail(End::Trap, FailCause::Trap(cause)),
            BurstEnd::Kcall { service } => self.call_kernel(context, service, rooms),
            BurstEnd::Pause => self.pause(context),
            BurstEnd::Reply { status } => self.reply(context, status, rooms),
        }
    }

    #[tactic(auto, unfolding(part_defs::specs::Crossing::after_crossing))]
    fn pause(&mut self, context: u8) -> Outcome
        requires crossable { IsCrossable context self.old }
        ensures { after_crossing context BurstEnd.Pause self.old ≡ crossed_to self.new result }
    {
        if self.is_last(context) {
            self.fail(End::Pause, FailCause::TooManyCrossings)
        } else {
            goes_on(End::Pause)
        }
    }

    /// Whether the burst was the 32nd of its attempt.
    pub fn is_last(&self, context: u8) -> bool
        requires { context < CONTEXTS }
        ensures { result ≡ is_last context self.now }
    {
        self.domain.bursts(context) == MOST_BURSTS
    }

    /// The driver failed: the failure is counted, also in object 0; the shadow's call ends; recovery begins with Stop.
    #[tactic(auto, unfolding(part_defs::specs::Crossing::fails))]
    pub fn fail(&mut self, end: End, cause: FailCause) -> Outcome
        requires { self.old.failures < 2 ^ 31 }
        ensures { failed_crossing self.old end cause ≡ crossed_to self.new result }
    {
        self.failures += 1;
        self.mode = Mode::Recovering { stage: Stage::Stop };
        self.domain.fail(self.failures);
        Outcome {
            end,
            answer: None,
            failure: Some(cause),
        }
    }
}

/// A crossing that neither answers nor fails.
pub fn goes_on(end: End) -> Outcome
    ensures end { result.end ≡ end }
    ensures answer { result.answer ≡ None }
    ensures failure { result.failure ≡ None }
{
    Outcome {
        end,
        answer: None,
        failure: None,
    }
}
