//! A driver's reply at the end of a burst.

ghost use Rattle.std.specs.Prelude.{◌≡◌, ◌+◌, ◌^◌, ◌<◌, ◌≤◌, None, Some, true, IfSome};
ghost use Rattle.nook_data.specs.Classes.{accept, blocks_of_op, first_of_op, is_of_class};
ghost use Rattle.part_defs.specs.Crossing.{call_replied, closes_call, is_accepted, next_stage, noted_set, after_reply};
ghost use Rattle.part_defs.specs.Crossing.{reply_answer, shadow_fault, shadow_replied, stage_in};
ghost use Rattle.part_defs.specs.Log.{call_of_thread, frame_or_empty, queue_after};
ghost use Rattle.part_core.specs.Crossings.{crossed_to, IsCrossable, IsWithin};
ghost use Rattle.part_defs.specs.State.{PartState};
ghost use Rattle.shadow_proxy.specs.Table.{queue_of};

use crate::crossing::{Outcome, goes_on};
use crate::rooms::Rooms;
use crate::state::State;
use domain_call::Domain;
use kernel_services::RxQueue;
use nook_data::calls::{Answer, CallEntry, Op};
use nook_data::classes::{Accept, Class};
use nook_data::limits::{BLOCK_WORDS, CONTEXTS, SHADOW};
use nook_data::lists::Words;
use nook_data::rx_front::RxFront;
use nook_data::steps::{End, FailCause, Mode, Stage};

impl State {
    /// A reply to the shadow, or to an application's call.
    pub fn reply(&mut self, context: u8, status: u32, rooms: &mut Rooms) -> Outcome
        requires crossable { IsCrossable context self.old }
        requires rooms { rooms.old ≡ true }
        ensures { after_reply status context self.old ≡ crossed_to self.new result }
    {
        if context == SHADOW {
            self.reply_to_shadow(status)
        } else {
            self.reply_to_call(context, status, rooms)
        }
    }

    /// The shadow's own call is accepted, and the next stage is due; otherwise it is a failure.
    fn reply_to_shadow(&mut self, status: u32) -> Outcome
        requires { self.old.failures < 2 ^ 31 }
        ensures { shadow_replied status self.old ≡ crossed_to self.new result }
    {
        let end = End::Reply { status };
        let stage = self.stage_in();
        if self.is_accepted(status, &stage) {
            self.next_stage();
            goes_on(end)
        } else {
            self.fail(end, shadow_fault(status, &stage))
        }
    }

    /// The stage that the shadow's call belongs to.
    fn stage_in(&self) -> Stage
        ensures { result ≡ stage_in self.now.mode }
    {
        match self.mode {
            Mode::Boot { stage } | Mode::Recovering { stage } => stage,
            Mode::Running => Stage::Resume,
            Mode::Dead { .. } => Stage::Collect,
        }
    }

    /// Whether the status is 0 and, for Init, the driver is registered.
    fn is_accepted(&self, status: u32, stage: &Stage) -> bool
        requires { stage.now ≡ stage_in self.now.mode }
        ensures { result ≡ is_accepted status self.now }
    {
        status == 0 && (*stage != Stage::Init || self.domain.is_registered())
    }

    /// Frees the shadow's context; the stage after Init or a replay is due.
    #[tactic(auto, unfolding(part_defs::specs::Crossing::next_stage))]
    fn next_stage(&mut self)
        ensures { self.new ≡ next_stage self.old }
    {
        self.mode = match self.mode {
            Mode::Boot { .. } => Mode::Boot {
                stage: Stage::Resume,
            },
            Mode::Recovering { stage } => self.mode_after(&stage, self.mode),
            other => other,
        };
        self.domain.leave(SHADOW);
    }

    /// The class accepts the reply, which answers the call; otherwise it is a failure.
    fn reply_to_call(&mut self, context: u8, status: u32, rooms: &mut Rooms) -> Outcome
        requires crossable { IsCrossable context self.old }
        requires rooms { rooms.old ≡ true }
        ensures { call_replied status self.old (call_of_thread context self.old.log.pending)
            ≡ crossed_to self.new result }
    {
        let end = End::Reply { status };
        let Some(entry) = self.log.call_of_thread(context) else {
            return goes_on(end);
        };
        match accept(self.spec.class, &entry.op, status) {
            Accept::Take => {
                let answer = self.take_answer(context, rooms);
                self.close(context);
                answered(end, answer)
            }
            Accept::IoError { block } => {
                self.close(context);
                answered(end, Answer::IoError { block })
            }
            Accept::Fail(cause) => self.fail(end, cause),
        }
    }
}

impl State {
    /// The answer to a call whose reply has status 0. A Recv takes the queue's first frame.
    fn take_answer(&mut self, context: u8, rooms: &mut Rooms) -> Answer
        requires crossable { IsCrossable context self.old }
        requires rooms { rooms.old ≡ true }
        ensures answer { IfSome (call_of_thread context self.old.log.pending)
            (λ c. result ≡ reply_answer c.op c.thread self.old) }
        ensures state { IfSome (call_of_thread context self.old.log.pending) (λ c.
            self.new ≡ record self.old { queue = queue_after c.op self.old.queue }) }
    {
        match self.log.call_of_thread(context) {
            Some(entry) => reply_answer(entry, &self.domain, &mut self.queue, rooms),
            None => Answer::Done,
        }
    }

    /// The call is answered: its loan ends, and the record and the holder are updated. The queue is unchanged.
    #[tactic(auto, unfolding(part_defs::specs::Crossing::closes_call, part_defs::specs::Views::CallLogs::acknowledged_call))]
    fn close(&mut self, context: u8)
        requires crossable { IsCrossable context self.old }
        ensures { IfSome (call_of_thread context self.old.log.pending) (λ c.
            self.new ≡ record (closes_call c self.old) { queue = self.old.queue }) }
    {
        if let Some(entry) = self.log.call_of_thread(context) {
            let call = entry.call;
            self.domain.leave(entry.thread);
            note_set(&mut self.domain, &entry.op);
            self.log.acknowledge(call);
            self.log.answered(call);
        }
    }
}

/// The answer to a call by its operation. A Recv takes the queue's first frame.
fn reply_answer(
    entry: &CallEntry,
    domain: &Domain,
    queue: &mut RxQueue,
    rooms: &mut Rooms,
) -> Answer
    requires low { entry.now.thread < CONTEXTS }
    requires within { IsWithin entry.now.op }
    requires rooms { rooms.old ≡ true }
    ensures answer { (p : PartState) → p.domain ≡ domain.now.state → p.queue ≡ queue.old
        → result ≡ reply_answer entry.now.op entry.now.thread p }
    ensures queue { queue.new ≡ queue_after entry.now.op queue.old }
{
    match entry.op {
        Op::Read { count, .. } => {
            let room = rooms.use_answer();
            let words = domain.buffer_words(entry.thread, count * BLOCK_WORDS as u32, room);
            Answer::Blocks(words.fitted())
        }
        Op::Get { .. } => Answer::Value(domain.first_word(entry.thread)),
        Op::Recv => frame_or_empty(queue.take_front()),
        _ => Answer::Done,
    }
}

/// Writes an acknowledged Set to object 0.
fn note_set(domain: &mut Domain, op: &Op)
    requires { IsWithin op.now }
    ensures { domain.new ≡ record domain.old { state = noted_set op.now domain.old.state } }
{
    if let Op::Set { key, value } = op {
        domain.note(*key, *value);
    }
}

/// A reply that is accepted and answers the call.
fn answered(end: End, answer: Answer) -> Outcome
    ensures end { result.end ≡ end }
    ensures answer { result.answer ≡ Some answer }
    ensures failure { result.failure ≡ None }
{
    Outcome {
        end,
        answer: Some(answer),
        failure: None,
    }
}

/// The answer to a Recv, with the frame that was taken.
fn frame_or_empty(front: Option<Words>) -> Answer
    ensures { result ≡ frame_or_empty (queue_of front) }
{
    match front {
        Some(frame) => Answer::Frame(frame),
        None => Answer::Empty,
    }
}

/// Why a reply to the shadow is a failure.
fn shadow_fault(status: u32, stage: &Stage) -> FailCause
    ensures { result ≡ shadow_fault status stage.now }
{
    if *stage == Stage::Init {
        FailCause::BadInit { status }
    } else {
        FailCause::BadReply { status }
    }
}

/// How the class handles the driver's reply to one of its operations.
fn accept(class: Class, op: &Op, status: u32) -> Accept
    requires class { is_of_class class op.now ≡ true }
    requires range { first_of_op op.now + blocks_of_op op.now ≤ 2 ^ 32 }
    ensures { result ≡ accept op.now status }
{
    match class {
        Class::Block => class_block::accept(op, status),
        Class::Net => class_net::accept(op, status),
        Class::Sound => class_sound::accept(op, status),
    }
}
