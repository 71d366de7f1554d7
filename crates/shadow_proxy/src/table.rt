//! The table, with a case for each operation.

ghost use Rattle.std.specs.Prelude.{◌≡◌};
ghost use Rattle.part_defs.specs.Log.{queue_after, shadow_answer};
ghost use Rattle.shadow_proxy.specs.Front.{front_for};
ghost use Rattle.shadow_proxy.specs.Table.{answer_of, queue_of};

use crate::decision::Proxy;
use nook_data::calls::{Answer, Op};
use nook_data::lists::Words;
use nook_data::rx_front::RxFront;
use nook_data::steps::Stage;
use shadow_log::ShadowLog;

/// The shadow's table. `front` is the frame that the caller took from the kernel's queue for a Recv. It takes
/// no memory.
#[tactic(auto, unfolding(part_defs::specs::Log::shadow_answer))]
pub fn proxy(op: &Op, thread: u8, log: &ShadowLog, stage: &Stage, front: Option<Words>) -> Proxy
    ensures { answer_of result
        ≡ shadow_answer op.now thread log.now.config log.now.holder stage.now (queue_of front) }
{
    match op {
        Op::Read { .. } | Op::Write { .. } | Op::Close | Op::Set { .. } => Proxy::Hold,
        Op::Send { .. } => Proxy::Answer(Answer::Done),
        Op::Recv => {
            match front {
                Some(frame) => Proxy::Answer(Answer::Frame(frame)),
                None => Proxy::Answer(Answer::Empty),
            }
        }
        Op::Open => Proxy::Answer(Answer::Busy { stage: *stage }),
        Op::Play { .. } => {
            if log.holder() == Some(thread) {
                Proxy::Answer(Answer::Done)
            } else {
                Proxy::Answer(Answer::NotOpen)
            }
        }
        Op::Get { key } => Proxy::Answer(Answer::Value(log.config(*key))),
    }
}

/// The frame with which the shadow may answer the operation: for a Recv the first of the kernel's queue, which
/// leaves it; none for any other.
pub fn front_for<Q: RxFront>(op: &Op, queue: &mut Q) -> Option<Words>
    ensures front { result ≡ front_for op.now (Q.frames queue.old) }
    ensures left { Q.frames queue.new ≡ queue_after op.now (Q.frames queue.old) }
{
    match op {
        Op::Recv => queue.take_front(),
        _ => None,
    }
}
