//! How class sound handles a call's Enter and its driver's reply.
#![tactic(auto)]

ghost use Rattle.std.specs.Prelude.{◌≡◌, true};
ghost use Rattle.nook_data.specs.Classes.{accept, admit, is_of_class};

use class_table::entry_address;
use nook_data::calls::{Answer, Op};
use nook_data::classes::{Accept, Admit, Class, ClassState};
use nook_data::steps::FailCause;

/// What becomes of an operation of class sound when it is entered. An Open goes to its driver if the stream
/// is free, a Play or Close if the calling thread has it; otherwise they are answered at once.
pub fn admit(thread: u8, op: &Op, state: &ClassState) -> Admit
    requires { is_of_class Class.Sound op.now ≡ true }
    ensures { result ≡ admit Class.Sound thread op.now state.now.holder state.now.queued }
{
    match (op, state.holder) {
        (Op::Open, Some(holder)) => Admit::Reply(Answer::InUse { holder }),
        (Op::Play { .. } | Op::Close, None) => Admit::Reply(Answer::NotOpen),
        (Op::Play { .. } | Op::Close, Some(holder)) if holder != thread => Admit::Reply(
            Answer::NotOpen,
        ),
        (Op::Open | Op::Play { .. } | Op::Close | Op::Get { .. } | Op::Set { .. }, _) =>
            Admit::Enter {
                entry: entry_address(Class::Sound, op),
            },
        _ => unreachable!(),
    }
}

/// What becomes of an operation of class sound whose driver replies with `status`: only 0 is accepted.
pub fn accept(op: &Op, status: u32) -> Accept
    requires { is_of_class Class.Sound op.now ≡ true }
    ensures { result ≡ accept op.now status }
{
    match op {
        Op::Open | Op::Play { .. } | Op::Close | Op::Get { .. } | Op::Set { .. } => {
            if status == 0 {
                Accept::Take
            } else {
                Accept::Fail(FailCause::BadReply { status })
            }
        }
        _ => unreachable!(),
    }
}
