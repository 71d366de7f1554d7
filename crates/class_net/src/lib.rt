//! How class net handles a call's Enter and its driver's reply.
#![tactic(auto)]

ghost use Rattle.std.specs.Prelude.{◌≡◌, true};
ghost use Rattle.nook_data.specs.Classes.{accept, admit, is_of_class};

use class_table::entry_address;
use nook_data::calls::Op;
use nook_data::classes::{Accept, Admit, Class, ClassState};
use nook_data::steps::FailCause;

/// What becomes of an operation of class net when it is entered: a Recv takes a frame from the kernel's receive
/// queue, if there is one; all others go to their driver.
pub fn admit(thread: u8, op: &Op, state: &ClassState) -> Admit
    requires { is_of_class Class.Net op.now ≡ true }
    ensures { result ≡ admit Class.Net thread op.now state.now.holder state.now.queued }
{
    let _ = thread;
    match op {
        Op::Recv if state.queued > 0 => Admit::TakeFrame,
        Op::Send { .. } | Op::Recv | Op::Get { .. } | Op::Set { .. } => Admit::Enter {
            entry: entry_address(Class::Net, op),
        },
        _ => unreachable!(),
    }
}

/// What becomes of an operation of class net whose driver replies with `status`: only 0 is accepted.
pub fn accept(op: &Op, status: u32) -> Accept
    requires { is_of_class Class.Net op.now ≡ true }
    ensures { result ≡ accept op.now status }
{
    match op {
        Op::Send { .. } | Op::Recv | Op::Get { .. } | Op::Set { .. } => {
            if status == 0 {
                Accept::Take
            } else {
                Accept::Fail(FailCause::BadReply { status })
            }
        }
        _ => unreachable!(),
    }
}
