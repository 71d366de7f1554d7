//! How class block handles a call's Enter and its driver's reply.
#![tactic(auto)]

ghost use Rattle.std.specs.Prelude.{◌≡◌, ◌+◌, ◌^◌, ◌≤◌, true};
ghost use Rattle.nook_data.specs.Classes.{accept, admit, blocks_of_op, first_of_op, is_of_class};

use class_table::{blocks_of_op, entry_address, first_of_op};
use nook_data::calls::Op;
use nook_data::classes::{Accept, Admit, Class, ClassState};
use nook_data::steps::FailCause;

/// The status that reports that block 0 of a Read or Write failed; the next reports block 1, and so on.
const FIRST_IO_STATUS: u32 = 256;

/// What becomes of an operation of class block when it is entered: it always goes to its driver.
pub fn admit(thread: u8, op: &Op, state: &ClassState) -> Admit
    requires { is_of_class Class.Block op.now ≡ true }
    ensures { result ≡ admit Class.Block thread op.now state.now.holder state.now.queued }
{
    let _ = thread;
    let _ = state;
    match op {
        Op::Read { .. } | Op::Write { .. } | Op::Get { .. } | Op::Set { .. } => Admit::Enter {
            entry: entry_address(Class::Block, op),
        },
        _ => unreachable!(),
    }
}

/// What becomes of an operation whose driver replies with `status`: 0 is accepted; 256 + i of a Read or Write
/// that covers more than i blocks reports that its block with index i failed; any other status is a failure.
pub fn accept(op: &Op, status: u32) -> Accept
    requires { first_of_op op.now + blocks_of_op op.now ≤ 2 ^ 32 }
    ensures { result ≡ accept op.now status }
{
    if status == 0 {
        return Accept::Take;
    }
    if FIRST_IO_STATUS <= status && u64::from(status - FIRST_IO_STATUS) < blocks_of_op(op) {
        return Accept::IoError {
            block: first_of_op(op) + (status - FIRST_IO_STATUS),
        };
    }
    Accept::Fail(FailCause::BadReply { status })
}
