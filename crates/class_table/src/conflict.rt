//! Conflicts: of two open calls whose operations conflict, the later waits for the earlier.

ghost use Rattle.std.specs.Prelude.{◌≡◌, ℕ, ◌+◌};
ghost use Rattle.nook_data.specs.Classes.{clash, conflicts, first_of_op, is_of_stream, is_recv, is_set, is_write};
ghost use Rattle.nook_data.specs.Classes.{share_block};
ghost use Rattle.nook_data.specs.declared.classes.Class.{Class};
ghost use Rattle.nook_data.specs.declared.calls.Op.{Op};

use crate::operation::{blocks_of_op, first_of_op};
use nook_data::calls::Op;
use nook_data::classes::Class;

/// Whether two operations of the class conflict: a Set conflicts with every other; in class block, a Write with a
/// Read or Write of a common block; in class net, two Recvs; in class sound, any two of Open, Play and Close.
pub fn conflicts(class: Class, first: &Op, second: &Op) -> bool
    ensures { result ≡ conflicts class first.now second.now }
{
    is_set(first) || is_set(second) || clash(class, first, second)
}

/// A law: the order of the two operations does not matter.
pub fn conflicts_are_symmetric()
    ensures { (class : Class) (first second : Op)
        → conflicts class first second ≡ conflicts class second first }
{}

/// Two operations of the class, neither of them a Set.
fn clash(class: Class, first: &Op, second: &Op) -> bool
    ensures { result ≡ clash class first.now second.now }
{
    match class {
        Class::Block => (is_write(first) || is_write(second)) && overlap(first, second),
        Class::Net => is_recv(first) && is_recv(second),
        Class::Sound => is_of_stream(first) && is_of_stream(second),
    }
}

/// Whether two ranges of blocks have a block in common. Their sums do not wrap.
fn overlap(first: &Op, second: &Op) -> bool
    ensures { result ≡ share_block first.now second.now }
{
    let (one, other) = (
        u64::from(first_of_op(first)),
        u64::from(first_of_op(second)),
    );
    one < other + blocks_of_op(second) && other < one + blocks_of_op(first)
}

fn is_set(op: &Op) -> bool
    ensures { result ≡ is_set op.now }
{
    matches!(op, Op::Set { .. })
}

fn is_write(op: &Op) -> bool
    ensures { result ≡ is_write op.now }
{
    matches!(op, Op::Write { .. })
}

fn is_recv(op: &Op) -> bool
    ensures { result ≡ is_recv op.now }
{
    matches!(op, Op::Recv)
}

fn is_of_stream(op: &Op) -> bool
    ensures { result ≡ is_of_stream op.now }
{
    matches!(op, Op::Open | Op::Play { .. } | Op::Close)
}
