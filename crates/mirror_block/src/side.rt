//! One side of a mirror, and how both are asked.

ghost use Rattle.std.specs.Prelude.{◌≡◌, false, true, is_some};
ghost use Rattle.mirror_block.specs.Rule.{is_disk_op, words_read};
ghost use Rattle.mirror_block.specs.Sides.{AskBothEnds, AskEnds, IsSide};

use crate::stop::MirrorStop;
use desk_like::DeskLike;
use nook_data::calls::{Answer, Op};
use nook_data::desks::DeskRefused;
use std::alloc::Global;
use std::sync::Wait;

/// The thread for which every call is made.
const OWNER: u8 = 0;

/// A desk with the only seat at it, and whether the mirror still asks it.
#[derive(Drop)]
pub struct Side<'a, D: DeskLike> {
    pub desk: &'a D,
    pub seat: D::Seat,
    pub present: bool,
}

/// Asks a side once, if it is to be asked, and returns its answer. `number` is the side's number, 0 or 1.
fn ask<R: Wait, D: DeskLike>(
    rt: &R,
    alloc: Global,
    side: &mut Side<D>,
    number: u8,
    asked: bool,
    op: &Op,
) -> Result<Option<Answer>, MirrorStop>
    requires seat { D.is_seat side.old.desk.now side.old.seat }
    requires side { IsSide (D.spec side.old.desk.now) (D.spec side.old.desk.now).blocks false
        (D.view side.old.seat) }
    requires disk_op { is_disk_op op.now ≡ true }
    ensures same { side.new ≡ record side.old { seat = side.new.seat } }
    ensures seat { D.is_seat side.new.desk.now side.new.seat }
    ensures ends { AskEnds (D.spec side.old.desk.now) (D.view side.old.seat)
        (D.view side.new.seat) number asked op.now
        result }
{
    if !asked {
        return Ok(None);
    }
    match side.desk.call(rt, alloc, &mut side.seat, OWNER, op) {
        Ok(receipt) => Ok(Some(receipt.answer)),
        Err(DeskRefused::NoMemory { .. }) => Err(MirrorStop::NoMemory { side: Some(number) }),
        Err(DeskRefused::TooManyCalls) => Err(MirrorStop::TooManyCalls { side: number }),
        Err(_) => unreachable!(),
    }
}

/// Whether a side gave the blocks that it was asked for.
fn gave_blocks(said: &Option<Answer>) -> bool
    ensures { result ≡ is_some (words_read said.now) }
{
    matches!(said, Some(Answer::Blocks(_)))
}

/// Asks the left side, and then the right one if its answer is needed too: in a write, or if the left side gave no
/// blocks. A side that is not present is not asked.
pub fn ask_both<R: Wait, D: DeskLike>(
    rt: &R,
    alloc: Global,
    left: &mut Side<D>,
    right: &mut Side<D>,
    op: &Op,
) -> Result<(Option<Answer>, Option<Answer>), MirrorStop>
    requires left_seat { D.is_seat left.old.desk.now left.old.seat }
    requires right_seat { D.is_seat right.old.desk.now right.old.seat }
    requires left { IsSide (D.spec left.old.desk.now) (D.spec left.old.desk.now).blocks false
        (D.view left.old.seat) }
    requires right { IsSide (D.spec right.old.desk.now) (D.spec right.old.desk.now).blocks false
        (D.view right.old.seat) }
    requires disk_op { is_disk_op op.now ≡ true }
    ensures left_same { left.new ≡ record left.old { seat = left.new.seat } }
    ensures right_same { right.new ≡ record right.old { seat = right.new.seat } }
    ensures left_seat { D.is_seat left.new.desk.now left.new.seat }
    ensures right_seat { D.is_seat right.new.desk.now right.new.seat }
    ensures ends { AskBothEnds
        (record {
          left_spec = D.spec left.old.desk.now;
          right_spec = D.spec right.old.desk.now;
          left_old = D.view left.old.seat;
          left_new = D.view left.new.seat;
          right_old = D.view right.old.seat;
          right_new = D.view right.new.seat;
        })
        (record { left = left.old.present; right = right.old.present }) op.now result }
{
    let left_said = ask(rt, alloc, left, 0, left.present, op)?;
    let expected = matches!(op, Op::Write { .. }) || !gave_blocks(&left_said);
    let right_said = ask(rt, alloc, right, 1, right.present && expected, op)?;
    Ok((left_said, right_said))
}
