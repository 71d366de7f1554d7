//! The mirror and its operations.

ghost use Rattle.std.specs.Prelude.{◌≡◌, ◌≤◌, false, true};
ghost use Rattle.nook_data.specs.Classes.{static_check};
ghost use Rattle.mirror_block.specs.Mirrors.{Ends, IsMirror, MirrorView, is_present, new_mirror};
ghost use Rattle.mirror_block.specs.Rule.{is_disk_op};
ghost use Rattle.mirror_block.specs.Sides.{IsNewSide};

use crate::check::{blocks_filled, refusal};
use crate::outcome::after_asking;
use crate::side::{Side, ask_both};
use crate::stop::MirrorStop;
use desk_like::DeskLike;
use nook_data::calls::Op;
use nook_data::classes::Class;
use nook_data::lists::{TryCopy, Words};
use nook_data::memory::NoMemory;
use nook_data::mirror::MirrorAnswer;
use std::alloc::Global;
use std::marker::Model;
use std::sync::Wait;

/// One disk over two block parts, for a single owner. Sides are 0, the left one, and 1, the right one.
#[derive(Drop)]
pub struct Mirror<'a, D: DeskLike> {
    left: Side<'a, D>,
    right: Side<'a, D>,
    blocks: u32,
    stopped: bool,
}

impl<'a, D: DeskLike> Model for Mirror<'a, D> {
    ghost use Rattle.mirror_block.specs.Mirrors.{IsMirror, MirrorView};

    ghost Value = { MirrorView D };

    ghost view = { λ m. record {
      left_desk = m.left.desk.now;
      right_desk = m.right.desk.now;
      left = D.view m.left.seat;
      right = D.view m.right.seat;
      present = record { left = m.left.present; right = m.right.present };
      blocks = m.blocks;
      stopped = m.stopped;
    } };

    ghost invariant = { λ m. D.is_seat m.left.desk.now m.left.seat
        × D.is_seat m.right.desk.now m.right.seat };
}

impl<'a, D: DeskLike> Mirror<'a, D> {
    /// A mirror over two desks, as a disk with `blocks` blocks. Both sides are present. It allocates nothing.
    pub fn new(
        left: &'a D,
        right: &'a D,
        left_seat: D::Seat,
        right_seat: D::Seat,
        blocks: u32,
    ) -> Mirror<'a, D>
        requires left_seat { D.is_seat left.now left_seat }
        requires right_seat { D.is_seat right.now right_seat }
        requires left { IsNewSide (D.spec left.now) blocks (D.view left_seat) }
        requires right { IsNewSide (D.spec right.now) blocks (D.view right_seat) }
        ensures mirror { IsMirror D.spec result }
        ensures made { result
            ≡ new_mirror left.now right.now (D.view left_seat) (D.view right_seat) blocks }
    {
        Mirror {
            left: Side {
                desk: left,
                seat: left_seat,
                present: true,
            },
            right: Side {
                desk: right,
                seat: right_seat,
                present: true,
            },
            blocks,
            stopped: false,
        }
    }

    /// Reads `count` blocks from `first` on, from the first side that gives them.
    ///
    /// `NoMemory` and `TooManyCalls` come from the side that is asked; each later call then returns `Stopped`.
    pub fn read<R: Wait>(
        &mut self,
        rt: &R,
        alloc: Global,
        first: u32,
        count: u32,
    ) -> Result<MirrorAnswer, MirrorStop>
        requires { IsMirror D.spec self.old }
        ensures mirror { IsMirror D.spec self.new }
        ensures ends { Ends self.old self.new (Op.Read first count) result }
    {
        if self.stopped {
            return Err(MirrorStop::Stopped);
        }
        if let Some(refusal) = refusal(self.blocks, first, count) {
            return Ok(refusal);
        }
        self.ask(rt, alloc, &Op::Read { first, count })
    }

    /// Writes blocks from `first` on to both sides.
    ///
    /// `NoMemory` without a side means that there was no memory for the mirror's own copy of the words. Otherwise
    /// `NoMemory` and `TooManyCalls` come from the side that is asked. Each later call then returns `Stopped`.
    pub fn write<R: Wait>(
        &mut self,
        rt: &R,
        alloc: Global,
        first: u32,
        words: &Words,
    ) -> Result<MirrorAnswer, MirrorStop>
        requires { IsMirror D.spec self.old }
        ensures mirror { IsMirror D.spec self.new }
        ensures ends { Ends self.old self.new (Op.Write first words.now) result }
    {
        if self.stopped {
            return Err(MirrorStop::Stopped);
        }
        if let Some(refusal) = refusal(self.blocks, first, blocks_filled(words)) {
            return Ok(refusal);
        }
        if !self.left.present && !self.right.present {
            return Ok(MirrorAnswer::BothLost);
        }
        match words.copy(alloc) {
            Ok(words) => self.ask(rt, alloc, &Op::Write { first, words }),
            Err(NoMemory) => {
                self.stopped = true;
                Err(MirrorStop::NoMemory { side: None })
            }
        }
    }

    // Asks the sides for an operation that passes the static check.
    fn ask<R: Wait>(&mut self, rt: &R, alloc: Global, op: &Op) -> Result<MirrorAnswer, MirrorStop>
        requires mirror { IsMirror D.spec self.old }
        requires goes { self.old.stopped ≡ false }
        requires disk_op { is_disk_op op.now ≡ true }
        requires checked { static_check Class.Block self.old.blocks op.now ≡ None }
        ensures mirror { IsMirror D.spec self.new }
        ensures ends { Ends self.old self.new op.now result }
    {
        match ask_both(rt, alloc, &mut self.left, &mut self.right, op) {
            Ok((left, right)) => {
                let outcome = after_asking(op, self.left.present, self.right.present, left, right);
                self.left.present = outcome.left;
                self.right.present = outcome.right;
                Ok(outcome.answer)
            }
            Err(why) => {
                self.stopped = true;
                Err(why)
            }
        }
    }

    /// Whether the mirror still asks this side, 0 or 1.
    pub fn present(&self, side: u8) -> bool
        requires { side ≤ 1 }
        ensures { result ≡ is_present self.now.present side }
    {
        if side == 0 {
            self.left.present
        } else {
            self.right.present
        }
    }

    /// Returns both seats.
    pub fn seats(self) -> (D::Seat, D::Seat)
        ensures left { D.is_seat self.entry.left_desk result.0 }
        ensures right { D.is_seat self.entry.right_desk result.1 }
        ensures left_view { D.view result.0 ≡ self.entry.left }
        ensures right_view { D.view result.1 ≡ self.entry.right }
    {
        (self.left.seat, self.right.seat)
    }
}
