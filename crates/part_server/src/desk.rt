//! Desks for parts.

ghost use Rattle.std.specs.Prelude.{◌≡◌, ◌<◌, ◌≤◌, None, [], length, true, false, IfOk, OnOk};
ghost use mathlib.Core.List.{IsPrefix};
ghost use Rattle.desk_like.specs.Desks.{Accounts, ArriveEnds, CallEnds, IsAlone, Joins, ResumeEnds, Waits, halved_view};
ghost use Rattle.desk_like.specs.Desks.{new_view, state_seen};
ghost use Rattle.desk_like.specs.Stamps.{Clocked, IsStamped, IsStampedFrom, Ticks};
ghost use Rattle.nook_data.specs.Classes.{same_class};
ghost use Rattle.part_defs.specs.Runs.{IsRun, next_any};
ghost use Rattle.nook_data.specs.declared.classes.Class.TheVariants as class;
ghost use Rattle.part_core.specs.Kept.{IsKept};
ghost use Rattle.part_server.specs.Desk.{IsDeskSeat, desk_spec, desk_view};
ghost use Rattle.part_server.specs.Entries.{entries, events_of, journal_view, stamps_of};
ghost use Rattle.part_server.specs.Turns.{AdvanceEnds, FindEnds, FinishEnds, InvokeEnds, IsGrown};
ghost use Rattle.part_server.specs.Turns.{IsWaitingIn, SettlesOnce, ended, opening_view};
ghost use Rattle.turn_lock.specs.Seats.{IsSeatOf, MadeIsSeen, seat_view};

use crate::dated::{Dated, took_step};
use crate::held::LockedPart;
use crate::seat::DeskSeat;
use crate::waiting::{Progress, Waiting};
use clocks::{Clock, Stamps};
use desk_like::DeskLike;
use nook_data::calls::Op;
use nook_data::desks::{DeskRefused, Receipt};
use nook_data::limits::{MOST_ANSWER_WORDS, MOST_FRAME_WORDS};
use nook_data::lists::{TryCopy, Words};
use nook_data::memory::{NoMemory, Room};
use part_core::Part;
use std::alloc::Global;
use std::sync::Wait;
use turn_lock::{Turn, TurnSeat};

/// A part that threads call through a desk. They share it by reference, and each uses its own seat.
///
/// No contract promises that a waiting call ever returns, or in which order callers get their turn.
#[derive(Drop)]
pub struct PartDesk {
    turn: Turn<Dated>,
}

impl PartDesk {
    /// Makes a desk for a part that has taken no step, and the desk's first seat. That seat is alone until it is split,
    /// and again once all that was split from it was joined into it.
    ///
    /// On `NoMemory` the part is dropped.
    pub fn new(alloc: Global, part: Part) -> Result<(PartDesk, DeskSeat), NoMemory>
        requires { part.journal ≡ [] }
        ensures spec { IfOk result (λ made. desk_spec made.0 ≡ part.state.spec) }
        ensures seat { IfOk result (λ made. IsDeskSeat made.0 made.1) }
        ensures view { IfOk result (λ made. desk_view made.1 ≡ opening_view) }
    {
        let (turn, seat) = Turn::new(alloc, Dated::new(LockedPart::new(part), Stamps::new()))?;
        let clock = Clock::start();
        Ok((PartDesk { turn }, DeskSeat { seat, clock }))
    }

    /// Continues a thread's open call until it is answered, by this call or by another caller.
    ///
    /// It returns `NoOpenCall` exactly if the thread has none. This adds nothing, and neither does a `NoMemory` that
    /// names no call: there was no memory for the answer. A `NoMemory` that names a call leaves it open.
    pub fn resume<R: Wait>(
        &self,
        rt: &R,
        alloc: Global,
        seat: &mut DeskSeat,
        thread: u8,
    ) -> Result<Receipt, DeskRefused>
        requires { IsDeskSeat self.now seat.old }
        ensures seat { IsDeskSeat self.now seat.new }
        ensures run { IsRun (desk_spec self.now) (desk_view seat.new).seen }
        ensures accounts { Accounts (desk_view seat.new) }
        ensures ends { ResumeEnds (desk_spec self.now) (desk_view seat.old)
            (desk_view seat.new) thread result }
        ensures clocked { Clocked (desk_view seat.new) }
        ensures ticks { Ticks (desk_view seat.old) (desk_view seat.new) }
    {
        // What holds for a seat between two calls also holds if nothing is done.
        let _ = &seat.seat;
        let Ok(room) = Room::new(alloc, MOST_ANSWER_WORDS) else {
            return Err(DeskRefused::NoMemory { call: None });
        };
        let waiting = self.find(rt, seat, thread, room)?;
        self.finish(rt, seat, waiting)
    }

    /// Takes the part's next step until there is none. On `NoMemory` the steps that were taken remain.
    pub fn settle<R: Wait>(&self, rt: &R, seat: &mut DeskSeat) -> Result<(), NoMemory>
        requires { IsDeskSeat self.now seat.old }
        ensures seat { IsDeskSeat self.now seat.new }
        ensures run { IsRun (desk_spec self.now) (desk_view seat.new).seen }
        ensures accounts { Accounts (desk_view seat.new) }
        ensures waits { Waits (desk_view seat.old) (desk_view seat.new) }
        ensures clocked { Clocked (desk_view seat.new) }
        ensures ticks { Ticks (desk_view seat.old) (desk_view seat.new) }
        ensures settled { OnOk result
            (next_any (state_seen (desk_spec self.now) (desk_view seat.new)) ≡ None) }
    {
        for _ in rt.forever() {
            if !self.settle_once(rt, seat)? {
                return Ok(());
            }
        }
        unreachable!()
    }

    /// Ends the desk and returns its part. The part's journal begins with all that the seat has seen, and is exactly
    /// that if the seat is alone.
    ///
    /// It waits while another seat has the turn.
    pub fn close<R: Wait>(self, rt: &R, seat: DeskSeat) -> Part
        requires { IsDeskSeat self seat }
        ensures spec { result.state.spec ≡ desk_spec self }
        ensures begins { IsPrefix (desk_view seat).seen result.journal }
        ensures alone { IsAlone (desk_view seat) → result.journal ≡ (desk_view seat).seen }
        ensures accounts { Accounts (desk_view seat) }
        ensures kept { IsKept result }
        ensures stamped { IsStampedFrom (desk_view seat).stamps result.journal }
    {
        let (held, _stamps) = self.turn.close(rt, seat.seat).open();
        held.into_part()
    }

    /// Ends a turn: commits the event that it added, or gives the part back as it was taken.
    fn end_turn(&self, seat: &mut TurnSeat<Dated>, dated: Dated, is_added: bool)
        requires seat { IsSeatOf self.now.turn seat.old }
        requires turn { (seat_view seat.old).has ≡ true }
        requires grown { IsGrown is_added (seat_view seat.old).taken
            (entries dated.run.journal dated.stamps) }
        requires stamped { IsStamped dated.run.journal dated.stamps }
        requires home { dated.run.state.spec ≡ desk_spec self.now }
        requires kept { IsKept dated.run }
        ensures seat { IsSeatOf self.now.turn seat.new }
        ensures view { journal_view (seat_view seat.new)
            ≡ ended is_added (journal_view (seat_view seat.old)) dated.run.journal }
        ensures free { (seat_view seat.new).has ≡ false }
        ensures seen { events_of (seat_view seat.new).seen ≡ dated.run.journal }
        ensures stamps { stamps_of (seat_view seat.new).seen ≡ dated.stamps }
        ensures made { MadeIsSeen (journal_view (seat_view seat.new)) }
    {
        if is_added {
            self.turn.commit_and_give(seat, dated);
        } else {
            self.turn.give_back(seat, dated);
        }
    }

    /// One turn that invokes an operation.
    fn invoke<R: Wait>(
        &self,
        rt: &R,
        seat: &mut DeskSeat,
        thread: u8,
        op: Op,
        room: Room<u32>,
    ) -> Result<Progress, DeskRefused>
        requires seat { IsDeskSeat self.now seat.old }
        requires thread { thread < 16 }
        requires room { MOST_ANSWER_WORDS ≤ room }
        ensures seat { IsDeskSeat self.now seat.new }
        ensures run { IsRun (desk_spec self.now) (desk_view seat.new).seen }
        ensures accounts { Accounts (desk_view seat.new) }
        ensures ends { InvokeEnds (desk_spec self.now) (desk_view seat.old)
            (desk_view seat.new) thread op result }
        ensures clocked { Clocked (desk_view seat.new) }
        ensures ticks { Ticks (desk_view seat.old) (desk_view seat.new) }
    {
        let mut dated = self.turn.take(rt, &mut seat.seat);
        let invoked = dated.invoke(&mut seat.clock, thread, op, room);
        self.end_turn(&mut seat.seat, dated, invoked.is_ok());
        invoked
    }

    /// One turn for an open call: it returns the answer if there is one by now, and otherwise takes a step.
    fn advance<R: Wait>(
        &self,
        rt: &R,
        seat: &mut DeskSeat,
        waiting: Waiting,
    ) -> Result<Progress, DeskRefused>
        requires seat { IsDeskSeat self.now seat.old }
        requires waiting { IsWaitingIn (desk_spec self.now) (desk_view seat.old) waiting }
        ensures seat { IsDeskSeat self.now seat.new }
        ensures run { IsRun (desk_spec self.now) (desk_view seat.new).seen }
        ensures accounts { Accounts (desk_view seat.new) }
        ensures ends { AdvanceEnds (desk_spec self.now) (desk_view seat.old)
            (desk_view seat.new) waiting result }
        ensures clocked { Clocked (desk_view seat.new) }
        ensures ticks { Ticks (desk_view seat.old) (desk_view seat.new) }
    {
        let mut dated = self.turn.take(rt, &mut seat.seat);
        let waiting = match dated.look(&mut seat.clock, waiting) {
            Ok(receipt) => {
                self.end_turn(&mut seat.seat, dated, false);
                return Ok(Progress::Answered(receipt));
            }
            Err(waiting) => waiting,
        };
        let went_on = dated.go_on(&mut seat.clock, waiting);
        self.end_turn(&mut seat.seat, dated, went_on.is_ok());
        went_on
    }

    /// Takes turns until an open call is answered.
    fn finish<R: Wait>(
        &self,
        rt: &R,
        seat: &mut DeskSeat,
        mut waiting: Waiting,
    ) -> Result<Receipt, DeskRefused>
        requires seat { IsDeskSeat self.now seat.old }
        requires waiting { IsWaitingIn (desk_spec self.now) (desk_view seat.old) waiting }
        ensures seat { IsDeskSeat self.now seat.new }
        ensures run { IsRun (desk_spec self.now) (desk_view seat.new).seen }
        ensures accounts { Accounts (desk_view seat.new) }
        ensures ends { FinishEnds (desk_spec self.now) (desk_view seat.old)
            (desk_view seat.new) waiting result }
        ensures clocked { Clocked (desk_view seat.new) }
        ensures ticks { Ticks (desk_view seat.old) (desk_view seat.new) }
    {
        for _ in rt.forever() {
            match self.advance(rt, seat, waiting) {
                Ok(Progress::Answered(receipt)) => return Ok(receipt),
                Ok(Progress::Open(next)) => waiting = next,
                Err(refused) => return Err(refused),
            }
        }
        unreachable!()
    }

    /// One turn that finds a thread's open call.
    fn find<R: Wait>(
        &self,
        rt: &R,
        seat: &mut DeskSeat,
        thread: u8,
        room: Room<u32>,
    ) -> Result<Waiting, DeskRefused>
        requires seat { IsDeskSeat self.now seat.old }
        requires room { MOST_ANSWER_WORDS ≤ room }
        ensures seat { IsDeskSeat self.now seat.new }
        ensures run { IsRun (desk_spec self.now) (desk_view seat.new).seen }
        ensures accounts { Accounts (desk_view seat.new) }
        ensures ends { FindEnds (desk_spec self.now) (desk_view seat.old)
            (desk_view seat.new) thread result }
        ensures clocked { Clocked (desk_view seat.new) }
        ensures ticks { Ticks (desk_view seat.old) (desk_view seat.new) }
    {
        let dated = self.turn.take(rt, &mut seat.seat);
        let found = dated.find(&mut seat.clock, thread, room);
        self.end_turn(&mut seat.seat, dated, false);
        found
    }

    /// One turn that takes the part's next step. Returns whether there was one.
    fn settle_once<R: Wait>(&self, rt: &R, seat: &mut DeskSeat) -> Result<bool, NoMemory>
        requires { IsDeskSeat self.now seat.old }
        ensures seat { IsDeskSeat self.now seat.new }
        ensures run { IsRun (desk_spec self.now) (desk_view seat.new).seen }
        ensures accounts { Accounts (desk_view seat.new) }
        ensures ends { SettlesOnce (desk_spec self.now) (desk_view seat.old)
            (desk_view seat.new) result }
        ensures clocked { Clocked (desk_view seat.new) }
        ensures ticks { Ticks (desk_view seat.old) (desk_view seat.new) }
    {
        let mut dated = self.turn.take(rt, &mut seat.seat);
        let settled = dated.settle(&mut seat.clock);
        self.end_turn(&mut seat.seat, dated, took_step(settled));
        settled
    }

    /// One turn in which a frame arrives. Returns whether the device's ring had room for it.
    fn let_arrive<R: Wait>(
        &self,
        rt: &R,
        seat: &mut DeskSeat,
        frame: Words,
    ) -> Result<bool, DeskRefused>
        requires seat { IsDeskSeat self.now seat.old }
        requires net { same_class (desk_spec self.now).class class.Net ≡ true }
        requires some { 1 ≤ length frame }
        requires fits { length frame ≤ MOST_FRAME_WORDS }
        ensures seat { IsDeskSeat self.now seat.new }
        ensures run { IsRun (desk_spec self.now) (desk_view seat.new).seen }
        ensures accounts { Accounts (desk_view seat.new) }
        ensures ends { ArriveEnds (desk_spec self.now) (desk_view seat.old)
            (desk_view seat.new) frame result }
        ensures clocked { Clocked (desk_view seat.new) }
        ensures ticks { Ticks (desk_view seat.old) (desk_view seat.new) }
    {
        let mut dated = self.turn.take(rt, &mut seat.seat);
        let arrived = dated.arrive(&mut seat.clock, frame);
        self.end_turn(&mut seat.seat, dated, arrived.is_ok());
        arrived
    }
}

impl DeskLike for PartDesk {
    type Seat = DeskSeat;

    ghost spec = { desk_spec };

    ghost is_seat = { IsDeskSeat };

    ghost view = { desk_view };

    fn call<R: Wait>(
        &self,
        rt: &R,
        alloc: Global,
        seat: &mut DeskSeat,
        thread: u8,
        op: &Op,
    ) -> Result<Receipt, DeskRefused> {
        // What holds for a seat between two calls also holds if nothing is done.
        let _ = &seat.seat;
        let Ok(room) = Room::new(alloc, MOST_ANSWER_WORDS) else {
            return Err(DeskRefused::NoMemory { call: None });
        };
        let Ok(op) = op.copy(alloc) else {
            return Err(DeskRefused::NoMemory { call: None });
        };
        match self.invoke(rt, seat, thread, op, room)? {
            Progress::Answered(receipt) => Ok(receipt),
            Progress::Open(waiting) => self.finish(rt, seat, waiting),
        }
    }

    fn arrive<R: Wait>(
        &self,
        rt: &R,
        alloc: Global,
        seat: &mut DeskSeat,
        frame: &Words,
    ) -> Result<bool, DeskRefused> {
        // What holds for a seat between two calls also holds if nothing is done.
        let _ = &seat.seat;
        let Ok(frame) = frame.copy(alloc) else {
            return Err(DeskRefused::NoMemory { call: None });
        };
        self.let_arrive(rt, seat, frame)
    }

    fn split(&self, seat: &mut DeskSeat) -> DeskSeat {
        let other = self.turn.split(&mut seat.seat);
        DeskSeat {
            seat: other,
            clock: seat.clock.copy(),
        }
    }

    fn join(&self, seat: &mut DeskSeat, other: DeskSeat) {
        seat.clock.raise(&other.clock);
        self.turn.join(&mut seat.seat, other.seat);
    }

    fn synchronize(&self, seat: &mut DeskSeat, clock: &mut Clock) {
        seat.clock.raise(clock);
        *clock = seat.clock.copy();
    }
}
