//! The value that a desk's lock keeps: a part and the stamps of its events. A caller uses both while it has the turn.

ghost use Rattle.std.specs.Prelude.{◌≡◌, ◌<◌, ◌≤◌, false, is_ok, length, true};
ghost use Rattle.desk_like.specs.Stamps.{IsStamped};
ghost use Rattle.nook_data.specs.Classes.{same_class};
ghost use Rattle.nook_data.specs.declared.classes.Class.TheVariants as class;
ghost use Rattle.part_core.specs.Kept.{IsKept};
ghost use Rattle.part_server.specs.Turns.{ArriveGives, Dates, FindGives, GoOnGives, InvokeGives, IsGoingOn, LookGives};
ghost use Rattle.part_server.specs.Turns.{SettleGives, StampsOnce, took_step};

use crate::held::LockedPart;
use crate::stamped::Stamped;
use crate::waiting::{Progress, Waiting};
use clocks::{Clock, Stamps};
use nook_data::calls::Op;
use nook_data::desks::{DeskRefused, Receipt};
use nook_data::limits::{MOST_ANSWER_WORDS, MOST_FRAME_WORDS};
use nook_data::lists::Words;
use nook_data::memory::{NoMemory, Room};
use nook_data::scenario::PartSpec;
use std::marker::Model;
use turn_lock::Kept;

/// A part with the stamps of its events. It represents the events, each with its stamp; its origin is the part's spec.
#[derive(Drop)]
pub struct Dated {
    held: LockedPart,
    stamps: Stamps,
}

impl Model for Dated {
    ghost use Rattle.desk_like.specs.Stamps.{IsStamped};
    ghost use Rattle.part_server.specs.Entries.{DatedRun};

    ghost Value = { DatedRun };

    ghost view = { λ d. record { run = d.held; stamps = d.stamps } };

    ghost invariant = { λ d. IsStamped d.held.journal d.stamps };
}

impl Kept for Dated {
    type Entry = Stamped;

    type Origin = PartSpec;

    ghost use Rattle.part_server.specs.Entries.{entries};

    ghost list = { λ d. entries d.run.journal d.stamps };

    ghost origin = { λ d. d.run.state.spec };

    fn count(&self) -> u64 {
        self.held.count()
    }
}

impl Dated {
    /// Takes a part with its stamps.
    pub fn new(held: LockedPart, stamps: Stamps) -> Dated
        requires { IsStamped held.journal stamps }
        ensures { result ≡ record { run = held; stamps = stamps } }
    {
        Dated { held, stamps }
    }

    /// Returns the part and its stamps.
    pub fn open(self) -> (LockedPart, Stamps)
        ensures run { result.0 ≡ self.run }
        ensures stamps { result.1 ≡ self.stamps }
        ensures stamped { IsStamped self.run.journal self.stamps }
    {
        (self.held, self.stamps)
    }

    /// The receipt for an open call, as in `LockedPart::look`. The clock is then no earlier than any stamp.
    pub fn look(&self, clock: &mut Clock, waiting: Waiting) -> Result<Receipt, Waiting>
        requires looked { waiting.looked ≤ length self.now.run.journal }
        requires room { MOST_ANSWER_WORDS ≤ waiting.room }
        ensures gives { LookGives self.now.run.journal waiting result }
        ensures kept { IsKept self.now.run }
        ensures dates { Dates false self.now self.now clock.old clock.new }
    {
        // Another seat may have added the awaited event.
        clock.raise(&self.stamps.last());
        self.held.look(waiting)
    }

    /// The thread's open call, as in `LockedPart::find`. The clock is then no earlier than any stamp.
    pub fn find(
        &self,
        clock: &mut Clock,
        thread: u8,
        room: Room<u32>,
    ) -> Result<Waiting, DeskRefused>
        requires { MOST_ANSWER_WORDS ≤ room }
        ensures gives { FindGives self.now.run thread result }
        ensures kept { IsKept self.now.run }
        ensures dates { Dates false self.now self.now clock.old clock.new }
    {
        clock.raise(&self.stamps.last());
        self.held.find(thread, room)
    }

    /// Invokes an operation for a thread, and stamps the event.
    pub fn invoke(
        &mut self,
        clock: &mut Clock,
        thread: u8,
        op: Op,
        room: Room<u32>,
    ) -> Result<Progress, DeskRefused>
        requires thread { thread < 16 }
        requires room { MOST_ANSWER_WORDS ≤ room }
        ensures gives { InvokeGives self.old.run self.new.run thread op result }
        ensures kept { IsKept self.new.run }
        ensures dates { Dates (is_ok result) self.old self.new clock.old clock.new }
    {
        let invoked = self.held.invoke(thread, op, room);
        stamp(&mut self.stamps, clock, invoked.is_ok());
        invoked
    }

    /// Takes a step for an open call, as in `LockedPart::go_on`, and stamps the event.
    pub fn go_on(&mut self, clock: &mut Clock, waiting: Waiting) -> Result<Progress, DeskRefused>
        requires { IsGoingOn self.old.run waiting }
        ensures gives { GoOnGives self.old.run self.new.run waiting result }
        ensures kept { IsKept self.new.run }
        ensures dates { Dates (is_ok result) self.old self.new clock.old clock.new }
    {
        let went_on = self.held.go_on(waiting);
        stamp(&mut self.stamps, clock, went_on.is_ok());
        went_on
    }

    /// Adds the arrival of a frame, and stamps the event. Returns whether the device's ring had room for it.
    pub fn arrive(&mut self, clock: &mut Clock, frame: Words) -> Result<bool, DeskRefused>
        requires net { same_class self.old.run.state.spec.class class.Net ≡ true }
        requires some { 1 ≤ length frame }
        requires fits { length frame ≤ MOST_FRAME_WORDS }
        ensures gives { ArriveGives self.old.run self.new.run frame result }
        ensures kept { IsKept self.new.run }
        ensures dates { Dates (is_ok result) self.old self.new clock.old clock.new }
    {
        let arrived = self.held.arrive(frame);
        stamp(&mut self.stamps, clock, arrived.is_ok());
        arrived
    }

    /// Takes the part's next step, and stamps the event. Returns whether there was one.
    pub fn settle(&mut self, clock: &mut Clock) -> Result<bool, NoMemory>
        ensures gives { SettleGives self.old.run self.new.run result }
        ensures kept { IsKept self.new.run }
        ensures dates { Dates (took_step result) self.old self.new clock.old clock.new }
    {
        let settled = self.held.settle();
        stamp(&mut self.stamps, clock, took_step(settled));
        settled
    }
}

/// Whether a step was taken.
pub fn took_step(settled: Result<bool, NoMemory>) -> bool
    ensures { result ≡ took_step settled }
{
    match settled {
        Ok(is_taken) => is_taken,
        Err(NoMemory) => false,
    }
}

/// Stamps the event, if one was added. The clock is then no earlier than any stamp.
fn stamp(stamps: &mut Stamps, clock: &mut Clock, is_added: bool)
    ensures { StampsOnce is_added stamps.old clock.old stamps.new clock.new }
{
    if is_added {
        stamps.push(clock);
    } else {
        clock.raise(&stamps.last());
    }
}
