//! What a desk promises its callers: the trait that workers use.
//!
//! Threads call a part through a desk. Each caller has a seat, and contracts see what the seat knows: a prefix of the
//! part's journal, the numbers of the events that were added through the seat, its share of the desk, and a clock by
//! which the events of all desks can be put into one order.
#![tactic(auto)]

ghost use Rattle.desk_like.specs.Desks.{Accounts, ArriveEnds, CallEnds, DeskView, Joins, halved_view, new_view};
ghost use Rattle.desk_like.specs.Stamps.{Clocked, JoinsClocks, Ticks, raised_view};
ghost use Rattle.nook_data.specs.Classes.{same_class};
ghost use Rattle.part_defs.specs.Runs.{IsRun};
ghost use Rattle.nook_data.specs.declared.classes.Class.TheVariants as class;
ghost use Rattle.nook_data.specs.declared.scenario.PartSpec.{PartSpec};
ghost use Rattle.std.specs.Prelude.{length, true, ◌<◌, ◌≡◌, ◌≤◌};

use clocks::Clock;
use nook_data::calls::Op;
use nook_data::desks::{DeskRefused, Receipt};
use nook_data::limits::{MOST_FRAME_WORDS, MOST_THREADS};
use nook_data::lists::Words;
use std::alloc::Global;
use std::sync::Wait;

/// A part that threads call through a desk. They share the desk by reference, and each uses its own seat.
///
/// Each call takes a seat of this desk. No contract promises that a waiting call ever returns, or in which order
/// callers get their turn.
pub trait DeskLike: Sync {
    /// A caller's handle to the desk.
    type Seat: Send + Drop;

    // the part that the desk serves, which seats belong to the desk, and what a seat knows
    ghost spec: { Self → PartSpec };

    ghost is_seat: { Self → Self.Seat → Type 0 };

    ghost view: { Self.Seat → DeskView };

    /// Invokes an operation for a thread below 16 and waits until it is answered, by itself or by another caller.
    ///
    /// It returns `OpenCall` exactly if the thread has an open call when it is about to invoke, and `TooManyCalls`
    /// exactly if the part has 100,000 calls then. Both add nothing, and neither does a `NoMemory` that names no call.
    /// A `NoMemory` that names a call leaves it invoked and open.
    fn call<R: Wait>(
        &self,
        rt: &R,
        alloc: Global,
        seat: &mut Self::Seat,
        thread: u8,
        op: &Op,
    ) -> Result<Receipt, DeskRefused>
        requires seat { is_seat self.now seat.old }
        requires thread { thread < MOST_THREADS }
        ensures seat { is_seat self.now seat.new }
        ensures run { IsRun (spec self.now) (view seat.new).seen }
        ensures accounts { Accounts (view seat.new) }
        ensures ends { CallEnds (spec self.now) (view seat.old) (view seat.new)
            thread op.now result }
        ensures clocked { Clocked (view seat.new) }
        ensures ticks { Ticks (view seat.old) (view seat.new) };

    /// Hands a frame of 1 to 64 words to a network part. Returns whether the device's ring had room for it.
    ///
    /// It returns `TooManyArrivals` exactly if the part has 100,000 arrivals by then. A refusal adds nothing.
    fn arrive<R: Wait>(
        &self,
        rt: &R,
        alloc: Global,
        seat: &mut Self::Seat,
        frame: &Words,
    ) -> Result<bool, DeskRefused>
        requires seat { is_seat self.now seat.old }
        requires net { same_class (spec self.now).class class.Net ≡ true }
        requires some { 1 ≤ length frame.now }
        requires fits { length frame.now ≤ MOST_FRAME_WORDS }
        ensures seat { is_seat self.now seat.new }
        ensures run { IsRun (spec self.now) (view seat.new).seen }
        ensures accounts { Accounts (view seat.new) }
        ensures ends { ArriveEnds (spec self.now) (view seat.old) (view seat.new) frame.now result }
        ensures clocked { Clocked (view seat.new) }
        ensures ticks { Ticks (view seat.old) (view seat.new) };

    /// Makes another seat, which has seen the same and gets half of this one's share. It allocates nothing.
    fn split(&self, seat: &mut Self::Seat) -> Self::Seat
        requires { is_seat self.now seat.old }
        ensures seat { is_seat self.now seat.new }
        ensures other { is_seat self.now result }
        ensures view { view seat.new ≡ halved_view (view seat.old) }
        ensures other_view { view result ≡ new_view (view seat.old) }
        ensures run { IsRun (spec self.now) (view seat.new).seen }
        ensures accounts { Accounts (view seat.new) }
        ensures clocked { Clocked (view seat.new) };

    /// Joins another seat into this one, which has then seen the longer of the two lists and has the event numbers and
    /// the shares of both. A seat is alone again once all that was split from it was joined into it.
    fn join(&self, seat: &mut Self::Seat, other: Self::Seat)
        requires seat { is_seat self.now seat.old }
        requires other { is_seat self.now other }
        ensures seat { is_seat self.now seat.new }
        ensures joins { Joins (view seat.old) (view other) (view seat.new) }
        ensures run { IsRun (spec self.now) (view seat.new).seen }
        ensures accounts { Accounts (view seat.new) }
        ensures clocked { Clocked (view seat.new) }
        ensures joins_clocks { JoinsClocks (view seat.old) (view other) (view seat.new) };

    /// Sets a seat's clock and another one to the later of the two. In this way a worker carries its clock from desk to
    /// desk: what it does at a desk is stamped later than all that it did before.
    fn synchronize(&self, seat: &mut Self::Seat, clock: &mut Clock)
        requires { is_seat self.now seat.old }
        ensures seat { is_seat self.now seat.new }
        ensures view { view seat.new ≡ raised_view (view seat.old) clock.old }
        ensures clock { clock.new ≡ (view seat.new).clock }
        ensures clocked { Clocked (view seat.new) };
}
