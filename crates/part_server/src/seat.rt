//! A caller's handle to a desk.

use crate::dated::Dated;
use clocks::Clock;
use std::marker::Model;
use turn_lock::TurnSeat;

/// A caller's handle to a `PartDesk`, which one thread has at a time. It holds a clock and no other bytes: what it
/// knows exists only in contracts. Between two calls it does not have the turn. What it has seen is a run of the desk's
/// part with the stamps of its events, none of which is later than its clock. The seat accounts for the events that
/// were added through it.
#[derive(Drop)]
pub struct DeskSeat {
    pub(crate) seat: TurnSeat<Dated>,
    pub(crate) clock: Clock,
}

impl Model for DeskSeat {
    ghost use Rattle.std.specs.Prelude.{◌≡◌, false};
    ghost use Rattle.desk_like.specs.Desks.{Accounts};
    ghost use Rattle.desk_like.specs.Stamps.{Clocked};
    ghost use Rattle.part_server.specs.Entries.{events_of};
    ghost use Rattle.part_server.specs.Turns.{IsSeen, SeatValue, timed_view};

    ghost Value = { SeatValue };

    ghost view = { λ s. record { seat = s.seat; clock = s.clock } };

    ghost invariant = { λ s. (s.seat.me.0.has ≡ false)
        × IsSeen s.seat.me.0.origin (events_of s.seat.me.0.seen)
        × (s.seat.me.0.start ≡ 0) × Accounts (timed_view s.seat.me.0 s.clock)
        × Clocked (timed_view s.seat.me.0 s.clock) };
}
