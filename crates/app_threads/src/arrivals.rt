//! The worker of a network part's arrivals.

ghost use Rattle.std.specs.Prelude.{◌≡◌, ◌<◌, ◌≤◌, length, map};
ghost use Rattle.app_threads.specs.Steps.{IsStepAt, NextArrivalEnds};
ghost use Rattle.app_threads.specs.Workers.{AreFrames, AreSeats, ArrivalsEnd, IsNetAt, KeepShares};

use crate::access::DeskAccess;
use crate::seats::arrive_at;
use crate::stop::WorkerStop;
use crate::work::Work;
use desk_like::DeskLike;
use nook_data::desks::Receipts;
use nook_data::limits::{MOST_ARRIVALS, MOST_FRAME_WORDS};
use nook_data::lists::{Frames, Words};
use std::sync::Wait;

// Adds the arrival of the frame with this index in a list.
fn arrive_next<R: Wait, D: DeskLike>(
    access: &DeskAccess<'_, R, D>,
    seats: &mut [D::Seat],
    index: u32,
    part: u32,
    frame: &Words,
) -> Result<bool, WorkerStop>
    requires seats { AreSeats D.is_seat access.now.desks.now seats.old }
    requires part { part < length access.now.desks.now }
    requires net { IsNetAt (map D.spec access.now.desks.now) part }
    requires some { 1 ≤ length frame.now }
    requires fits { length frame.now ≤ MOST_FRAME_WORDS }
    ensures seats { AreSeats D.is_seat access.now.desks.now seats.new }
    ensures ends { IsStepAt (map D.spec access.now.desks.now) (map D.view seats.old)
        (map D.view seats.new) part
        (λ spec old new. NextArrivalEnds spec old new index part frame.now result) }
{
    match arrive_at(access, seats, part, frame) {
        Ok(kept) => Ok(kept),
        Err(refusal) => Err(WorkerStop::Refused {
            work: Work::Arrivals { part },
            index,
            part,
            refusal,
        }),
    }
}

/// Adds the arrivals of a part's frames from first to last, until one is refused. Frames have no receipts.
pub fn run_arrivals<R: Wait, D: DeskLike>(
    access: &DeskAccess<'_, R, D>,
    seats: &mut [D::Seat],
    part: u32,
    frames: &Frames,
) -> Result<Receipts, WorkerStop>
    requires seats { AreSeats D.is_seat access.now.desks.now seats.old }
    requires part { part < length access.now.desks.now }
    requires short { length frames.now ≤ MOST_ARRIVALS }
    requires frames { AreFrames frames.now }
    requires net { 0 < length frames.now → IsNetAt (map D.spec access.now.desks.now) part }
    ensures seats { AreSeats D.is_seat access.now.desks.now seats.new }
    ensures ends { ArrivalsEnd (map D.spec access.now.desks.now) (map D.view seats.old)
        (map D.view seats.new) part frames.now result }
    ensures shares { KeepShares (map D.view seats.old) (map D.view seats.new) }
{
    for index in 0..frames.len() {
        let frame = frames.get(index);
        arrive_next(access, seats, index as u32, part, frame)?;
    }
    Ok(Receipts::new(access.alloc))
}
