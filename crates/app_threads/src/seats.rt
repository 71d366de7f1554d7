//! What a worker does at its seats: one for each desk, in order.

ghost use Rattle.std.specs.Prelude.{◌≡◌, ◌<◌, ◌≤◌, length, map, true, ℕ, slice_get, Some, slice_index_or, IfOk};
ghost use Rattle.desk_like.specs.Desks.{ArriveEnds, CallEnds};
ghost use Rattle.desk_like.specs.Stamps.{stamps_on};
ghost use Rattle.app_threads.specs.Order.{KeepClocked, all_stamps};
ghost use Rattle.app_threads.specs.Workers.{AreSeats, AtDesks, IsNetAt, IsSeatAt, KeepAccounts};
ghost use Rattle.app_threads.specs.Steps.{Halve, IsStepAt, IsTimely, KeepsStamps, Same, Splits, Starts, TakesIn};
ghost use Rattle.app_threads.specs.Steps.{TakesInOne};
ghost use mathlib.Core.List.{IsPrefix};

use crate::access::{DeskAccess, ScriptOp};
use clocks::Clock;
use desk_like::DeskLike;
use nook_data::desks::{DeskRefused, Receipt};
use nook_data::limits::{MOST_FRAME_WORDS, MOST_THREADS};
use nook_data::lists::{Frames, Words};
use nook_data::memory::NoMemory;
use std::alloc::Global;
use std::sync::Wait;

// Calls a desk through a seat. Before the call and after it, the seat's clock and the worker's are both set to the
// later one.
fn call_in_time<R: Wait, D: DeskLike>(
    rt: &R,
    alloc: Global,
    desk: &D,
    seat: &mut D::Seat,
    clock: &mut Clock,
    script_op: &ScriptOp<'_>,
) -> Result<Receipt, DeskRefused>
    requires seat { D.is_seat desk.now seat.old }
    requires thread { script_op.now.thread < MOST_THREADS }
    ensures seat { D.is_seat desk.now seat.new }
    ensures ends { CallEnds (D.spec desk.now) (D.view seat.old)
        (D.view seat.new) script_op.now.thread script_op.now.op.now result }
    ensures stamps { IsPrefix (D.view seat.old).stamps (D.view seat.new).stamps }
    ensures timely { IfOk result
        (λ receipt. IsTimely (D.view seat.new).stamps receipt clock.old clock.new) }
{
    desk.synchronize(seat, clock);
    let end = desk.call(rt, alloc, seat, script_op.thread, script_op.op);
    desk.synchronize(seat, clock);
    end
}

/// Calls the desk that an operation is for, by a worker's clock. The call is stamped later than the clock's time, and
/// afterwards the clock is no earlier than the answer.
pub fn call_at<R: Wait, D: DeskLike>(
    access: &DeskAccess<'_, R, D>,
    seats: &mut [D::Seat],
    clock: &mut Clock,
    script_op: &ScriptOp<'_>,
) -> Result<Receipt, DeskRefused>
    requires seats { AreSeats D.is_seat access.now.desks.now seats.old }
    requires thread { script_op.now.thread < MOST_THREADS }
    requires part { script_op.now.part < length access.now.desks.now }
    ensures seats { AreSeats D.is_seat access.now.desks.now seats.new }
    ensures ends { IsStepAt (map D.spec access.now.desks.now) (map D.view seats.old)
        (map D.view seats.new) script_op.now.part
        (λ spec old new. CallEnds spec old new script_op.now.thread script_op.now.op.now result) }
    ensures stamps { AtDesks KeepsStamps (map D.view seats.old) (map D.view seats.new) }
    ensures timely { IfOk result
        (λ receipt. IsTimely (stamps_on (all_stamps (map D.view seats.new)) script_op.now.part)
        receipt clock.old clock.new) }
{
    let at = script_op.part as usize;
    let desk = &access.desks[at];
    call_in_time(
        access.rt,
        access.alloc,
        desk,
        &mut seats[at],
        clock,
        script_op,
    )
}

/// Adds the arrival of a frame at the network part with this index.
pub fn arrive_at<R: Wait, D: DeskLike>(
    access: &DeskAccess<'_, R, D>,
    seats: &mut [D::Seat],
    part: u32,
    frame: &Words,
) -> Result<bool, DeskRefused>
    requires seats { AreSeats D.is_seat access.now.desks.now seats.old }
    requires part { part < length access.now.desks.now }
    requires net { IsNetAt (map D.spec access.now.desks.now) part }
    requires some { 1 ≤ length frame.now }
    requires fits { length frame.now ≤ MOST_FRAME_WORDS }
    ensures seats { AreSeats D.is_seat access.now.desks.now seats.new }
    ensures ends { IsStepAt (map D.spec access.now.desks.now) (map D.view seats.old)
        (map D.view seats.new) part
        (λ spec old new. ArriveEnds spec old new frame.now result) }
{
    let at = part as usize;
    let desk = &access.desks[at];
    desk.arrive(access.rt, access.alloc, &mut seats[at], frame)
}

// Splits a new seat from the one with this index.
fn split_at<D: DeskLike>(desks: &[D], seats: &mut [D::Seat], at: usize) -> D::Seat
    requires seats { AreSeats D.is_seat desks.now seats.old }
    requires at { at < length desks.now }
    ensures seats { AreSeats D.is_seat desks.now seats.new }
    ensures made { IsSeatAt D.is_seat desks.now at result }
    ensures splits { IsStepAt (map D.spec desks.now) (map D.view seats.old)
        (map D.view seats.new) at
        (λ spec old new. Splits old new (D.view result)) }
{
    desks[at].split(&mut seats[at])
}

/// Splits a new seat from each seat.
pub fn split_all<D: DeskLike>(
    alloc: Global,
    desks: &[D],
    seats: &mut [D::Seat],
) -> Result<Vec<D::Seat>, NoMemory>
    requires seats { AreSeats D.is_seat desks.now seats.old }
    ensures seats { AreSeats D.is_seat desks.now seats.new }
    ensures same { AtDesks Same (map D.view seats.old) (map D.view seats.new) }
    ensures accounts { KeepAccounts (map D.view seats.old) (map D.view seats.new) }
    ensures clocked { KeepClocked (map D.view seats.old) (map D.view seats.new) }
    ensures made { IfOk result (λ made. AreSeats D.is_seat desks.now made.items) }
    ensures starts { IfOk result
        (λ made. AtDesks Starts (map D.view seats.old) (map D.view made.items)) }
    ensures halves { IfOk result
        (λ made. Halve (map D.view seats.old) (map D.view seats.new) (map D.view made.items)) }
{
    let mut made = Vec::new(alloc);
    for at in 0..desks.len() {
        made.push(split_at(desks, seats, at))?;
    }
    Ok(made)
}

// Joins a seat into the one with this index.
fn join_at<D: DeskLike>(desks: &[D], seats: &mut [D::Seat], at: usize, other: D::Seat)
    requires seats { AreSeats D.is_seat desks.now seats.old }
    requires at { at < length desks.now }
    requires other { IsSeatAt D.is_seat desks.now at other }
    ensures seats { AreSeats D.is_seat desks.now seats.new }
    ensures joins { IsStepAt (map D.spec desks.now) (map D.view seats.old) (map D.view seats.new) at
        (λ spec old new. TakesInOne spec old (D.view other) new) }
{
    desks[at].join(&mut seats[at], other);
}

/// Joins a worker's seats into the seats, desk by desk.
pub fn join_all<D: DeskLike>(desks: &[D], seats: &mut [D::Seat], mut others: Vec<D::Seat>)
    requires seats { AreSeats D.is_seat desks.now seats.old }
    requires others { AreSeats D.is_seat desks.now others.items }
    ensures seats { AreSeats D.is_seat desks.now seats.new }
    ensures joins { TakesIn (map D.spec desks.now) (map D.view seats.old) (map D.view others.items)
        (map D.view seats.new) }
{
    while let Some(other) = others.pop() {
        let at = others.len();
        join_at(desks, seats, at, other);
    }
}
