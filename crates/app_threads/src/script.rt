//! The worker of a thread's script.

ghost use Rattle.std.specs.Prelude.{◌≡◌, ◌<◌, ◌≤◌, length, map, IfOk};
ghost use Rattle.desk_like.specs.Stamps.{stamps_on};
ghost use Rattle.app_threads.specs.Order.{Follows, all_stamps};
ghost use Rattle.app_threads.specs.Steps.{IsStepAt, IsTimely, KeepsStamps, NextCallEnds};
ghost use Rattle.app_threads.specs.Workers.{AreSeats, AtDesks, KeepShares, NameDesks, ScriptEnds};

use crate::access::{DeskAccess, ScriptOp};
use crate::seats::call_at;
use crate::stop::WorkerStop;
use crate::work::Work;
use clocks::Clock;
use desk_like::DeskLike;
use nook_data::calls::PartOps;
use nook_data::desks::{Receipt, Receipts};
use nook_data::limits::{MOST_OPS, MOST_THREADS};
use nook_io::outside::Gate;
use std::sync::Wait;

// Calls for an operation of a script, by the worker's clock.
fn call_next<R: Wait, D: DeskLike>(
    access: &DeskAccess<'_, R, D>,
    seats: &mut [D::Seat],
    clock: &mut Clock,
    script_op: &ScriptOp<'_>,
) -> Result<Receipt, WorkerStop>
    requires seats { AreSeats D.is_seat access.now.desks.now seats.old }
    requires thread { script_op.now.thread < MOST_THREADS }
    requires part { script_op.now.part < length access.now.desks.now }
    ensures seats { AreSeats D.is_seat access.now.desks.now seats.new }
    ensures ends { IsStepAt (map D.spec access.now.desks.now) (map D.view seats.old)
        (map D.view seats.new) script_op.now.part
        (λ spec old new. NextCallEnds spec old new script_op.now.thread script_op.now.index
        script_op.now.part script_op.now.op.now result) }
    ensures stamps { AtDesks KeepsStamps (map D.view seats.old) (map D.view seats.new) }
    ensures timely { IfOk result
        (λ receipt. IsTimely (stamps_on (all_stamps (map D.view seats.new)) script_op.now.part)
        receipt clock.old clock.new) }
{
    match call_at(access, seats, clock, script_op) {
        Ok(receipt) => Ok(receipt),
        Err(refusal) => Err(WorkerStop::Refused {
            work: Work::Script {
                thread: script_op.thread,
            },
            index: script_op.index,
            part: script_op.part,
            refusal,
        }),
    }
}

/// Runs a thread's script from first to last, until an operation is refused. The thread carries its clock from desk to
/// desk: each operation is stamped later than the answer to the previous one.
pub fn run_script<R: Wait, D: DeskLike, G: Gate>(
    access: &DeskAccess<'_, R, D>,
    seats: &mut [D::Seat],
    thread: u8,
    ops: &PartOps,
    gate: &G,
) -> Result<Receipts, WorkerStop>
    requires seats { AreSeats D.is_seat access.now.desks.now seats.old }
    requires thread { thread < MOST_THREADS }
    requires short { length ops.now ≤ MOST_OPS }
    requires parts { NameDesks (length access.now.desks.now) ops.now }
    ensures seats { AreSeats D.is_seat access.now.desks.now seats.new }
    ensures ends { ScriptEnds (map D.spec access.now.desks.now) (map D.view seats.old)
        (map D.view seats.new) thread ops.now result }
    ensures shares { KeepShares (map D.view seats.old) (map D.view seats.new) }
    ensures order { IfOk result
        (λ receipts. Follows (all_stamps (map D.view seats.new)) 0 ops.now receipts) }
{
    let mut clock = Clock::start();
    let mut receipts = Receipts::new(access.alloc);
    for index in 0..ops.len() {
        gate.pass(thread, index as u32);
        let (part, op) = ops.get(index);
        let script_op = ScriptOp {
            thread,
            index: index as u32,
            part: *part,
            op,
        };
        let receipt = call_next(access, seats, &mut clock, &script_op)?;
        receipts.push(receipt)?;
    }
    Ok(receipts)
}
