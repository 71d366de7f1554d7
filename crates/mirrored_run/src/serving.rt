//! The operations of a mirror, one after the other.

ghost use Rattle.std.specs.Prelude.{◌≡◌, ◌<◌, ◌≤◌, IfOk, [], false, length, map, true};
ghost use Rattle.std.specs.List.{list_all};
ghost use Rattle.mirror_block.specs.Mirrors.{Ends, IsMirrorAnswer, IsMirror};
ghost use Rattle.mirror_block.specs.Rule.{is_disk_op};
ghost use Rattle.mirrored_run.specs.Mirrors.{is_mirrored_op, is_single, ops_of_thread};
ghost use Rattle.mirrored_run.specs.Serving.{AreServedBy, HasAsked};

use desk_like::DeskLike;
use mirror_block::{Mirror, MirrorStop};
use nook_data::calls::Op;
use nook_data::limits::MOST_OPS;
use nook_data::memory::NoMemory;
use nook_data::mirror::{MirrorAnswer, MirrorAnswers};
use nook_data::scenario::ThreadSpec;
use std::alloc::Global;
use std::sync::Wait;

/// Serves the operations of the first thread, at most 256, by a mirror that has served none.
pub fn serve_first<R: Wait, D: DeskLike>(
    rt: &R,
    alloc: Global,
    mirror: &mut Mirror<D>,
    threads: &[ThreadSpec],
) -> Result<MirrorAnswers, NoMemory>
    requires mirror { IsMirror D.spec mirror.old }
    requires goes { mirror.old.stopped ≡ false }
    requires fresh { HasAsked 0 mirror.old }
    requires single { is_single threads.now ≡ true }
    requires few { length (ops_of_thread threads.now) ≤ MOST_OPS }
    ensures { IfOk result
        (λ answers. AreServedBy D.spec mirror.old (ops_of_thread threads.now) answers mirror.new) }
{
    match threads {
        [] => Ok(MirrorAnswers::new(alloc)),
        [thread, ..] => serve_all(rt, alloc, mirror, thread.ops.as_slice()),
    }
}

/// Serves operations, at most 256, by a mirror that has served none.
fn serve_all<R: Wait, D: DeskLike>(
    rt: &R,
    alloc: Global,
    mirror: &mut Mirror<D>,
    ops: &[(u32, Op)],
) -> Result<MirrorAnswers, NoMemory>
    requires mirror { IsMirror D.spec mirror.old }
    requires goes { mirror.old.stopped ≡ false }
    requires fresh { HasAsked 0 mirror.old }
    requires disk_ops { list_all is_mirrored_op ops.now ≡ true }
    requires few { length ops.now ≤ MOST_OPS }
    ensures { IfOk result
        (λ answers. AreServedBy D.spec mirror.old (map (λ o. o.1) ops.now) answers mirror.new) }
{
    let mut answers = MirrorAnswers::new(alloc);
    for (_, op) in ops {
        let answer = serve(rt, alloc, mirror, op)?;
        answers.push(answer)?;
    }
    Ok(answers)
}

/// Serves an operation by a mirror that has not stopped, and whose sides' parts may have more calls.
fn serve<R: Wait, D: DeskLike>(
    rt: &R,
    alloc: Global,
    mirror: &mut Mirror<D>,
    op: &Op,
) -> Result<MirrorAnswer, NoMemory>
    requires mirror { IsMirror D.spec mirror.old }
    requires goes { mirror.old.stopped ≡ false }
    requires room { HasAsked MOST_OPS mirror.old }
    requires disk_op { is_disk_op op.now ≡ true }
    ensures mirror { IsMirror D.spec mirror.new }
    ensures answered { IfOk result (λ answer. IsMirrorAnswer mirror.old mirror.new op.now answer) }
{
    match ask(rt, alloc, mirror, op) {
        Ok(answer) => Ok(answer),
        Err(MirrorStop::NoMemory { .. }) => Err(NoMemory),
        Err(MirrorStop::TooManyCalls { .. } | MirrorStop::Stopped) => unreachable!(),
    }
}

/// Reads or writes.
fn ask<R: Wait, D: DeskLike>(
    rt: &R,
    alloc: Global,
    mirror: &mut Mirror<D>,
    op: &Op,
) -> Result<MirrorAnswer, MirrorStop>
    requires mirror { IsMirror D.spec mirror.old }
    requires disk_op { is_disk_op op.now ≡ true }
    ensures mirror { IsMirror D.spec mirror.new }
    ensures ends { Ends mirror.old mirror.new op.now result }
{
    match op {
        Op::Read { first, count } => mirror.read(rt, alloc, *first, *count),
        Op::Write { first, words } => mirror.write(rt, alloc, *first, words),
        _ => unreachable!(),
    }
}
