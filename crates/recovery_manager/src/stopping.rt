//! The stage Stop: open calls are answered, or held for the next driver.

ghost use Rattle.std.specs.Prelude.{◌≡◌, ◌+◌, ◌++◌, [], ◌<◌, ◌≤◌, length, vec_len, vec_capacity, IfOk, OnOk, OnErr};
ghost use Rattle.part_defs.specs.Log.{gone_answers, held_by_shadow, no_call_open, stop_answers, stop_queue};
ghost use Rattle.part_defs.specs.Log.{with_answer};
ghost use Rattle.shadow_proxy.specs.Table.{answer_of};

use nook_data::calls::{Answer, CallAnswers};
use nook_data::memory::{NoMemory, Room};
use nook_data::rx_front::RxFront;
use nook_data::steps::Stage;
use shadow_log::ShadowLog;
use shadow_proxy::{Proxy, front_for, proxy};
use std::alloc::Global;

/// If the failures do not exceed the limit, each open call is answered or held by the shadow's table, in the
/// order of their numbers; the frames used in answers leave the queue, and the calls that stay open are Held.
/// Past the limit each open call is answered Gone. It allocates its memory first: after `NoMemory` the log and the
/// queue are unchanged.
pub fn stop<Q: RxFront>(
    alloc: Global,
    log: &mut ShadowLog,
    queue: &mut Q,
    failures: u32,
    limit: u32,
) -> Result<CallAnswers, NoMemory>
    ensures held { failures ≤ limit → OnOk result (log.new ≡ held_by_shadow log.old) }
    ensures answers { failures ≤ limit → IfOk result (λ answers.
        answers ≡ stop_answers log.old.pending log.old.config log.old.holder (Q.frames queue.old)) }
    ensures frames { failures ≤ limit → OnOk result (Q.frames queue.new
        ≡ stop_queue log.old.pending (Q.frames queue.old)) }
    ensures closed { limit < failures → OnOk result (log.new ≡ no_call_open log.old) }
    ensures gone { limit < failures
        → IfOk result (λ answers. answers ≡ gone_answers failures log.old.pending) }
    ensures kept { limit < failures → queue.new ≡ queue.old }
    ensures log { OnErr result (log.new ≡ log.old) }
    ensures queue { OnErr result (queue.new ≡ queue.old) }
{
    let room = Room::new(alloc, log.open_count())?;
    if failures <= limit {
        let answers = shadow_answers(log, queue, room);
        log.stopped(answers.as_slice());
        Ok(answers)
    } else {
        let answers = gone_answers(log, failures, room);
        log.given_up();
        Ok(answers)
    }
}

/// The shadow's answers to the open calls, in the order of their numbers.
fn shadow_answers<Q: RxFront>(
    log: &ShadowLog,
    queue: &mut Q,
    room: Room<(u32, Answer)>,
) -> CallAnswers
    requires { length log.now.pending ≤ room }
    ensures answers { result
        ≡ stop_answers log.now.pending log.now.config log.now.holder (Q.frames queue.old) }
    ensures frames { Q.frames queue.new ≡ stop_queue log.now.pending (Q.frames queue.old) }
{
    let mut answers = room.into_vec();
    for i in 0..log.open_count() {
        let entry = log.open_call(i);
        let front = front_for(&entry.op, queue);
        let decision = proxy(&entry.op, entry.thread, log, &Stage::Stop, front);
        add_answer(&mut answers, entry.call, decision);
    }
    CallAnswers::from_vec(answers)
}

/// Adds a call's answer, if it has one, after the others. There is room for it.
fn add_answer(answers: &mut Vec<(u32, Answer)>, call: u32, decision: Proxy)
    requires { vec_len answers.old < vec_capacity answers.old }
    ensures items { answers.new.items ≡ answers.old.items
        ++ with_answer call (answer_of decision) [] }
    ensures room { vec_capacity answers.old ≤ vec_capacity answers.new }
{
    if let Proxy::Answer(answer) = decision {
        answers.push((call, answer)).unwrap();
    }
}

/// Gone for each open call, in the order of their numbers.
fn gone_answers(log: &ShadowLog, failures: u32, room: Room<(u32, Answer)>) -> CallAnswers
    requires { length log.now.pending ≤ room }
    ensures { result ≡ gone_answers failures log.now.pending }
{
    let mut answers = room.into_vec();
    for i in 0..log.open_count() {
        let decision = Proxy::Answer(Answer::Gone { failures });
        add_answer(&mut answers, log.open_call(i).call, decision);
    }
    CallAnswers::from_vec(answers)
}
