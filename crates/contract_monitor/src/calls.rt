//! The open calls, in the order in which they were made, with what the contract and the losses know of them.

ghost use Rattle.std.specs.Prelude.{◌≡◌, ◌+◌, ◌<◌, ◌==◌, None, Some, MatchOption, OnOk, IfOk, map, filter, find};
ghost use Rattle.std.specs.Prelude.{length, not, slice_get, if◌then◌else◌};
ghost use Rattle.std.specs.List.{list_any};
ghost use Rattle.promise_defs.specs.Contract.{call_of, change_first, is_answered_in, is_playing, leave_call, new_call};
ghost use Rattle.promise_defs.specs.Contract.{play_inside, played_more};
ghost use Rattle.promise_defs.specs.Losses.{new_effects};
ghost use Rattle.contract_monitor.specs.Calls.{open_calls, open_change, open_of, effects_calls, effects_change, effects_of};

use crate::blocks::copy_queue;
use nook_data::calls::{Answer, Op};
use nook_data::lists::TryCopy;
use nook_data::memory::NoMemory;
use std::alloc::Global;
use std::collections::VecDeque;

/// An open call. `played` counts its samples that were played while it was the first Play Inside, and
/// `own_played` those that were played in its own bursts.
pub struct Call {
    pub number: u32,
    pub op: Op,
    pub inside: bool,
    pub sent: u64,
    pub played: u64,
    pub own_played: u64,
    pub handed: bool,
    pub failed: VecDeque<u32>,
}

impl Drop for Call {
    /// Written by hand, so that it is proved once and not in each function that owns a call.
    fn drop(self) {
        let Call {
            number: _,
            op: _,
            inside: _,
            sent: _,
            played: _,
            own_played: _,
            handed: _,
            failed: _,
        } = self;
    }
}

impl Call {
    /// A call that was made but has not been entered yet.
    pub fn new(alloc: Global, number: u32, op: &Op) -> Result<Call, NoMemory>
        ensures opened { IfOk result (λ made. open_of made ≡ new_call number op.now) }
        ensures tallied { IfOk result (λ made. effects_of made ≡ new_effects number op.now) }
    {
        Ok(Call {
            number,
            op: op.copy(alloc)?,
            inside: false,
            sent: 0,
            played: 0,
            own_played: 0,
            handed: false,
            failed: VecDeque::new(alloc),
        })
    }

    /// A copy of the call.
    fn copy(&self, alloc: Global) -> Result<Call, NoMemory>
        ensures opened { IfOk result (λ made. open_of made ≡ open_of self.now) }
        ensures tallied { IfOk result (λ made. effects_of made ≡ effects_of self.now) }
    {
        Ok(Call {
            number: self.number,
            op: self.op.copy(alloc)?,
            inside: self.inside,
            sent: self.sent,
            played: self.played,
            own_played: self.own_played,
            handed: self.handed,
            failed: copy_queue(alloc, &self.failed)?,
        })
    }
}

/// How a call changes.
#[derive(Clone, Copy)]
pub enum Change {
    /// A new attempt begins.
    Entered,
    /// A frame was sent in one of its bursts.
    Sent,
    /// A frame was handed up in one of its bursts.
    Handed,
    /// A command on the block failed.
    Failed { block: u32 },
    /// A sample was played in one of its bursts.
    OwnPlayed,
}

/// A count plus `by`. A count that does not fit in 64 bits is refused as if memory had run out.
pub fn more(count: u64, by: u64) -> Result<u64, NoMemory>
    ensures { IfOk result (λ n. n ≡ count + by) }
{
    count.checked_add(by).ok_or(NoMemory)
}

/// A copy of calls.
pub fn copy_calls(alloc: Global, calls: &[Call]) -> Result<Vec<Call>, NoMemory>
    ensures opened { IfOk result (λ made. map open_of made.items ≡ map open_of calls.now) }
    ensures tallied { IfOk result (λ made. map effects_of made.items ≡ map effects_of calls.now) }
{
    let mut made = Vec::with_capacity(alloc, calls.len())?;
    for call in calls {
        made.push(call.copy(alloc)?)?;
    }
    Ok(made)
}

/// The call with a number, if it is open.
pub fn find_call(calls: &[Call], number: u32) -> Option<&Call>
    ensures opened { MatchOption result (call_of number (map open_of calls.now) ≡ None)
        (λ c. call_of number (map open_of calls.now) ≡ Some (open_of c.now)) }
    ensures tallied { MatchOption result
        (find (λ t. t.number == number) (map effects_of calls.now) ≡ None)
        (λ c. find (λ t. t.number == number) (map effects_of calls.now) ≡ Some (effects_of c.now)) }
{
    for call in calls {
        if call.number == number {
            return Some(call);
        }
    }
    None
}

/// Changes the call with a number, if it is open.
pub fn change_calls(calls: &mut Vec<Call>, number: u32, change: Change) -> Result<(), NoMemory>
    ensures opened { OnOk result (map open_of calls.new.items
        ≡ open_calls change number (map open_of calls.old.items)) }
    ensures tallied { OnOk result (map effects_of calls.new.items
        ≡ effects_calls change number (map effects_of calls.old.items)) }
{
    for i in 0..calls.len() {
        change_if(&mut calls[i], number, change)?;
    }
    Ok(())
}

/// Changes a call, if it has this number.
fn change_if(call: &mut Call, number: u32, change: Change) -> Result<(), NoMemory>
    ensures opened { OnOk result (open_of call.new
        ≡ (if call.old.number == number then open_change change
        (open_of call.old) else open_of call.old)) }
    ensures tallied { OnOk result (effects_of call.new
        ≡ (if call.old.number == number then effects_change change
        (effects_of call.old) else effects_of call.old)) }
{
    if call.number == number {
        change_one(call, change)?;
    }
    Ok(())
}

/// Changes a call.
fn change_one(call: &mut Call, change: Change) -> Result<(), NoMemory>
    ensures opened { OnOk result (open_of call.new ≡ open_change change (open_of call.old)) }
    ensures tallied { OnOk result
        (effects_of call.new ≡ effects_change change (effects_of call.old)) }
{
    match change {
        Change::Entered => {
            call.inside = true;
            call.handed = false;
            call.failed.clear();
        }
        Change::Sent => call.sent = more(call.sent, 1)?,
        Change::Handed => call.handed = true,
        Change::Failed { block } => call.failed.push_front(block)?,
        Change::OwnPlayed => call.own_played = more(call.own_played, 1)?,
    }
    Ok(())
}

/// No call is Inside any longer.
pub fn leave_calls(calls: &mut Vec<Call>)
    ensures opened { map open_of calls.new.items ≡ map leave_call (map open_of calls.old.items) }
    ensures tallied { map effects_of calls.new.items ≡ map effects_of calls.old.items }
{
    for i in 0..calls.len() {
        leave_one(&mut calls[i]);
    }
}

/// A call is no longer Inside.
fn leave_one(call: &mut Call)
    ensures opened { open_of call.new ≡ leave_call (open_of call.old) }
    ensures tallied { effects_of call.new ≡ effects_of call.old }
{
    call.inside = false;
}

/// Whether a call is a Play that is Inside.
fn is_playing(call: &Call) -> bool
    ensures { result ≡ is_playing (open_of call.now) }
{
    call.inside && matches!(call.op, Op::Play { .. })
}

/// The first Play that is Inside.
pub fn find_playing(calls: &[Call]) -> Option<&Call>
    ensures { MatchOption result (play_inside (map open_of calls.now) ≡ None)
        (λ c. play_inside (map open_of calls.now) ≡ Some (open_of c.now)) }
{
    for call in calls {
        if is_playing(call) {
            return Some(call);
        }
    }
    None
}

/// One more sample of the first Play that is Inside was played.
pub fn play_one(calls: &mut Vec<Call>) -> Result<(), NoMemory>
    ensures opened { OnOk result (map open_of calls.new.items
        ≡ change_first is_playing played_more (map open_of calls.old.items)) }
    ensures tallied { OnOk result
        (map effects_of calls.new.items ≡ map effects_of calls.old.items) }
{
    for i in 0..calls.len() {
        if is_playing(&calls[i]) {
            return play_more(&mut calls[i]);
        }
    }
    Ok(())
}

/// One more sample of a Play was played.
fn play_more(call: &mut Call) -> Result<(), NoMemory>
    ensures opened { OnOk result (open_of call.new ≡ played_more (open_of call.old)) }
    ensures tallied { OnOk result (effects_of call.new ≡ effects_of call.old) }
{
    call.played = more(call.played, 1)?;
    Ok(())
}

/// The call with a number is no longer open.
pub fn close_call(calls: &mut Vec<Call>, number: u32)
    ensures opened { map open_of calls.new.items
        ≡ filter (λ c. not (number == c.number)) (map open_of calls.old.items) }
    ensures tallied { map effects_of calls.new.items
        ≡ filter (λ t. not (number == t.number)) (map effects_of calls.old.items) }
{
    calls.retain(|call| number != call.number);
}

/// Whether the call with a number is among those that were answered.
fn is_answered(answers: &[(u32, Answer)], number: u32) -> bool
    ensures { result ≡ list_any (λ a. a.0 == number) answers.now }
{
    for answer in answers {
        if answer.0 == number {
            return true;
        }
    }
    false
}

/// Answered calls are no longer open.
pub fn close_calls(calls: &mut Vec<Call>, answers: &[(u32, Answer)])
    ensures opened { map open_of calls.new.items
        ≡ filter (λ c. not (is_answered_in answers.now c)) (map open_of calls.old.items) }
    ensures tallied { map effects_of calls.new.items
        ≡ filter (λ t. not (list_any (λ a. a.0 == t.number) answers.now))
        (map effects_of calls.old.items) }
{
    calls.retain(|call| !is_answered(answers, call.number));
}
