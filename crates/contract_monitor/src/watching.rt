//! The questions that the contract asks about open calls.

ghost use Rattle.std.specs.Prelude.{◌≡◌, map, slice_index};
ghost use Rattle.std.specs.List.{list_any};
ghost use Rattle.nook_data.specs.Classes.{is_next, sends};
ghost use Rattle.promise_defs.specs.Contract.{call_of, is_next_of, is_replay_of, is_replayed, is_send_of, is_setting};
ghost use Rattle.promise_defs.specs.Contract.{play_inside, sets, may_store, stores_other};
ghost use Rattle.contract_monitor.specs.Calls.{open_of};
ghost use Rattle.contract_monitor.specs.Judging.{had_frame};

use crate::blocks::{covers, words_for};
use crate::calls::{Call, find_call, find_playing};
use nook_data::calls::Op;

/// Whether a call is a Write that is Inside and covers the block.
fn stores(block: u64, call: &Call) -> bool
    ensures { result ≡ may_store block (open_of call.now) }
{
    call.inside && matches!(call.op, Op::Write { .. }) && covers(&call.op, block)
}

/// Whether a Write that is Inside covers the block.
pub fn is_asked_to_store(block: u64, calls: &[Call]) -> bool
    ensures { result ≡ list_any (may_store block) (map open_of calls.now) }
{
    for call in calls {
        if stores(block, call) {
            return true;
        }
    }
    false
}

/// Whether a call is a Write that is Inside, covers the block and has other words for it.
fn stores_other(block: u64, words: &[u32], call: &Call) -> bool
    ensures { result ≡ stores_other block words.now (open_of call.now) }
{
    stores(block, call) && words != words_for(&call.op, block)
}

/// Whether a Write that is Inside and covers the block has other words for it.
pub fn is_asked_for_other(block: u64, words: &[u32], calls: &[Call]) -> bool
    ensures { result ≡ list_any (stores_other block words.now) (map open_of calls.now) }
{
    for call in calls {
        if stores_other(block, words, call) {
            return true;
        }
    }
    false
}

/// Whether an operation sends this frame.
fn sends(frame: &[u32], op: &Op) -> bool
    ensures { result ≡ sends frame.now op.now }
{
    match op {
        Op::Send { frame: own } => own.as_slice() == frame,
        _ => false,
    }
}

/// Whether the call with a number is open and is a Send of exactly this frame.
pub fn is_send_of(frame: &[u32], calls: &[Call], number: u32) -> bool
    ensures { result ≡ is_send_of frame.now (call_of number (map open_of calls.now)) }
{
    match find_call(calls, number) {
        Some(call) => sends(frame, &call.op),
        None => false,
    }
}

/// Whether a frame was already sent in the bursts of the call with a number.
pub fn had_frame(calls: &[Call], number: u32) -> bool
    ensures { result ≡ had_frame (call_of number (map open_of calls.now)) }
{
    match find_call(calls, number) {
        Some(call) => call.sent > 0,
        None => false,
    }
}

/// Whether a word is the next one of a Play of which `played` samples were played.
fn is_next(op: &Op, played: u64, word: u32) -> bool
    ensures { result ≡ is_next op.now played word }
{
    match op {
        Op::Play { samples } => {
            played < samples.len() as u64 && samples.as_slice()[played as usize] == word
        }
        _ => false,
    }
}

/// Whether a word is the next sample of the first Play that is Inside.
pub fn is_next_sample(word: u32, calls: &[Call]) -> bool
    ensures { result ≡ is_next_of word (play_inside (map open_of calls.now)) }
{
    match find_playing(calls) {
        Some(call) => is_next(&call.op, call.played, word),
        None => false,
    }
}

/// Whether an operation is a Set of the key and value.
fn sets(key: u32, value: u32, op: &Op) -> bool
    ensures { result ≡ sets key value op.now }
{
    match op {
        Op::Set {
            key: own_key,
            value: own_value,
        } => *own_key == key && *own_value == value,
        _ => false,
    }
}

/// Whether a call is Inside and is a Set of the key and value.
fn is_setting(key: u32, value: u32, call: &Call) -> bool
    ensures { result ≡ is_setting key value (open_of call.now) }
{
    call.inside && sets(key, value, &call.op)
}

/// Whether a Set of the key and value is Inside.
pub fn is_asked_to_set(key: u32, value: u32, calls: &[Call]) -> bool
    ensures { result ≡ list_any (is_setting key value) (map open_of calls.now) }
{
    for call in calls {
        if is_setting(key, value, call) {
            return true;
        }
    }
    false
}

/// Whether the ReplaySet that is Inside gives the key the value.
pub fn is_replay_of(key: u32, value: u32, replay: &Option<(u32, u32)>) -> bool
    ensures { result ≡ is_replay_of key value replay.now }
{
    match replay {
        Some(set) => set.0 == key && set.1 == value,
        None => false,
    }
}

/// Whether the register has the value of the ReplaySet that is Inside, if one is.
pub fn is_replayed(replay: &Option<(u32, u32)>, registers: &[u32; 4]) -> bool
    ensures { result ≡ is_replayed replay.now registers.now }
{
    match replay {
        Some(set) => register(registers, set.0) == set.1,
        None => true,
    }
}

/// A register's value; 0 past the last key.
pub fn register(registers: &[u32; 4], key: u32) -> u32
    ensures { result ≡ slice_index registers.now key }
{
    registers.get(key as usize).copied().unwrap_or(0)
}
