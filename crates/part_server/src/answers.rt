//! Finds answers and invocations in a journal.

ghost use Rattle.std.specs.Prelude.{◌≡◌, ◌+◌, ◌≤◌, None, Some, MatchOption, drop, false, length};
ghost use Rattle.std.specs.List.{list_any};
ghost use Rattle.part_defs.specs.Views.CallLogs.{answered_from};
ghost use Rattle.desk_like.specs.Desks.{IsAt};
ghost use Rattle.part_server.specs.Answers.{InvokesCall, is_invocation};

use nook_data::steps::Event;

/// The number, from 1, of the first event after the first `looked` events that answers a call.
pub fn first_answer(events: &[Event], looked: usize, call: u32) -> Option<u64>
    requires { looked ≤ length events.now }
    ensures { result ≡ answered_from (looked + 1) call (drop looked events.now) }
{
    for number in looked..events.len() {
        if events[number].answer_to(call).is_some() {
            return Some(number as u64 + 1);
        }
    }
    None
}

/// The number, from 1, of the event that invokes a thread's call.
pub fn invocation(events: &[Event], call: u32, thread: u8) -> Option<u64>
    ensures { MatchOption result (list_any (is_invocation call thread) events.now ≡ false)
        (λ number. IsAt events.now number (InvokesCall call thread)) }
{
    for number in 0..events.len() {
        if invokes(&events[number], call, thread) {
            return Some(number as u64 + 1);
        }
    }
    None
}

/// Whether an event is the invocation of a thread's call.
fn invokes(event: &Event, call: u32, thread: u8) -> bool
    ensures { result ≡ is_invocation call thread event.now }
{
    match event {
        Event::Invoke {
            call: this,
            thread: caller,
            ..
        } => *this == call && *caller == thread,
        _ => false,
    }
}
