//! A fresh desk, and three calls, one of which a failure interrupts. `checks/desk_memory` runs these tests with each
//! allocation refused in turn; none of them may fail then, and a desk that is not made has nothing to show.

ghost use Rattle.part_server.specs.Desk.{IsDeskSeat};

use crate::persisting::{Persisted, call_until_answered, desk_of, settle_at_last};
use desk_like::DeskLike;
use nook_data::calls::{Answer, Op};
use nook_data::desks::DeskRefused;
use nook_data::lists::Words;
use nook_data::steps::{Event, Stage};
use part_server::{DeskSeat, PartDesk};
use std::alloc::Global;
use std::sync::Wait;
use std::test::Fail;

/// A block of sixteen words that are all the same.
fn block_of(alloc: Global, word: u32) -> Option<Words> {
    let words = vec![in alloc; word; 16].ok()?;
    Some(Words::from_vec(words))
}

/// The words of a block that were read; none for any other answer.
fn words_in(answer: &Answer) -> &[u32] {
    match answer {
        Answer::Blocks(words) => words.as_slice(),
        _ => &[],
    }
}

/// Whether the events are the boot: Load, Init with two bursts of the shadow's context, and Resume.
fn is_boot(events: &[Event]) -> bool {
    let [load, init, first, second, resume] = events else {
        return false;
    };
    is_stage(load, Stage::Load)
        && is_stage(init, Stage::Init)
        && is_burst_of_shadow(first)
        && is_burst_of_shadow(second)
        && is_stage(resume, Stage::Resume)
}

/// Whether an event is this stage.
fn is_stage(event: &Event, expected: Stage) -> bool {
    matches!(event, Event::Stage { stage, .. } if *stage == expected)
}

/// Whether an event is a burst of the shadow's context.
fn is_burst_of_shadow(event: &Event) -> bool {
    matches!(event, Event::Burst { context: 16, .. })
}

/// Before its part has booted, a desk has no open call. It settles with the boot's five events.
#[test]
fn a_fresh_desk_settles_with_its_boot(rt: HostRuntime) -> Result<(), Fail> {
    let Some((desk, mut seat)) = desk_of(rt.alloc()) else {
        return Ok(());
    };
    let resumed = desk.resume(&rt, rt.alloc(), &mut seat, 0);
    assert!(rt;
        matches!(
            resumed,
            Err(DeskRefused::NoOpenCall | DeskRefused::NoMemory { call: None })
        )
    );
    assert!(rt; settle_at_last(&rt, &desk, &mut seat));
    let part = desk.close(&rt, seat);
    assert!(rt; is_boot(part.journal().as_slice()));
    Ok(())
}

/// How many invocations and answers a journal has.
#[derive(Clone, Copy, Debug, PartialEq, Eq)]
struct Counts {
    invocations: u32,
    answers: u32,
}

/// Counts the invocations and the answers in a journal of calls that no shadow answers.
fn counts_of(events: &[Event]) -> Counts {
    let mut counts = Counts {
        invocations: 0,
        answers: 0,
    };
    for event in events {
        match event {
            Event::Invoke { .. } => counts.invocations = counts.invocations.saturating_add(1),
            Event::Burst {
                answer: Some(_),
                ..
            } => counts.answers = counts.answers.saturating_add(1),
            _ => {}
        }
    }
    counts
}

/// A write of block 3.
fn write_of(alloc: Global, word: u32) -> Option<Op> {
    Some(Op::Write {
        first: 3,
        words: block_of(alloc, word)?,
    })
}

/// Calls a first write of block 3, a read of it and a second write.
fn make_calls<R: Wait>(
    rt: &R,
    alloc: Global,
    desk: &PartDesk,
    seat: &mut DeskSeat,
    writes: &(Op, Op),
) -> Option<[Persisted; 3]>
    requires { IsDeskSeat desk.now seat.old }
    ensures { IsDeskSeat desk.now seat.new }
{
    let (first, second) = writes;
    let read = Op::Read { first: 3, count: 1 };
    let wrote = call_until_answered(rt, alloc, desk, seat, first)?;
    let got = call_until_answered(rt, alloc, desk, seat, &read)?;
    let again = call_until_answered(rt, alloc, desk, seat, second)?;
    Some([wrote, got, again])
}

/// The numbers of the events that invoke and answer a call.
fn indices(call: &Persisted) -> (u64, u64) {
    (call.receipt.at_invoke, call.receipt.at_reply)
}

/// Whether the three calls were answered as with enough memory, in events with the same numbers.
fn are_answered(calls: &[Persisted; 3]) -> bool {
    let [wrote, got, again] = calls;
    indices(wrote) == (1, 8)
        && matches!(wrote.receipt.answer, Answer::Done)
        && indices(got) == (9, 11)
        && words_in(&got.receipt.answer) == [1; 16].as_slice()
        && indices(again) == (12, 24)
        && matches!(again.receipt.answer, Answer::Done)
}

/// The second write is interrupted in burst 5 and enters the driver again after the recovery. Each call is invoked once
/// and answered once, in the events with the same numbers as with enough memory: a refusal adds no event.
#[test]
fn each_call_is_answered_once(rt: HostRuntime) -> Result<(), Fail> {
    let alloc = rt.alloc();
    let Some((desk, mut seat)) = desk_of(alloc) else {
        return Ok(());
    };
    let (Some(ones), Some(twos)) = (write_of(alloc, 1), write_of(alloc, 2)) else {
        return Ok(());
    };
    let writes = (ones, twos);
    let calls = make_calls(&rt, alloc, &desk, &mut seat, &writes).ok_or("no answer")?;
    assert!(rt; are_answered(&calls));
    let part = desk.close(&rt, seat);
    assert_eq!(rt; part.journal().len(), 24);
    assert_eq!(rt;
        counts_of(part.journal().as_slice()),
        Counts {
            invocations: 3,
            answers: 3
        }
    );
    if calls.iter().any(|call| call.was_no_memory) {
        println!(rt; "a call that was open was gone on with")?;
    }
    Ok(())
}
