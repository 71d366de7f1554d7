//! Calls that are repeated, or resumed, until they are answered.

ghost use Rattle.std.specs.Prelude.{◌<◌, IfSome};
ghost use Rattle.part_server.specs.Desk.{IsDeskSeat};

use desk_like::DeskLike;
use nook_data::calls::Op;
use nook_data::desks::{DeskRefused, Receipt};
use nook_data::lists::TryCopy;
use part_core::Part;
use part_server::{DeskSeat, PartDesk};
use scenario_gen::generate;
use std::alloc::Global;
use std::sync::Wait;

/// The most times that a call is repeated or resumed.
const MOST_TRIES: u32 = 10;

/// The receipt of a call, and whether memory ran out while the call was open.
#[derive(Drop)]
pub struct Persisted {
    pub receipt: Receipt,
    pub was_no_memory: bool,
}

/// A desk for the generated disk, whose driver is trapped in its fifth burst, and the desk's first seat. None if memory
/// ran out.
pub fn desk_of(alloc: Global) -> Option<(PartDesk, DeskSeat)>
    ensures { IfSome result (λ made. IsDeskSeat made.0 made.1) }
{
    let Ok(scenario) = generate(1, alloc) else {
        return None;
    };
    let [disk, ..] = scenario.parts.as_slice() else {
        return None;
    };
    let Ok(spec) = disk.copy(alloc) else {
        return None;
    };
    let part = Part::new(alloc, spec).ok()?;
    PartDesk::new(alloc, part).ok()
}

/// Makes a call of thread 0. If memory runs out, it resumes the call if that is open, and makes a new one otherwise.
/// None if that never ends, if another call than the open one is answered, or if a refusal has another cause.
pub fn call_until_answered<R: Wait>(
    rt: &R,
    alloc: Global,
    desk: &PartDesk,
    seat: &mut DeskSeat,
    op: &Op,
) -> Option<Persisted>
    requires { IsDeskSeat desk.now seat.old }
    ensures { IsDeskSeat desk.now seat.new }
{
    for _attempt in 0..MOST_TRIES {
        match desk.call(rt, alloc, seat, 0, op) {
            Ok(receipt) => {
                return Some(Persisted {
                    receipt,
                    was_no_memory: false,
                });
            }
            Err(DeskRefused::NoMemory { call: None }) => {}
            Err(DeskRefused::NoMemory { call: Some(open) }) => {
                return resume_until_answered(rt, alloc, desk, seat, open);
            }
            Err(_) => return None,
        }
    }
    None
}

/// Resumes thread 0's open call, which has this number, until it is answered.
fn resume_until_answered<R: Wait>(
    rt: &R,
    alloc: Global,
    desk: &PartDesk,
    seat: &mut DeskSeat,
    open: u32,
) -> Option<Persisted>
    requires { IsDeskSeat desk.now seat.old }
    ensures { IsDeskSeat desk.now seat.new }
{
    for _attempt in 0..MOST_TRIES {
        match desk.resume(rt, alloc, seat, 0) {
            Ok(receipt) if receipt.call == open => {
                return Some(Persisted {
                    receipt,
                    was_no_memory: true,
                });
            }
            Err(DeskRefused::NoMemory { call: None }) => {}
            Err(DeskRefused::NoMemory { call: Some(still) }) if still == open => {}
            _ => return None,
        }
    }
    None
}

/// Settles a desk, and tries again if memory runs out. Returns whether it settled.
pub fn settle_at_last<R: Wait>(rt: &R, desk: &PartDesk, seat: &mut DeskSeat) -> bool
    requires { IsDeskSeat desk.now seat.old }
    ensures { IsDeskSeat desk.now seat.new }
{
    for _attempt in 0..MOST_TRIES {
        if desk.settle(rt, seat).is_ok() {
            return true;
        }
    }
    false
}
