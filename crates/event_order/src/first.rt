//! The first event that no order reaches.

ghost use Rattle.std.specs.Prelude.{IfOk, map};
ghost use Rattle.event_order.specs.Lefts.{events_in};
ghost use Rattle.event_order.specs.Ends.{IsLeftOver};

use crate::taker::Taker;
use nook_data::journal::Journal;
use nook_data::memory::NoMemory;
use nook_data::scenario::ThreadSpec;
use std::alloc::Global;

/// The first part with events left: its index, and how many events.
#[derive(Clone, Copy)]
pub struct FirstLeft {
    pub part: usize,
    pub count: usize,
}

/// Takes the events of these journals, each journal's in order, as long as one may be taken: an invocation if its
/// thread has no open operation and this is its next one, every other event at once. Returns the first part with
/// events left; none if every event was taken.
pub fn first_left(
    alloc: Global,
    threads: &[ThreadSpec],
    journals: &[Journal],
) -> Result<Option<FirstLeft>, NoMemory>
    ensures { IfOk result (IsLeftOver threads.now (map events_in journals.now)) }
{
    let mut taker = Taker::new(alloc, threads, journals)?;
    taker.take_all();
    Ok(taker.first_left())
}
