//! Takes parts out of their desks, with what they leave.

ghost use Rattle.std.specs.Prelude.{◌≡◌, IfOk, map};
ghost use Rattle.app_threads.specs.Order.{all_stamps};
ghost use Rattle.app_threads.specs.Workers.{AreSeats};
ghost use Rattle.desk_like.specs.Desks.{IsAlone};
ghost use Rattle.desk_like.specs.Stamps.{IsStampedFrom};
ghost use Rattle.part_server.specs.Desk.{IsDeskSeat, desk_spec, desk_view};
ghost use Rattle.threaded_run.specs.Leaving.{AreAlone, AreLeft, AreStampedFrom, IsClosed, IsLeft};

use crate::opening::Opened;
use nook_data::journal::Journal;
use nook_data::memory::NoMemory;
use part_core::Part;
use part_server::{DeskSeat, PartDesk};
use run_ends::end_of;
use run_results::{Journals, PartEnd, PartEnds};
use std::alloc::Global;
use std::sync::Wait;

/// A part's journal, and what the part ends in.
#[derive(Drop)]
pub struct Left {
    pub journal: Journal,
    pub end: PartEnd,
}

/// Each part's journal, and what each part ends in.
#[derive(Drop)]
pub struct AllLeft {
    pub journals: Journals,
    pub ends: PartEnds,
}

/// Lets the parts of desks take their remaining steps, and closes each desk through its only seat.
pub fn leave_all<R: Wait>(rt: &R, alloc: Global, opened: Opened) -> Result<AllLeft, NoMemory>
    requires seats { AreSeats IsDeskSeat opened.desks.items opened.seats.items }
    requires alone { AreAlone (map desk_view opened.seats.items) }
    ensures left { IfOk result (λ left. AreLeft (map desk_spec opened.desks.items)
        (map (λ s. (desk_view s).seen) opened.seats.items) left.journals left.ends) }
    ensures stamped { IfOk result
        (λ left. AreStampedFrom (all_stamps (map desk_view opened.seats.items))
        left.journals) }
{
    let mut journals = Journals::new(alloc);
    let mut ends = PartEnds::new(alloc);
    let mut seats = opened.seats.into_iter();
    let mut desks = opened.desks.into_iter();
    while let Some(desk) = desks.next() {
        let Some(seat) = seats.next() else {
            unreachable!()
        };
        let left = leave(rt, alloc, desk, seat)?;
        journals.push(left.journal)?;
        ends.push(left.end)?;
    }
    Ok(AllLeft { journals, ends })
}

/// Closes a desk through its only seat, after its part took its remaining steps.
pub fn leave<R: Wait>(
    rt: &R,
    alloc: Global,
    desk: PartDesk,
    seat: DeskSeat,
) -> Result<Left, NoMemory>
    requires seat { IsDeskSeat desk seat }
    requires alone { IsAlone (desk_view seat) }
    ensures left { IfOk result
        (λ left. IsLeft (desk_spec desk) (desk_view seat).seen left.journal left.end) }
    ensures stamped { IfOk result
        (λ left. IsStampedFrom (desk_view seat).stamps left.journal.list) }
{
    let part = close(rt, desk, seat)?;
    // Its contract says that the events lead to the part's state.
    let _events = part.journal();
    let end = end_of(alloc, &part)?;
    Ok(Left {
        journal: part.into_journal(),
        end,
    })
}

/// Lets a desk's part take its remaining steps, and closes the desk through its only seat.
fn close<R: Wait>(rt: &R, desk: PartDesk, seat: DeskSeat) -> Result<Part, NoMemory>
    requires seat { IsDeskSeat desk seat }
    requires alone { IsAlone (desk_view seat) }
    ensures closed { IfOk result (λ part. IsClosed (desk_spec desk) (desk_view seat).seen part) }
    ensures stamped { IfOk result (λ part. IsStampedFrom (desk_view seat).stamps part.journal) }
{
    let mut seat = seat;
    desk.settle(rt, &mut seat)?;
    Ok(desk.close(rt, seat))
}
