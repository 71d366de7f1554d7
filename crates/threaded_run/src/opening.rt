//! The desks of a scenario's parts, and the frames that arrive there.

ghost use Rattle.std.specs.Prelude.{◌≡◌, All, IfOk, map};
ghost use Rattle.app_threads.specs.Workers.{AreSeats};
ghost use Rattle.nook_data.specs.Valid.{IsValidPart};
ghost use Rattle.part_server.specs.Desk.{IsDeskSeat, desk_spec, desk_view};
ghost use Rattle.part_server.specs.Turns.{opening_view};
ghost use Rattle.threaded_run.specs.Leaving.{AreNew};

use nook_data::lists::{Frames, TryCopy};
use nook_data::memory::NoMemory;
use nook_data::scenario::PartSpec;
use part_core::Part;
use part_server::{DeskSeat, PartDesk};
use std::alloc::Global;

/// A desk for each part of a scenario, and the first seat at each.
#[derive(Drop)]
pub struct Opened {
    pub desks: Vec<PartDesk>,
    pub seats: Vec<DeskSeat>,
}

/// A desk for each of these valid parts, which are at the start of their boot, with the only seat at each.
pub fn open_desks(alloc: Global, parts: &[PartSpec]) -> Result<Opened, NoMemory>
    requires { All IsValidPart parts.now }
    ensures specs { IfOk result (λ opened. map desk_spec opened.desks.items ≡ parts.now) }
    ensures seats { IfOk result
        (λ opened. AreSeats IsDeskSeat opened.desks.items opened.seats.items) }
    ensures new { IfOk result (λ opened. AreNew (map desk_view opened.seats.items)) }
{
    let mut desks = Vec::with_capacity(alloc, parts.len())?;
    let mut seats = Vec::with_capacity(alloc, parts.len())?;
    for spec in parts {
        let (desk, seat) = open_desk(alloc, spec)?;
        desks.push(desk)?;
        seats.push(seat)?;
    }
    Ok(Opened { desks, seats })
}

/// A desk for a valid part, which is at the start of its boot, and the only seat at it.
pub fn open_desk(alloc: Global, spec: &PartSpec) -> Result<(PartDesk, DeskSeat), NoMemory>
    requires { IsValidPart spec.now }
    ensures seat { IfOk result (λ made. IsDeskSeat made.0 made.1) }
    ensures spec { IfOk result (λ made. desk_spec made.0 ≡ spec.now) }
    ensures view { IfOk result (λ made. desk_view made.1 ≡ opening_view) }
{
    let part = Part::new(alloc, spec.copy(alloc)?)?;
    PartDesk::new(alloc, part)
}

/// The frames that arrive at each part.
pub fn arrivals_of(alloc: Global, parts: &[PartSpec]) -> Result<Vec<Frames>, NoMemory>
    ensures { IfOk result (λ made. made.items ≡ map (λ spec. spec.arrivals) parts.now) }
{
    let mut made = Vec::with_capacity(alloc, parts.len())?;
    for spec in parts {
        made.push(spec.arrivals.copy(alloc)?)?;
    }
    Ok(made)
}
