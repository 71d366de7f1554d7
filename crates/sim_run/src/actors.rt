//! The actors that have a step, and the step of each.
//!
//! Thread t is actor t. With T threads the recovery of part p is actor T + 2p, and its arrivals are actor
//! T + 2p + 1.

ghost use Rattle.std.specs.Prelude.{◌≡◌, ◌+◌, ◌*◌, ◌^◌, ◌<◌, ◌≤◌, ◌++◌, length, IfOk, OnOk, Some};
ghost use Rattle.sim_run.specs.Able.{AreAble, able_actors};
ghost use Rattle.sim_run.specs.Actors.{actors_of_seat, actors_of_seats, choice_at, choice_after, choice_of_seat, first_from, named_if, next_from};

use crate::chosen::Chosen;
use crate::script::Script;
use crate::seat::SimulatedPart;
use nook_data::limits::{MOST_PARTS, MOST_THREADS};
use nook_data::memory::NoMemory;
use std::alloc::Global;

/// Whether each thread has a step.
pub fn able_threads(
    alloc: Global,
    threads: &[Script],
    seats: &[SimulatedPart],
) -> Result<Vec<bool>, NoMemory>
    requires { length threads.now ≤ MOST_THREADS }
    ensures { IfOk result (λ able. AreAble seats.now threads.now able.items) }
{
    let mut able = Vec::with_capacity(alloc, threads.len())?;
    for (index, thread) in threads.iter().enumerate() {
        able.push(thread.has_step(index as u8, seats))?;
    }
    Ok(able)
}

/// Makes `ready` the list of the actors that have a step, in ascending order; `able` says which threads have one.
pub fn list_ready(
    able: &[bool],
    seats: &[SimulatedPart],
    ready: &mut Vec<u16>,
) -> Result<(), NoMemory>
    requires able { length able.now ≤ MOST_THREADS }
    requires seats { length seats.now ≤ MOST_PARTS }
    ensures { OnOk result
        (ready.new.items ≡ able_actors 0 able.now ++ actors_of_seats (length able.now) seats.now) }
{
    ready.clear();
    add_threads(able, ready)?;
    add_seats(able.len() as u16, seats, ready)
}

/// Adds the numbers of the threads that have a step.
fn add_threads(able: &[bool], ready: &mut Vec<u16>) -> Result<(), NoMemory>
    requires { length able.now ≤ MOST_THREADS }
    ensures { OnOk result (ready.new.items ≡ ready.old.items ++ able_actors 0 able.now) }
{
    for (index, is_able) in able.iter().enumerate() {
        push_if(ready, *is_able, index as u16)?;
    }
    Ok(())
}

/// Adds the numbers of the parts' actors that have a step. `first` is the number of the first part's first actor.
fn add_seats(first: u16, seats: &[SimulatedPart], ready: &mut Vec<u16>) -> Result<(), NoMemory>
    requires first { first ≤ MOST_THREADS }
    requires seats { length seats.now ≤ MOST_PARTS }
    ensures { OnOk result (ready.new.items ≡ ready.old.items ++ actors_of_seats first seats.now) }
{
    for (index, seat) in seats.iter().enumerate() {
        add_seat(first + 2 * index as u16, seat, ready)?;
    }
    Ok(())
}

/// Adds the numbers of a part's actors that have a step. `actor` is the number of its first actor.
fn add_seat(actor: u16, seat: &SimulatedPart, ready: &mut Vec<u16>) -> Result<(), NoMemory>
    requires { actor < MOST_THREADS + 2 * MOST_PARTS }
    ensures { OnOk result (ready.new.items ≡ ready.old.items ++ actors_of_seat actor seat.now) }
{
    push_if(ready, seat.has_recovery(), actor)?;
    push_if(ready, seat.has_arrival(), actor + 1)
}

/// Adds a number if the test is true.
fn push_if(ready: &mut Vec<u16>, test: bool, actor: u16) -> Result<(), NoMemory>
    ensures { OnOk result (ready.new.items ≡ ready.old.items ++ named_if test actor) }
{
    if test {
        ready.push(actor)?;
    }
    Ok(())
}

/// The step of an actor, if it has one.
#[tactic(auto, unfolding(crate::specs::Actors::choice_at))]
pub fn choice_of(
    alloc: Global,
    actor: u16,
    threads: &[Script],
    seats: &[SimulatedPart],
) -> Result<Option<Chosen>, NoMemory>
    requires { length threads.now ≤ MOST_THREADS }
    ensures { IfOk result (λ choice. choice ≡ choice_at seats.now threads.now actor) }
{
    let index = actor as usize;
    if index < threads.len() {
        threads[index].choice(alloc, actor as u8, seats)
    } else {
        choice_after(alloc, actor, index - threads.len(), seats)
    }
}

/// The step of an actor after the threads.
fn choice_after(
    alloc: Global,
    actor: u16,
    following: usize,
    seats: &[SimulatedPart],
) -> Result<Option<Chosen>, NoMemory>
    requires { following < 2 ^ 16 }
    ensures { IfOk result (λ choice. choice ≡ choice_after actor following seats.now) }
{
    let part = following / 2;
    match seats.get(part) {
        Some(seat) => choice_of_seat(alloc, actor, part as u32, following % 2, seat),
        None => Ok(None),
    }
}

/// The step of one of a part's two actors.
fn choice_of_seat(
    alloc: Global,
    actor: u16,
    part: u32,
    which: usize,
    seat: &SimulatedPart,
) -> Result<Option<Chosen>, NoMemory>
    ensures { IfOk result (λ choice. choice ≡ choice_of_seat actor part which (Some seat.now)) }
{
    let step = if which == 0 {
        seat.recovery()
    } else {
        seat.arrival(alloc)?
    };
    Ok(Chosen::of_step(actor, part, step))
}

/// The next actor of a round robin: the first one at or after the cursor that has a step, else the first that has one.
/// `able` says which threads have one.
pub fn next_ready(cursor: u32, able: &[bool], seats: &[SimulatedPart]) -> Option<u16>
    requires able { length able.now ≤ MOST_THREADS }
    requires seats { length seats.now ≤ MOST_PARTS }
    ensures { result ≡ next_from cursor
        (able_actors 0 able.now ++ actors_of_seats (length able.now) seats.now) }
{
    first_ready(cursor, able, seats).or(first_ready(0, able, seats))
}

/// The first actor from a number on that has a step; `able` says which threads have one.
fn first_ready(least: u32, able: &[bool], seats: &[SimulatedPart]) -> Option<u16>
    requires able { length able.now ≤ MOST_THREADS }
    requires seats { length seats.now ≤ MOST_PARTS }
    ensures { result ≡ first_from least
        (able_actors 0 able.now ++ actors_of_seats (length able.now) seats.now) }
{
    match first_thread(least, able) {
        Some(actor) => Some(actor),
        None => first_of_seats(least, able.len() as u16, seats),
    }
}

/// The first thread from a number on that has a step.
fn first_thread(least: u32, able: &[bool]) -> Option<u16>
    requires { length able.now ≤ MOST_THREADS }
    ensures { result ≡ first_from least (able_actors 0 able.now) }
{
    for (index, is_able) in able.iter().enumerate() {
        if *is_able && least <= index as u32 {
            return Some(index as u16);
        }
    }
    None
}

/// The first of the parts' actors from a number on that has a step. `first` is the first part's first actor.
fn first_of_seats(least: u32, first: u16, seats: &[SimulatedPart]) -> Option<u16>
    requires first { first ≤ MOST_THREADS }
    requires seats { length seats.now ≤ MOST_PARTS }
    ensures { result ≡ first_from least (actors_of_seats first seats.now) }
{
    for (index, seat) in seats.iter().enumerate() {
        if let Some(actor) = first_of_seat(least, first + 2 * index as u16, seat) {
            return Some(actor);
        }
    }
    None
}

/// The first of a part's two actors from a number on that has a step. `actor` is the first of the two.
fn first_of_seat(least: u32, actor: u16, seat: &SimulatedPart) -> Option<u16>
    requires { actor < MOST_THREADS + 2 * MOST_PARTS }
    ensures { result ≡ first_from least (actors_of_seat actor seat.now) }
{
    if seat.has_recovery() && least <= u32::from(actor) {
        Some(actor)
    } else if seat.has_arrival() && least <= u32::from(actor) + 1 {
        Some(actor + 1)
    } else {
        None
    }
}
