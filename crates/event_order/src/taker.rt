//! The events of several parts, taken one by one.

ghost use Rattle.std.specs.Prelude.{◌≡◌, ◌<◌, ℕ, List, IfOk, MatchOption, [], length, map, slice_get, slice_index_or};
ghost use Rattle.event_order.specs.Bare.{bare_taking};
ghost use Rattle.event_order.specs.Lefts.{IsFirstIn, events_in};
ghost use Rattle.event_order.specs.Ways.{IsAble, IsAbleIn, IsHeld, IsWayToEnd, Takes, lists_in, taking_in};
ghost use Rattle.nook_data.specs.declared.steps.Event.{Event};
ghost use Rattle.order_defs.specs.Taking.{IsStuck, Taking, opening_taking};

use crate::callers::{Caller, all_callers, hear_all, is_timely};
use crate::first::FirstLeft;
use nook_data::journal::Journal;
use nook_data::memory::NoMemory;
use nook_data::scenario::ThreadSpec;
use nook_data::steps::Event;
use std::alloc::Global;
use std::marker::Model;

/// An event that may be taken: the index of its part, and the events of the part after it.
#[derive(Clone, Copy)]
pub struct Able<'a> {
    part: usize,
    event: &'a Event,
    rest: &'a [Event],
}

/// The events left of each part's journal, and the threads after the events that were taken.
#[derive(Drop)]
pub struct Taker<'a> {
    left: Vec<&'a [Event]>,
    callers: Vec<Caller<'a>>,
}

impl<'a> Model for Taker<'a> {
    ghost use Rattle.std.specs.Prelude.{map};
    ghost use Rattle.order_defs.specs.Taking.{Taking};

    ghost Value = { Taking };

    ghost view = { λ s. record {
      left = map (λ l. l.now) s.left.items;
      threads = s.callers.items;
    } };
}

impl<'a> Taker<'a> {
    /// Starts with all events of these journals.
    pub fn new(
        alloc: Global,
        threads: &'a [ThreadSpec],
        journals: &'a [Journal],
    ) -> Result<Taker<'a>, NoMemory>
        ensures { IfOk result
            (λ taker. taker ≡ opening_taking threads.now (map events_in journals.now)) }
    {
        Ok(Taker {
            left: all_left(alloc, journals)?,
            callers: all_callers(alloc, threads)?,
        })
    }

    /// Takes an event if one may be taken, and returns whether it did.
    fn take_one(&mut self) -> bool
        ensures { Takes result self.old self.new }
    {
        let Some(able) = first_able(self.callers.as_slice(), self.left.as_slice()) else {
            return false;
        };
        hear_all(self.callers.as_mut_slice(), able.part, able.event);
        self.left[able.part] = able.rest;
        true
    }

    /// Takes events until none may be taken.
    pub fn take_all(&mut self)
        ensures { (s : Taking) → bare_taking s ≡ self.old → IsWayToEnd s self.new }
    {
        'taking: while self.take_one() {}
    }

    /// The first part with an event left.
    pub fn first_left(&self) -> Option<FirstLeft>
        ensures { IsFirstIn self.now.left result }
    {
        first_of(self.left.as_slice())
    }
}

/// The events of each journal.
fn all_left<'a>(alloc: Global, journals: &'a [Journal]) -> Result<Vec<&'a [Event]>, NoMemory>
    ensures { IfOk result (λ made. lists_in made.items ≡ map events_in journals.now) }
{
    let mut made = Vec::with_capacity(alloc, journals.len())?;
    for journal in journals {
        made.push(journal.as_slice())?;
    }
    Ok(made)
}

/// The first event that may be taken, in the order of the parts.
fn first_able<'a>(callers: &[Caller], left: &[&'a [Event]]) -> Option<Able<'a>>
    ensures { MatchOption result (IsStuck (taking_in left.now callers.now))
        (IsAbleIn (taking_in left.now callers.now)) }
{
    for part in 0..left.len() {
        if let Some(able) = able_at(callers, part, left[part]) {
            return Some(able);
        }
    }
    None
}

/// The next event of a part, if it may be taken.
fn able_at<'a>(callers: &[Caller], part: usize, events: &'a [Event]) -> Option<Able<'a>>
    ensures { MatchOption result (IsHeld callers.now part events.now)
        (IsAble callers.now part events.now) }
{
    let (event, rest) = events.split_first()?;
    if !is_timely(callers, part, event) {
        return None;
    }
    Some(Able { part, event, rest })
}

/// The first of these lists that has an event.
fn first_of(left: &[&[Event]]) -> Option<FirstLeft>
    ensures { IsFirstIn (lists_in left.now) result }
{
    for part in 0..left.len() {
        let events = left[part];
        if !events.is_empty() {
            return Some(FirstLeft {
                part,
                count: events.len(),
            });
        }
    }
    None
}
