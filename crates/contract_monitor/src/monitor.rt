//! The monitor: it takes events, and finds the first break and the losses.

ghost use Rattle.std.specs.Prelude.{◌≡◌, ◌∷◌, ◌++◌, [], ℕ, List, IfOk, IfSome, None, OnErr, OnOk, fold, true};
ghost use Rattle.std.specs.Option.{ForSome};
ghost use Rattle.nook_data.specs.declared.classes.Class.{Class};
ghost use Rattle.nook_data.specs.declared.steps.Event.{Event};
ghost use Rattle.promise_defs.specs.Contract.{first_break, known_after, known_first};
ghost use Rattle.promise_defs.specs.Losses.{losses};
ghost use Rattle.contract_monitor.specs.Keeping.{kept_after, losses_of};
ghost use Rattle.contract_monitor.specs.Monitors.{JudgeAlike, Represents, after_event, break_of, broken_clause};
ghost use Rattle.contract_monitor.specs.Monitors.{or_break};
ghost use Rattle.contract_monitor.specs.Wrong.{first_wrong};

use crate::calls::more;
use crate::known::Known;
use crate::wrong::WrongDeed;
use nook_data::classes::Class;
use nook_data::clause::Clause;
use nook_data::digest::mixed;
use nook_data::lists::TryCopy;
use nook_data::memory::NoMemory;
use nook_data::same::Same;
use nook_data::steps::Event;
use nook_data::verdicts::{Break, Losses};
use std::alloc::Global;
use std::marker::Model;
use std::mem;

/// Judges a part's driver and counts what was lost, event by event. It stores no event. Contracts see what it knows by
/// the definitions of the contract and of the losses; `Represents` says which lists of events it represents.
pub struct Monitor {
    known: Known,
    /// An equal copy of `known` on which to try the next event; none if it has to be copied again.
    spare: Option<Known>,
    seen: u64,
    broken: Option<Break>,
}

impl Model for Monitor {
    ghost use Rattle.std.specs.Prelude.{◌≡◌, IfSome};
    ghost use Rattle.contract_monitor.specs.Monitors.{Monitored};

    ghost Value = { Monitored };

    ghost view = { λ s. record { kept = s.known; seen = s.seen; broken = s.broken } };

    ghost invariant = { λ s. IfSome s.spare (λ same. same ≡ s.known) };
}

impl Drop for Monitor {
    /// Written by hand, so that it is proved once and not in each function that owns a monitor.
    fn drop(self) {
        let Monitor {
            known: _,
            spare: _,
            seen: _,
            broken: _,
        } = self;
    }
}

impl Monitor {
    /// A monitor of a part of this class, with a disk of this many blocks if it is a block part. It represents the
    /// empty list of events.
    pub fn new(alloc: Global, class: Class, blocks: u32) -> Result<Monitor, NoMemory>
        ensures { IfOk result (λ monitor. Represents class blocks [] monitor) }
    {
        Ok(Monitor {
            known: Known::new(alloc, class, blocks)?,
            spare: None,
            seen: 0,
            broken: None,
        })
    }

    /// The monitor that has seen these events, in order. It needs half the time and memory of a `see` for each of them,
    /// since no event is seen twice: a monitor that runs out of memory is dropped.
    pub fn of_events(
        alloc: Global,
        class: Class,
        blocks: u32,
        events: &[Event],
    ) -> Result<Monitor, NoMemory>
        ensures { IfOk result (λ monitor. Represents class blocks events.now monitor) }
    {
        let mut monitor = Monitor::new(alloc, class, blocks)?;
        for event in events {
            monitor.see_or_give_up(event)?;
        }
        Ok(monitor)
    }

    /// Takes one more event; after NoMemory the monitor is useless.
    pub fn see_or_give_up(&mut self, event: &Event) -> Result<(), NoMemory>
        ensures { OnOk result
            ((class : Class) (size : ℕ) (events : List Event)
            → Represents class size events self.old
            → Represents class size (events ++ event.now ∷ []) self.new) }
    {
        let seen = more(self.seen, 1)?;
        self.spare = None;
        let clause = self.known.see(event)?;
        self.seen = seen;
        self.broken = or_break(self.broken, seen, clause);
        Ok(())
    }

    /// Takes one more event. If the monitor represented a list of events, it now represents that list with the event.
    /// NoMemory leaves it as it was. A count that does not fit in 64 bits is refused as if memory had run out.
    pub fn see(&mut self, event: &Event) -> Result<(), NoMemory>
        ensures after { OnOk result (self.new ≡ after_event event.now self.old) }
        ensures represents { OnOk result ((class : Class) (size : ℕ) (events : List Event)
            → Represents class size events self.old
            → Represents class size (events ++ event.now ∷ []) self.new) }
        ensures err { OnErr result (self.new ≡ self.old) }
    {
        let seen = more(self.seen, 1)?;
        let mut next = same_again(&self.known, self.spare.take())?;
        let clause = next.see(event)?;
        self.seen = seen;
        self.broken = or_break(self.broken, seen, clause);
        let before = mem::replace(&mut self.known, next);
        self.spare = caught_up(before, event);
        Ok(())
    }

    /// The first event that breaks a clause of the class's contract, with the smallest clause that it breaks.
    pub fn first_break(&self) -> Option<Break>
        ensures value { result ≡ self.now.broken }
        ensures represents { (class : Class) (size : ℕ) (events : List Event)
            → Represents class size events self.now
            → result ≡ first_break class size events }
    {
        self.broken
    }

    /// The first deed of an event not yet seen that breaks a clause of the class's contract; `None` if the event breaks
    /// none. This holds if no earlier event broke a clause.
    pub fn first_wrong(&self, event: &Event) -> Result<Option<WrongDeed>, NoMemory>
        ensures { IfOk result (λ wrong. (class : Class) (size : ℕ) (events : List Event)
            → Represents class size events self.now → first_break class size events ≡ None
            → wrong ≡ first_wrong (fold known_after (known_first class size) events) event.now) }
    {
        self.known.first_wrong(event)
    }

    /// What was lost, and where frames went.
    pub fn losses(&self) -> Losses
        ensures value { result ≡ losses_of self.now.kept.counts }
        ensures represents { (class : Class) (size : ℕ) (events : List Event)
            → Represents class size events self.now
            → result ≡ losses events }
    {
        self.known.losses()
    }

    /// The number of the clause that was broken first.
    pub fn broken_clause(&self) -> Option<u8>
        ensures { result ≡ broken_clause self.now }
    {
        self.broken.map(|broken| broken.clause)
    }

    /// Whether the other monitor judges and counts as this one does from now on, except for event numbers. The answer
    /// may be no even if it does.
    pub fn judges_alike(&self, other: &Monitor) -> bool
        ensures { result ≡ true → JudgeAlike self.now other.now }
    {
        if !self.broken_clause().is_same(&other.broken_clause()) {
            return false;
        }
        match self.broken {
            Some(_) => self.known.counts_alike(&other.known),
            None => self.known.is_alike(&other.known),
        }
    }

    /// Mixes into a digest numbers that are the same for monitors that judge and count alike from now on.
    pub fn digest(&self, digest: u64) -> u64 {
        match self.broken {
            Some(broken) => self
                .known
                .digest(mixed(digest, u64::from(broken.clause)), false),
            None => self.known.digest(mixed(digest, 0), true),
        }
    }
}

impl TryCopy for Monitor {
    fn copy(&self, alloc: Global) -> Result<Monitor, NoMemory> {
        Ok(Monitor {
            known: self.known.copy(alloc)?,
            spare: None,
            seen: self.seen,
            broken: self.broken,
        })
    }
}

/// A second copy of what is known: the spare one, or a new one.
fn same_again(known: &Known, spare: Option<Known>) -> Result<Known, NoMemory>
    requires { ForSome spare (λ same. same ≡ known.now) }
    ensures { IfOk result (λ same. same ≡ known.now) }
{
    match spare {
        Some(same) => Ok(same),
        None => known.copy(known.alloc),
    }
}

/// What is known with this event included; none if memory ran out.
fn caught_up(before: Known, event: &Event) -> Option<Known>
    ensures { IfSome result (λ known. known ≡ kept_after before event.now) }
{
    let mut known = before;
    match known.see(event) {
        Ok(_) => Some(known),
        Err(NoMemory) => None,
    }
}

/// The first break, if event number `event` may be the first.
fn or_break(broken: Option<Break>, event: u64, clause: Option<Clause>) -> Option<Break>
    ensures { result ≡ or_break broken (break_of event clause) }
{
    if broken.is_some() {
        return broken;
    }
    match clause {
        Some(clause) => Some(Break {
            event,
            clause: clause.number(),
        }),
        None => None,
    }
}
