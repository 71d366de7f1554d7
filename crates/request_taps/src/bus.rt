//! The bus.

ghost use Rattle.std.specs.Prelude.{◌≡◌, ◌<◌, map, length, slice_set, IfOk};
ghost use Rattle.request_taps.specs.Bus.{detach_answer, detached, is_present, result_of, seen, settled, settled_tap};
ghost use Rattle.request_taps.specs.Bus.{tap_at, after_hearing, total_of};

use crate::boxed::{Boxed, all_held};
use crate::tap::Tap;
use nook_data::lists::Items;
use nook_data::memory::NoMemory;
use nook_data::steps::Event;
use nook_io::listeners::TapTotals;
use nook_io::outside::Listener;
use std::alloc::Global;
use std::marker::Model;

/// Listeners in order, each attached or dropped. Contracts see the list of their taps.
#[derive(Drop)]
pub struct Bus<L> {
    taps: Vec<Tap<L>>,
}

/// A bus of boxed listeners.
pub type TapBus = Bus<Boxed>;

impl<L> Model for Bus<L> {
    ghost use Rattle.std.specs.Prelude.{List};
    ghost use Rattle.request_taps.specs.declared.tap.Tap.{Tap};

    ghost Value = { List (Tap L) };

    ghost view = { λ s. s.taps.items };
}

impl TapBus {
    /// A bus of these listeners. One whose total has reached its limit is dropped at once, but its total is stored.
    /// After `NoMemory` all listeners are dropped.
    pub fn new(alloc: Global, listeners: Vec<Box<dyn Listener>>) -> Result<TapBus, NoMemory>
        ensures { IfOk result (λ bus. map (seen ⟦<Boxed as Listener>⟧.listening) bus
            ≡ map (λ b. settled ((⟦<dyn Listener as Listener>⟧ b.vtable).listening b.value))
            listeners.items) }
    {
        Bus::of(alloc, all_held(alloc, listeners)?)
    }
}

impl<L: Listener> Bus<L> {
    /// A bus of listeners of one type. It is like `new` without boxes.
    pub fn of(alloc: Global, listeners: Vec<L>) -> Result<Bus<L>, NoMemory>
        ensures { IfOk result
            (λ bus. map (seen L.listening) bus
            ≡ map (λ l. settled (L.listening l)) listeners.items) }
    {
        let mut bus = Bus {
            taps: all_present(alloc, listeners)?,
        };
        bus.settle();
        Ok(bus)
    }

    /// Drops each listener that is at its limit, and stores its total.
    fn settle(&mut self)
        ensures { map (seen L.listening) self.new
            ≡ map settled_tap (map (seen L.listening) self.old) }
    {
        settle(&mut self.taps);
    }

    /// Each attached listener hears an event of a part. One whose total then reaches its limit is dropped, and its
    /// total is stored.
    pub fn publish(&mut self, part: u8, event: &Event)
        ensures { map (seen L.listening) self.new
            ≡ map (after_hearing part event.now) (map (seen L.listening) self.old) }
    {
        report(&mut self.taps, part, event);
    }

    /// Drops listener `i`, counted from 0, and returns its total, which stays stored; `None` exactly if it is no longer
    /// attached.
    pub fn detach(&mut self, i: usize) -> Option<u64>
        requires { i < length self.old }
        ensures answer { result ≡ detach_answer (tap_at i (map (seen L.listening) self.old)) }
        ensures taps { map (seen L.listening) self.new
            ≡ slice_set (map (seen L.listening) self.old) i
            (detached (tap_at i (map (seen L.listening) self.old))) }
    {
        self.taps[i].detach()
    }

    /// The total of listener `i`, counted from 0.
    pub fn total(&self, i: usize) -> u64
        requires { i < length self.now }
        ensures { result ≡ total_of (tap_at i (map (seen L.listening) self.now)) }
    {
        self.taps[i].total()
    }

    /// Each listener's total, and whether it is still attached.
    pub fn totals(&self, alloc: Global) -> Result<TapTotals, NoMemory>
        ensures { IfOk result (λ made. made ≡ map result_of (map (seen L.listening) self.now)) }
    {
        let mut made = Items::new(alloc);
        for tap in &self.taps {
            made.push((tap.total(), tap.is_present()))?;
        }
        Ok(made)
    }

    /// Whether listener `i`, counted from 0, is attached.
    pub fn present(&self, i: usize) -> bool
        requires { i < length self.now }
        ensures { result ≡ is_present (tap_at i (map (seen L.listening) self.now)) }
    {
        self.taps[i].is_present()
    }

    /// The number of listeners, including dropped ones.
    pub fn len(&self) -> usize
        ensures { result ≡ length self.now }
    {
        self.taps.len()
    }
}

/// Each attached listener of these taps hears an event of a part.
fn report<L: Listener>(taps: &mut [Tap<L>], part: u8, event: &Event)
    ensures { map (seen L.listening) taps.new
        ≡ map (after_hearing part event.now) (map (seen L.listening) taps.old) }
{
    for tap in taps {
        tap.hear(part, event);
    }
}

/// A tap of each listener.
fn all_present<L: Listener>(alloc: Global, listeners: Vec<L>) -> Result<Vec<Tap<L>>, NoMemory>
    ensures { IfOk result (λ made. made.items ≡ map Tap.Present listeners.items) }
{
    let made = listeners
        .into_iter()
        .map(|listener| Tap::Present(listener))
        .collect(alloc)?;
    Ok(made)
}

/// Drops each listener that is at its limit, and stores its total.
fn settle<L: Listener>(taps: &mut [Tap<L>])
    ensures { map (seen L.listening) taps.new ≡ map settled_tap (map (seen L.listening) taps.old) }
{
    for tap in taps {
        tap.settle();
    }
}
