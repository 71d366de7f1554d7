//! A listener that records how it is used, and one that is detached.

use nook_data::lists::Items;
use nook_data::steps::{End, Event, Stage};
use nook_io::listeners::CountListener;
use nook_io::outside::Listener;
use request_taps::TapBus;
use std::alloc::Global;
use std::sync::Arc;
use std::sync::atomic::{AtomicU64, Ordering};
use std::test::Fail;

/// Counts in shared counters how often it is called, and how often such a listener is dropped.
struct Watched {
    inner: CountListener,
    calls: Arc<AtomicU64, Global>,
    drops: Arc<AtomicU64, Global>,
}

impl Listener for Watched {
    ghost listening = { λ s. ⟦<CountListener as Listener>⟧.listening s.inner };

    fn part_mask(&self) -> u8 {
        self.inner.part_mask()
    }

    fn kind_mask(&self) -> u8 {
        self.inner.kind_mask()
    }

    fn limit(&self) -> u64 {
        self.inner.limit()
    }

    fn total(&self) -> u64 {
        self.inner.total()
    }

    fn hear(&mut self, part: u8, event: &Event) {
        self.calls.fetch_add(1, Ordering::SeqCst);
        self.inner.hear(part, event)
    }
}

impl Drop for Watched {
    fn drop(self) {
        self.drops.fetch_add(1, Ordering::SeqCst);
        let Watched {
            inner: _,
            calls: _,
            drops: _,
        } = self;
    }
}

/// A burst without acts.
fn burst(alloc: Global) -> Event {
    Event::Burst {
        context: 0,
        call: 1,
        burst: 1,
        count: 1,
        end: End::Pause,
        acts: Items::new(alloc),
        answer: None,
        failure: None,
    }
}

/// A stage that answers nothing.
fn reset(alloc: Global) -> Event {
    Event::Stage {
        stage: Stage::Reset,
        answers: Items::new(alloc),
        released: Items::new(alloc),
    }
}

/// A listener is called as often as its total says, and is dropped once, at its limit. Another hears the bursts until
/// it is detached, and a third is at its limit from the start.
#[test]
fn listeners_are_called_and_dropped(rt: HostRuntime) -> Result<(), Fail> {
    let alloc = rt.alloc();
    let calls = Arc::new(alloc, AtomicU64::new(0))?;
    let drops = Arc::new(alloc, AtomicU64::new(0))?;
    let watched = Watched {
        inner: CountListener::new(255, 127, 3),
        calls: Arc::try_clone(&calls)?,
        drops: Arc::try_clone(&drops)?,
    };
    let mut listeners: Vec<Box<dyn Listener>> = Vec::new(alloc);
    listeners.push(Box::new(alloc, watched)?)?;
    listeners.push(Box::new(alloc, CountListener::new(255, 4, 5))?)?;
    listeners.push(Box::new(alloc, CountListener::new(255, 4, 0))?)?;
    let mut bus = TapBus::new(alloc, listeners)?;
    for event in &[burst(alloc), reset(alloc), burst(alloc), burst(alloc)] {
        bus.publish(2, event);
    }
    assert_eq!(rt; calls.load(Ordering::SeqCst), 3);
    assert_eq!(rt; drops.load(Ordering::SeqCst), 1);
    if bus.len() > 1 {
        assert_eq!(rt; bus.detach(1), Some(3));
    }
    let reported = bus.totals(alloc)?;
    assert_eq!(rt;
        reported.as_slice(),
        [(3, false), (3, false), (0, false)].as_slice()
    );
    Ok(())
}
