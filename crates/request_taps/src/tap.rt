//! One listener's position on the bus.

ghost use Rattle.std.specs.Prelude.{◌≡◌, ◌<◌, false};
ghost use Rattle.request_taps.specs.Bus.{detach_answer, detached, heard_below, is_present, seen, settled_tap, after_hearing};
ghost use Rattle.request_taps.specs.Bus.{total_of};

use nook_data::steps::Event;
use nook_io::outside::Listener;

/// An attached listener, or the total of a dropped one.
#[derive(Drop)]
pub enum Tap<L> {
    Present(L),
    Dropped(u64),
}

impl<L: Listener> Tap<L> {
    /// Drops a listener that is at its limit, and stores its total.
    pub fn settle(&mut self)
        ensures { seen L.listening self.new ≡ settled_tap (seen L.listening self.old) }
    {
        if let Tap::Present(listener) = self {
            let total = listener.total();
            if total >= listener.limit() {
                *self = Tap::Dropped(total);
            }
        }
    }

    /// The listener hears an event of a part if it is attached and below its limit. It is dropped if its total
    /// reaches its limit.
    pub fn hear(&mut self, part: u8, event: &Event)
        ensures { seen L.listening self.new
            ≡ after_hearing part event.now (seen L.listening self.old) }
    {
        if let Tap::Present(listener) = self {
            if hear_below(listener, part, event) {
                self.settle();
            }
        }
    }

    /// Drops the listener and returns its total; `None` exactly if it is no longer attached.
    pub fn detach(&mut self) -> Option<u64>
        ensures answer { result ≡ detach_answer (seen L.listening self.old) }
        ensures tap { seen L.listening self.new ≡ detached (seen L.listening self.old) }
    {
        let Tap::Present(listener) = self else {
            return None;
        };
        let heard = listener.total();
        *self = Tap::Dropped(heard);
        Some(heard)
    }

    /// The total of the listener, or the one stored when it was dropped.
    pub fn total(&self) -> u64
        ensures { result ≡ total_of (seen L.listening self.now) }
    {
        match self {
            Tap::Present(listener) => listener.total(),
            Tap::Dropped(total) => *total,
        }
    }
}

impl<L> Tap<L> {
    /// Whether the listener is attached.
    pub fn is_present(&self) -> bool
        ensures { result ≡ is_present self.now }
    {
        matches!(self, Tap::Present(_))
    }
}

/// A listener below its limit hears an event of a part. Returns whether it may be at its limit now. The listener is not
/// asked again, since an event adds at most one to its total.
fn hear_below<L: Listener>(listener: &mut L, part: u8, event: &Event) -> bool
    ensures heard { L.listening listener.new
        ≡ heard_below part event.now (L.listening listener.old) }
    ensures below { result ≡ false
        → (L.listening listener.new).total < (L.listening listener.new).limit }
{
    let left = listener.limit().saturating_sub(listener.total());
    if left > 0 {
        listener.hear(part, event);
    }
    left <= 1
}
