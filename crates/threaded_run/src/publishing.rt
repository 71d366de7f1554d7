//! Publishes journals once they are closed.

ghost use Rattle.std.specs.Prelude.{◌≡◌, ◌≤◌, length, map};
ghost use Rattle.request_taps.specs.Bus.{seen, after_hearing_all};
ghost use Rattle.run_results.specs.Journals.{events_in, with_part};
ghost use Rattle.threaded_run.specs.Threaded.{in_parts};

use nook_data::journal::Journal;
use nook_data::limits::MOST_PARTS;
use nook_data::steps::Event;
use nook_io::outside::Listener;
use request_taps::Bus;

/// Lets the taps hear the events of journals, one for each of up to 8 parts, part by part.
pub fn publish_all<L: Listener>(taps: &mut Bus<L>, journals: &[Journal])
    requires { length journals.now ≤ MOST_PARTS }
    ensures { map (seen L.listening) taps.new
        ≡ after_hearing_all (in_parts 0 (map events_in journals.now))
        (map (seen L.listening) taps.old) }
{
    for part in 0..journals.len() {
        publish(taps, part as u8, journals[part].as_slice());
    }
}

/// Lets the taps hear the events of a part.
fn publish<L: Listener>(taps: &mut Bus<L>, part: u8, events: &[Event])
    ensures { map (seen L.listening) taps.new
        ≡ after_hearing_all (with_part part events.now) (map (seen L.listening) taps.old) }
{
    for event in events {
        taps.publish(part, event);
    }
}
