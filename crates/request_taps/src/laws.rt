//! What a bus reports at the end of a run.

ghost use Rattle.std.specs.Prelude.{◌≡◌, ℕ, List, map};
ghost use Rattle.nook_io.specs.Listening.{Listening};
ghost use Rattle.nook_io.specs.Listening.{tap_result};
ghost use Rattle.nook_data.specs.declared.steps.Event.{Event};
ghost use Rattle.request_taps.specs.Bus.{result_of, settled, after_hearing_all};

/// After any events, each with its part, a bus reports for each listener its initial total plus the number of events
/// that its masks meet, up to its limit; and a listener is attached exactly while its total is below
/// its limit.
pub fn every_bus_reports_the_totals()
    ensures { (listeners : List Listening) (published : List (ℕ × Event))
        → map result_of (after_hearing_all published (map settled listeners))
        ≡ map (λ l. tap_result l published) listeners }
{}
