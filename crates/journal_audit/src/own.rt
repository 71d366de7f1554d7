//! The program's own listeners, whose totals an audit checks.

ghost use Rattle.std.specs.Prelude.{◌≡◌, IfOk, map};
ghost use Rattle.run_laws.specs.Audit.{own_listeners};

use nook_io::listeners::CountListener;
use nook_io::outside::Listener;
use std::alloc::{AllocError, Global};

/// The total at which one of the program's own listeners has heard enough.
const ENOUGH: u64 = 1_000_000;

/// Every part.
const ALL_PARTS: u8 = 255;

/// The kinds of events that the program's own listeners hear.
const FAILURES: u8 = 32;

const BURSTS: u8 = 4;

const ANSWERS: u8 = 64;

/// The program's own listeners, of failures, of bursts and of answers. An audit expects a report's totals to be those
/// of what they hear.
pub fn own_listeners(alloc: Global) -> Result<Vec<CountListener>, AllocError>
    ensures { IfOk result
        (λ made. map ⟦<CountListener as Listener>⟧.listening made.items ≡ own_listeners) }
{
    let listeners = vec![in alloc;
        CountListener::new(ALL_PARTS, FAILURES, ENOUGH),
        CountListener::new(ALL_PARTS, BURSTS, ENOUGH),
        CountListener::new(ALL_PARTS, ANSWERS, ENOUGH),
    ]?;
    Ok(listeners)
}
