//! Why an audit stops before the end of a report.

use nook_data::memory::NoMemory;

/// Why an audit stops before the end of a report.
#[derive(Clone, Copy)]
pub enum Stop {
    /// This line, counted from 1, does not fit or is missing.
    Unfit { line: u64 },
    /// Memory ran out.
    NoMemory,
}

impl From<NoMemory> for Stop {
    ghost use Rattle.std.specs.Prelude.{◌≡◌};
    ghost use Rattle.journal_audit.specs.declared.stop.Stop.TheVariants as stops;

    ghost from_gives = { λ _ stop. stop ≡ stops.NoMemory };

    fn from(_no_memory: NoMemory) -> Stop {
        Stop::NoMemory
    }
}
