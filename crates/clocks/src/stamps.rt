//! Lists of stamps.

ghost use Rattle.clocks.specs.Clocks.{last_of, latest};
ghost use Rattle.std.specs.Prelude.{◌++◌, ◌∷◌, ◌≡◌, [], suc};

use crate::clock::Clock;
use std::marker::Model;
use std::snapshot::Snapshot;

/// A list of stamps, each the time of an event.
#[derive(Drop)]
pub struct Stamps {
    row: Row,
}

/// The last stamp and, known only to contracts, those before it.
#[derive(Drop)]
enum Row {
    Empty,
    Then(Snapshot<Row>, Clock),
}

impl Model for Stamps {
    ghost use Rattle.std.specs.Prelude.{List, ℕ};

    ghost Value = { List ℕ };

    ghost use Rattle.clocks.specs.Times.{numbers};

    ghost view = { λ s. numbers s.row };
}

impl Stamps {
    /// An empty list of stamps.
    pub fn new() -> Stamps
        ensures { result ≡ [] }
    {
        Stamps { row: Row::Empty }
    }

    /// Sets a clock to one more than the later of its time and the last stamp, and adds that as a stamp.
    pub fn push(&mut self, clock: &mut Clock)
        ensures clock { clock.new ≡ suc (latest (last_of self.old) clock.old) }
        ensures stamps { self.new ≡ self.old ++ clock.new ∷ [] }
    {
        clock.pass(&self.last());
        self.row = Row::Then(Snapshot::of(&self.row), clock.copy());
    }

    /// A clock at the time of the last stamp.
    #[tactic(auto, using(crate::proofs::Lasts::last_added))]
    pub fn last(&self) -> Clock
        ensures { result ≡ last_of self.now }
    {
        match &self.row {
            Row::Empty => Clock::start(),
            Row::Then(_, last) => last.copy(),
        }
    }
}
