//! Clocks.

ghost use Rattle.clocks.specs.Clocks.{latest};
ghost use Rattle.std.specs.Prelude.{◌≡◌, suc};

use std::marker::Model;
use std::snapshot::Snapshot;

/// A clock. It represents a time, which is a number from 0 on.
#[derive(Drop)]
pub struct Clock {
    time: Time,
}

/// How a time follows from other times; only contracts know it.
#[derive(Drop)]
enum Time {
    Start,
    Same(Snapshot<Time>),
    Later(Snapshot<Time>, Snapshot<Time>),
    Next(Snapshot<Time>, Snapshot<Time>),
}

impl Model for Clock {
    ghost use Rattle.std.specs.Prelude.{ℕ};

    ghost Value = { ℕ };

    ghost use Rattle.clocks.specs.Times.{number};

    ghost view = { λ c. number c.time };
}

impl Clock {
    /// A clock at time 0.
    pub fn start() -> Clock
        ensures { result ≡ 0 }
    {
        Clock { time: Time::Start }
    }

    /// A clock at the same time.
    pub fn copy(&self) -> Clock
        ensures { result ≡ self.now }
    {
        Clock {
            time: Time::Same(Snapshot::of(&self.time)),
        }
    }

    /// Sets the clock to the later of its time and another's.
    pub fn raise(&mut self, other: &Clock)
        ensures { self.new ≡ latest self.old other.now }
    {
        self.time = Time::Later(Snapshot::of(&self.time), Snapshot::of(&other.time));
    }

    /// Sets the clock to one more than the later of another's time and its own.
    pub(crate) fn pass(&mut self, other: &Clock)
        ensures { self.new ≡ suc (latest other.now self.old) }
    {
        self.time = Time::Next(Snapshot::of(&other.time), Snapshot::of(&self.time));
    }
}
