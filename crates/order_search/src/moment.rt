//! What is searched: a simulation whose steps can be followed one by one.

ghost use Rattle.explore_laws.specs.Held.{choices_in};
ghost use Rattle.explore_laws.specs.Present.{Present, numbers_in, outcome_in};
ghost use Rattle.order_search.specs.Moments.{IsAfter, actors_in};
ghost use Rattle.std.specs.Prelude.{◌≡◌, ◌<◌, true, length, IfOk};

use explore_defs::Outcome;
use nook_data::campaign::MemberRow;
use nook_data::lists::Words;
use nook_data::memory::NoMemory;
use std::alloc::Global;

/// A simulation in progress. Contracts see its present, which determines how it continues.
pub trait Moment: Drop {
    ghost now: { Self → Present };

    /// The actors that have a step, in order.
    fn choices(&self, alloc: Global) -> Result<Words, NoMemory>
        ensures { IfOk result (λ actors. actors ≡ actors_in (now self.now)) };

    /// A new simulation, one step further: the step is that of the actor with this index.
    fn after(&self, alloc: Global, index: usize) -> Result<Self, NoMemory>
        requires { index < length (choices_in (now self.now)) }
        ensures { IfOk result (λ made. IsAfter (now self.now) index (now made)) };

    /// Whether the other one has the same present. It may return false for an equal one: then both are followed.
    fn is_same(&self, other: &Self) -> bool
        ensures { result ≡ true → now self.now ≡ now other.now };

    /// A number that is the same for equal simulations. Only those with the same number are compared; no result
    /// depends on it.
    fn digest(&self) -> u64;

    /// The outcome of a run that ends here.
    fn outcome(&self, alloc: Global) -> Result<Outcome, NoMemory>
        ensures { IfOk result (λ made. made ≡ outcome_in (now self.now)) };

    /// The numbers of the row of a run with this many steps. A sum that exceeds 64 bits is refused like lack of memory.
    fn numbers(&self, steps: u64) -> Result<MemberRow, NoMemory>
        ensures { IfOk result (λ row. row ≡ numbers_in steps (now self.now)) };
}
