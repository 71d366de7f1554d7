//! The ends: the first of each outcome becomes a row.

ghost use Rattle.explore_laws.specs.Held.{choices_in};
ghost use Rattle.order_search.specs.Ends.{HasOutcome, TakesEnds};
ghost use Rattle.order_search.specs.Moments.{held_as};
ghost use Rattle.std.specs.Prelude.{◌≡◌, ◌∷◌, [], false, true, OnOk};

use crate::moment::Moment;
use crate::states::HeldState;
use explore_defs::Outcome;
use nook_data::campaign::MemberRow;
use nook_data::lists::{Items, Words};
use nook_data::memory::NoMemory;
use nook_data::same::Same;
use std::alloc::Global;

/// What is stored of the first end of an outcome: what its row shows, and the outcome. The simulation is dropped.
#[derive(Drop)]
pub struct FirstEnd {
    /// The actors of its steps.
    pub picks: Words,
    pub numbers: MemberRow,
    pub outcome: Outcome,
}

/// Whether one of these ends has the outcome.
fn has_outcome(firsts: &Items<FirstEnd>, outcome: &Outcome) -> bool
    ensures some { result ≡ true → HasOutcome firsts.now outcome.now }
    ensures none { result ≡ false → HasOutcome firsts.now outcome.now → ⊥ }
{
    for index in 0..firsts.len() {
        if firsts.get(index).outcome.is_same(outcome) {
            return true;
        }
    }
    false
}

/// Adds a state without continuations as the first end of its outcome, unless there is one already.
pub fn add_end<M: Moment>(
    alloc: Global,
    state: HeldState<M>,
    firsts: &mut Items<FirstEnd>,
) -> Result<(), NoMemory>
    requires { choices_in (M.now state.moment) ≡ [] }
    ensures { OnOk result (TakesEnds (held_as M.now state ∷ []) firsts.old firsts.new) }
{
    let outcome = state.moment.outcome(alloc)?;
    if has_outcome(firsts, &outcome) {
        return Ok(());
    }
    let numbers = state.moment.numbers(state.picks.len() as u64)?;
    firsts.push(FirstEnd {
        picks: state.picks,
        numbers,
        outcome,
    })
}
