//! The search.

ghost use Rattle.explore_laws.specs.Held.{held_first};
ghost use Rattle.explore_laws.specs.Present.{present};
ghost use Rattle.nook_data.specs.declared.scenario.Scenario.{Scenario};
ghost use Rattle.order_search.specs.Found.{IsFound};
ghost use Rattle.run_defs.specs.Simulation.{begins};
ghost use Rattle.std.specs.Prelude.{◌≡◌, IfOk};

use crate::levels::{begin, go_over};
use crate::moment::Moment;
use crate::rows::{Explored, rows_from};
use nook_data::memory::NoMemory;
use std::alloc::Global;

/// Follows every order of the steps from the first state on, level by level, and stores equal states as one, until
/// no state can be continued or too many states would have to be stored.
///
/// Only the states of two levels are in memory, and the row and outcome of the first end of each outcome.
pub fn search<M: Moment>(alloc: Global, first: M) -> Result<Explored, NoMemory>
    ensures { (scenario : Scenario) → M.now first ≡ present (begins scenario)
        → IfOk result (IsFound (held_first scenario)) }
{
    let mut work = begin(alloc, first)?;
    'levels: while !work.level.is_empty() {
        work = go_over(alloc, work)?;
    }
    Ok(Explored {
        rows: rows_from(alloc, work.firsts)?,
        states: work.states,
        is_cut: work.is_cut,
    })
}
