//! Every order of the steps of a scenario.

ghost use Rattle.explore_defs.specs.Explored.{IsExplored};
ghost use Rattle.nook_data.specs.Valid.{IsValidScenario};
ghost use Rattle.order_search.specs.Found.{found_status, found_text};
ghost use Rattle.std.specs.Prelude.{IfOk};

use crate::packed_moment::PackedMoment;
use nook_data::memory::NoMemory;
use nook_data::scenario::Scenario;
use order_search::{Explored, search};
use part_core::LeftRooms;
use std::alloc::Global;
use std::cell::Cell;

/// Follows every order of the steps of a valid scenario, and returns a row for each outcome. Its schedule is not used.
///
/// # Errors
///
/// Out of memory: it stores the packed states of two levels, and the first end of each outcome.
pub fn explore(alloc: Global, scenario: &Scenario) -> Result<Explored, NoMemory>
    requires { IsValidScenario scenario.now }
    ensures { IfOk result
        (λ found. IsExplored scenario.now (found_text found) (found_status found)) }
{
    let left = Cell::new(LeftRooms::none(alloc));
    search(alloc, PackedMoment::first(alloc, scenario, &left)?)
}
