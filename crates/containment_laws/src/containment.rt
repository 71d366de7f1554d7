//! A part is contained: which journals the others can have does not depend on it.

ghost use Rattle.containment_laws.specs.Containment.{DifferIn, HasRunLike, LookAlike};
ghost use Rattle.explore_defs.specs.Orders.{IsWholePath, Path, led};
ghost use Rattle.nook_data.specs.Valid.{IsValidScenario};
ghost use Rattle.nook_data.specs.declared.scenario.Scenario.{Scenario};
ghost use Rattle.run_defs.specs.Simulation.{begins};
ghost use Rattle.std.specs.Prelude.{ℕ, Some, ◌≡◌};

/// If two scenarios differ in one part alone, then for each run of the first, in whatever order its steps fall, the
/// second has a run in which every other part has the same journal, and each thread the same answers from the other
/// parts. So a driver's image, its faults and its limit have no influence on what all the other parts together can do,
/// not even if threads call both. If the first run continues until no actor has a step, so does the second.
pub fn one_part_does_not_change_the_others()
    ensures orders { (s u : Scenario) (part : ℕ) (path : Path)
        → IsValidScenario s → IsValidScenario u → DifferIn part s u
        → led (begins s) path.picks ≡ Some path.end → HasRunLike part u path.end }
    ensures whole { (s u : Scenario) (part : ℕ) (path : Path)
        → IsValidScenario s → IsValidScenario u → DifferIn part s u
        → IsWholePath s path
        → (other : Path) × IsWholePath u other × LookAlike part path.end other.end }
{}
