//! The present of a simulation is enough.

ghost use Rattle.explore_defs.specs.Explored.{numbers_of};
ghost use Rattle.explore_defs.specs.Orders.{IsOfLevel, Path, follows};
ghost use Rattle.explore_defs.specs.Outcomes.{outcome_of};
ghost use Rattle.explore_laws.specs.Present.{goes_on_by, numbers_in, outcome_in, present};
ghost use Rattle.nook_data.specs.declared.scenario.Scenario.{Scenario};
ghost use Rattle.run_defs.specs.Simulation.{Choice, Simulation, choices_of};
ghost use Rattle.std.specs.Prelude.{ℕ, ◌≡◌};

/// Choices, the present of what follows, and the outcome depend on the present alone.
pub fn the_present_is_enough()
    ensures choices { (s t : Simulation) → present s ≡ present t → choices_of s ≡ choices_of t }
    ensures follows { (s : Simulation) (c : Choice)
        → present (follows s c) ≡ goes_on_by (present s) c }
    ensures outcome { (s : Simulation) → outcome_of s ≡ outcome_in (present s) }
{}

/// The numbers of a run's row depend on its present and its number of steps alone.
pub fn the_present_determines_the_row()
    ensures { (scenario : Scenario) (steps : ℕ) (path : Path) → IsOfLevel scenario steps path
        → numbers_of scenario path ≡ numbers_in steps (present path.end) }
{}
