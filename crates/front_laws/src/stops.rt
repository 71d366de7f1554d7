//! The traps of a guard, found one by one.

ghost use Rattle.front_laws.specs.FirstTrap.{IsFirstTrap};
ghost use Rattle.front_laws.specs.Stops.{IsGuardedBy, most_traps};
ghost use Rattle.guard_defs.specs.FirstBreaks.{AreNeeded, IsFirstStop, NoneBreaks, stopped};
ghost use Rattle.guard_defs.specs.Guard.{HasRoom};
ghost use Rattle.guard_defs.specs.GuardedRuns.{stops_found};
ghost use Rattle.guard_defs.specs.declared.stop.Stop.{Stop};
ghost use Rattle.nook_data.specs.Members.{struck};
ghost use Rattle.nook_data.specs.Valid.{IsValidScenario};
ghost use Rattle.nook_data.specs.declared.scenario.Scenario.{Scenario};
ghost use Rattle.run_defs.specs.Simulation.{IsScheduledRun, Simulation, begins};
ghost use Rattle.std.specs.Prelude.{ℕ, All, List, [], ◌∷◌, length, ◌≡◌, ◌≤◌, ◌<◌};

/// The trap before the first deed that breaks a clause in a scenario's scheduled run is the first trap of its guarded
/// run.
pub fn the_trap_at_the_first_break_is_the_first_trap()
    ensures { (scenario : Scenario) (stop : Stop) (first : IsFirstStop scenario stop)
        → IsFirstTrap scenario stop.part stop.trap first.steps }
{}

/// The traps of a guarded run can be found one by one: first the first trap, then those of the scenario whose part has
/// it from the start. A run that breaks nothing has no trap.
pub fn the_traps_are_found_one_after_another()
    ensures first { (scenario : Scenario) (stop : Stop) (first : IsFirstStop scenario stop)
        (steps : ℕ)
        → first.steps < steps → stops_found steps (begins scenario)
        ≡ stop ∷ stops_found steps (begins (struck scenario stop.part stop.trap)) }
    ensures none { (scenario : Scenario) (s : Simulation) (steps : ℕ) → IsScheduledRun scenario s
        → NoneBreaks s
        → stops_found steps (begins scenario) ≡ [] }
{}

/// A valid scenario whose parts have room for the traps that they may need is also valid with its first traps.
pub fn a_scenario_with_its_first_traps_is_valid()
    ensures { (scenario : Scenario) (stops : List Stop) → IsValidScenario scenario
        → All HasRoom scenario.parts
        → AreNeeded scenario stops → IsValidScenario (stopped scenario stops) }
{}

/// A guarded run has at most as many traps as the limits of its parts plus one for each part.
pub fn there_are_at_most_as_many_traps_as_failures()
    ensures found { (scenario : Scenario) (steps : ℕ) → IsValidScenario scenario
        → length (stops_found steps (begins scenario)) ≤ most_traps scenario.parts }
    ensures needed { (scenario : Scenario) (stops : List Stop) → IsValidScenario scenario
        → AreNeeded scenario stops
        → length stops ≤ most_traps scenario.parts }
{}

/// If traps are found one by one until the scenario with them breaks nothing, its scheduled run is the guarded run of
/// the scenario. They are the traps of that run, in the same order.
pub fn the_traps_found_one_after_another_make_the_guarded_run()
    ensures { (scenario : Scenario) (stops : List Stop) (s : Simulation) → AreNeeded scenario stops
        → IsScheduledRun (stopped scenario stops) s → NoneBreaks s → IsGuardedBy scenario stops s }
{}
