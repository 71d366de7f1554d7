//! Laws of the guarded run of a scenario.

ghost use Rattle.std.specs.Prelude.{All};
ghost use Rattle.guard_defs.specs.Guard.{HasRoom};
ghost use Rattle.guard_defs.specs.GuardedRuns.{IsGuardedSchedule};
ghost use Rattle.nook_data.specs.Valid.{IsValidScenario};
ghost use Rattle.nook_data.specs.declared.scenario.Scenario.{Scenario};
ghost use Rattle.run_defs.specs.Simulation.{Simulation};

/// Every valid scenario whose parts have room for the traps that they may need has a guarded run: in the end no actor
/// has a step.
pub fn every_scenario_has_a_guarded_run()
    ensures { (scenario : Scenario) → IsValidScenario scenario → All HasRoom scenario.parts
        → (s : Simulation) × IsGuardedSchedule scenario s }
{}
