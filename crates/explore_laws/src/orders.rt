//! The runs in some order are the scheduled runs.

ghost use Rattle.explore_defs.specs.Orders.{IsOfLevel, IsWholePath, Path, with_schedule};
ghost use Rattle.nook_data.specs.Valid.{IsValidScenario};
ghost use Rattle.nook_data.specs.declared.scenario.Scenario.{Scenario};
ghost use Rattle.nook_data.specs.declared.scenario.ScheduleSpec.{ScheduleSpec};
ghost use Rattle.nook_data.specs.declared.scenario.ScheduleSpec.TheVariants as schedule;
ghost use Rattle.run_defs.specs.Simulation.{IsScheduledRun, Simulation};
ghost use Rattle.std.specs.Prelude.{ℕ, ◌≡◌, ◌<◌, ◌^◌};

/// Under any schedule, a scenario's steps have some order: the scheduled run is the run in that order.
pub fn every_scheduled_run_is_by_some_order()
    ensures { (scenario : Scenario) (spec : ScheduleSpec) (s : Simulation)
        → IsScheduledRun (with_schedule scenario spec) s
        → (path : Path) × (IsWholePath scenario path × (path.end.parts ≡ s.parts) ×
        (path.end.threads ≡ s.threads)) }
{}

/// A run in some order is the scheduled run of the scenario under the schedule that lists its picks.
pub fn every_order_is_a_listed_schedule()
    ensures { (scenario : Scenario) (path : Path) → IsWholePath scenario path
        → (s : Simulation) × (IsScheduledRun (with_schedule scenario (schedule.Listed path.picks)) s
        × (s.parts ≡ path.end.parts) × (s.threads ≡ path.end.threads)) }
{}

/// No order of the steps of a valid scenario is infinite.
pub fn every_order_ends()
    ensures { (scenario : Scenario) (steps : ℕ) (path : Path) → IsValidScenario scenario
        → IsOfLevel scenario steps path → steps < 2 ^ 26 }
{}
