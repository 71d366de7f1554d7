//! What the rows say about all schedules.

ghost use Rattle.explore_defs.specs.Explored.{AreOutcomes, HasOutcome, IsExplored, all_numbers, numbers_of, rows_of_status};
ghost use Rattle.explore_defs.specs.Orders.{IsOfLevel, Path, with_schedule};
ghost use Rattle.explore_defs.specs.Outcomes.{left_by, outcome_by, outcome_of};
ghost use Rattle.explore_laws.specs.Closing.{closing_lines};
ghost use Rattle.guard_defs.specs.FirstBreaks.{NoneBreaks};
ghost use Rattle.nook_data.specs.Valid.{IsValidScenario};
ghost use Rattle.nook_data.specs.declared.scenario.PartSpec.{PartSpec};
ghost use Rattle.nook_data.specs.declared.scenario.Scenario.{Scenario};
ghost use Rattle.nook_data.specs.declared.scenario.ScheduleSpec.{ScheduleSpec};
ghost use Rattle.nook_data.specs.declared.scenario.ScheduleSpec.TheVariants as schedule;
ghost use Rattle.nook_data.specs.declared.steps.Event.{Event};
ghost use Rattle.part_defs.specs.State.{PartState};
ghost use Rattle.report_defs.specs.Campaigns.{row_of};
ghost use Rattle.run_defs.specs.Simulation.{IsScheduledRun, Simulation, answer_table, journals_of};
ghost use Rattle.std.specs.Prelude.{ℕ, ◌≡◌, ◌<◌, Contains, length, List, None, Option};

/// The rows are complete: under any schedule the scenario's scheduled run has an outcome that is in a row.
pub fn under_any_schedule_the_outcome_is_a_row()
    ensures { (scenario : Scenario) (firsts : List Path) (spec : ScheduleSpec) (s : Simulation)
        → AreOutcomes scenario None firsts → IsScheduledRun (with_schedule scenario spec) s
        → HasOutcome firsts (outcome_of s) }
{}

/// The rows are sound: the scenario with the schedule that lists a row's picks has the row's outcome and numbers.
pub fn each_row_is_the_scheduled_run_of_its_picks()
    ensures { (scenario : Scenario) (cut : Option (List ℕ)) (firsts : List Path) (path : Path)
        → AreOutcomes scenario cut firsts → Contains firsts path
        → (s : Simulation) × (IsScheduledRun (with_schedule scenario (schedule.Listed path.picks)) s
        × (outcome_of s ≡ outcome_of path.end)
        × (row_of scenario.parts (journals_of s) (answer_table s) ≡ numbers_of scenario path)) }
{}

/// The outcome of a run is that of its journals and answers, as they are in a report.
pub fn the_outcome_is_that_of_the_journals()
    ensures orders { (scenario : Scenario) (steps : ℕ) (path : Path) → IsOfLevel scenario steps path
        → outcome_of path.end
        ≡ outcome_by scenario.parts (journals_of path.end) (answer_table path.end) }
    ensures schedules { (scenario : Scenario) (spec : ScheduleSpec) (s : Simulation)
        → IsScheduledRun (with_schedule scenario spec) s
        → outcome_of s ≡ outcome_by scenario.parts (journals_of s) (answer_table s) }
{}

/// Parts with the same outcome have the same lines after their events, except the number of the event that broke a
pub fn parts_of_one_outcome_close_with_the_same_lines()
    ensures { (spec : PartSpec) (events others : List Event) (p q : PartState)
        → left_by spec events p ≡ left_by spec others q
        → closing_lines spec events p ≡ closing_lines spec others q }
{}

/// If no row is broken, no order of steps breaks a contract: under any schedule every part keeps its contract to the
/// end. So what is promised of kept journals holds under every schedule, without premises on the drivers.
pub fn where_no_row_is_broken_no_schedule_breaks_a_contract()
    ensures rows { (scenario : Scenario) (firsts : List Path) (spec : ScheduleSpec) (s : Simulation)
        → AreOutcomes scenario None firsts → rows_of_status 7 (all_numbers scenario firsts) ≡ 0
        → IsScheduledRun (with_schedule scenario spec) s → NoneBreaks s }
    ensures status { (scenario : Scenario) (text : List ℕ) (status : ℕ) (spec : ScheduleSpec)
        (s : Simulation)
        → IsExplored scenario text status → status < 7
        → IsScheduledRun (with_schedule scenario spec) s
        → NoneBreaks s }
{}

/// There is exactly one list of rows: which outcomes there are, and with which picks, depends only on the scenario and
/// the limit. A valid scenario without a limit has at least one row.
pub fn a_scenario_has_one_list_of_rows()
    ensures one { (scenario : Scenario) (cut : Option (List ℕ)) (firsts others : List Path)
        → AreOutcomes scenario cut firsts → AreOutcomes scenario cut others → firsts ≡ others }
    ensures some { (scenario : Scenario) (firsts : List Path) → IsValidScenario scenario
        → AreOutcomes scenario None firsts → 0 < length firsts }
{}
