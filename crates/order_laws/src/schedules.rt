//! Journals that are one run are those of a scheduled run.

ghost use Rattle.nook_data.specs.Valid.{IsValidScenario};
ghost use Rattle.nook_data.specs.declared.calls.Answer.{Answer};
ghost use Rattle.nook_data.specs.declared.scenario.Scenario.{Scenario};
ghost use Rattle.nook_data.specs.declared.steps.Event.{Event};
ghost use Rattle.order_defs.specs.OneClock.{AreOneRun};
ghost use Rattle.order_laws.specs.Listed.{IsListedRun, with_picks};
ghost use Rattle.run_defs.specs.Simulation.{IsScheduledRun, Simulation, journals_of};
ghost use Rattle.run_results.specs.Journals.{AreRuns};
ghost use Rattle.run_laws.specs.Fitting.{AllFit};
ghost use Rattle.std.specs.Prelude.{◌≡◌, List, ℕ};
ghost use Rattle.threaded_run.specs.Threaded.{IsThreaded};

/// A run by threads is a scheduled run: there are picks with which the scenario, under the schedule that lists them, has
/// exactly these journals and answers. So what is promised of scheduled runs holds of it. There may be more picks than
/// a valid scenario lists.
pub fn a_run_by_threads_is_a_scheduled_run()
    ensures { (scenario : Scenario) (journals : List (List Event))
        (answers : List (List (ℕ × Answer)))
        → IsValidScenario scenario → AreRuns scenario.parts journals
        → IsThreaded scenario journals answers
        → IsListedRun scenario journals answers }
{}

/// Journals that fit a valid scenario, and have one clock, are those of a scheduled run.
pub fn fitting_journals_with_one_clock_are_a_scheduled_run()
    ensures { (scenario : Scenario) (journals : List (List Event)) → IsValidScenario scenario
        → AllFit scenario.threads 0 scenario.parts journals → AreOneRun scenario.threads journals
        → (picks : List ℕ) × ((s : Simulation)
        × IsScheduledRun (with_picks scenario picks) s × (journals_of s ≡ journals)) }
{}

/// The journals of a valid scenario's scheduled run have one clock: the stamp of an event is the number of its step.
pub fn a_scheduled_run_has_one_clock()
    ensures { (scenario : Scenario) (s : Simulation) → IsValidScenario scenario
        → IsScheduledRun scenario s
        → AreOneRun scenario.threads (journals_of s) }
{}
