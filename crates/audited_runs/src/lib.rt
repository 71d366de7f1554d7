//! Which runs an auditor passes: theorems over the definitions alone.
//!
//! Each law is the contract of a public function with an empty body: what it promises holds of all arguments, however
//! they were made.
#![tactic(auto)]

ghost use Rattle.std.specs.Prelude.{◌≡◌, List, map, ℕ};
ghost use Rattle.run_laws.specs.Audit.{answers_in_order, own_listeners};
ghost use Rattle.run_laws.specs.Fitting.{AllFit, fitting_text, sections_of};
ghost use Rattle.order_defs.specs.OneClock.{AreOneRun};
ghost use Rattle.report_defs.specs.ReportText.{report_text, status_of};
ghost use Rattle.run_defs.specs.Simulation.{IsScheduledRun, Simulation, answer_table, begins, journals_of};
ghost use Rattle.nook_io.specs.Listening.{tap_result};
ghost use Rattle.nook_data.specs.Valid.{IsValidScenario};
ghost use Rattle.nook_data.specs.declared.calls.Answer.{Answer};
ghost use Rattle.nook_data.specs.declared.steps.Event.{Event};
ghost use Rattle.nook_data.specs.declared.scenario.Scenario.{Scenario};
ghost use Rattle.sim_run.specs.Published.{published};
ghost use Rattle.run_results.specs.Journals.{AreRuns};
ghost use Rattle.threaded_run.specs.Threaded.{IsThreaded, in_parts};

/// The journals of a valid scenario's scheduled run fit the scenario, and their report is the report of the run, with
/// the totals of the program's own listeners.
pub fn every_scheduled_run_fits()
    ensures fits { (scenario : Scenario) (s : Simulation) → IsValidScenario scenario
        → IsScheduledRun scenario s
        → AllFit scenario.threads 0 scenario.parts (journals_of s) }
    ensures text { (scenario : Scenario) (s : Simulation) → IsValidScenario scenario
        → (run : IsScheduledRun scenario s)
        → fitting_text scenario (journals_of s)
        ≡ report_text scenario (journals_of s) (answer_table s)
        (map (λ l. tap_result l (published run.steps (begins scenario))) own_listeners)
        (status_of scenario.parts (journals_of s)) }
{}

/// Journals that fit a valid scenario, and are one run, are what a run by threads leaves, with the answers that they
/// give each script in its order. In an invalid scenario an operation may be on a part that does not exist: it has no
/// answer. The journals of a scheduled run are one run, so what is promised of a run by threads holds of every
/// scheduled run too.
pub fn every_fitting_run_is_threaded()
    ensures { (scenario : Scenario) (journals : List (List Event)) → IsValidScenario scenario
        → AllFit scenario.threads 0 scenario.parts journals → AreOneRun scenario.threads journals
        → IsThreaded scenario journals
        (answers_in_order 0 scenario.threads
        (sections_of scenario.threads 0 scenario.parts journals)) }
{}

/// What a run by threads leaves of a valid scenario fits it, and the report of the run is that of its journals, with
/// the totals of the program's own listeners.
pub fn every_threaded_run_fits()
    ensures fits { (scenario : Scenario) (journals : List (List Event))
        (answers : List (List (ℕ × Answer)))
        → IsValidScenario scenario → AreRuns scenario.parts journals
        → IsThreaded scenario journals answers
        → AllFit scenario.threads 0 scenario.parts journals }
    ensures text { (scenario : Scenario) (journals : List (List Event))
        (answers : List (List (ℕ × Answer)))
        → IsValidScenario scenario → AreRuns scenario.parts journals
        → IsThreaded scenario journals answers
        → fitting_text scenario journals ≡ report_text scenario journals answers
        (map (λ l. tap_result l (in_parts 0 journals)) own_listeners)
        (status_of scenario.parts journals) }
{}
