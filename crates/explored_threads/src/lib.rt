//! A run by threads among all orders of steps: theorems over the definitions alone.
#![tactic(auto)]

ghost use Rattle.explore_defs.specs.Explored.{AreOutcomes, HasOutcome, all_numbers, rows_of_status};
ghost use Rattle.explore_defs.specs.Orders.{Path};
ghost use Rattle.explore_defs.specs.Outcomes.{outcome_by};
ghost use Rattle.nook_data.specs.Valid.{IsValidScenario};
ghost use Rattle.nook_data.specs.declared.calls.Answer.{Answer};
ghost use Rattle.nook_data.specs.declared.scenario.Scenario.{Scenario};
ghost use Rattle.nook_data.specs.declared.steps.Event.{Event};
ghost use Rattle.report_defs.specs.ReportText.{has_break};
ghost use Rattle.run_results.specs.Journals.{AreRuns};
ghost use Rattle.std.specs.Prelude.{false, ◌≡◌, List, None, ℕ};
ghost use Rattle.threaded_run.specs.Threaded.{IsThreaded};

/// The outcome of a run by threads is a row: threads have no outcome that no order of steps has.
pub fn the_outcome_of_a_run_by_threads_is_a_row()
    ensures { (scenario : Scenario) (firsts : List Path) (journals : List (List Event))
        (answers : List (List (ℕ × Answer))) → AreOutcomes scenario None firsts
        → IsValidScenario scenario
        → AreRuns scenario.parts journals → IsThreaded scenario journals answers
        → HasOutcome firsts (outcome_by scenario.parts journals answers) }
{}

/// If no row is broken, no run by threads breaks a contract.
pub fn where_no_row_is_broken_threads_break_no_contract()
    ensures { (scenario : Scenario) (firsts : List Path) (journals : List (List Event))
        (answers : List (List (ℕ × Answer))) → AreOutcomes scenario None firsts
        → rows_of_status 7 (all_numbers scenario firsts) ≡ 0 → IsValidScenario scenario
        → AreRuns scenario.parts journals → IsThreaded scenario journals answers
        → has_break scenario.parts journals ≡ false }
{}
