//! What an audit of several parts finds.

ghost use Rattle.nook_data.specs.Valid.{IsValidScenario};
ghost use Rattle.nook_data.specs.declared.scenario.Scenario.{Scenario};
ghost use Rattle.nook_data.specs.declared.steps.Event.{Event};
ghost use Rattle.order_defs.specs.OneClock.{AreOneRun};
ghost use Rattle.order_defs.specs.OutOfOrder.{Finds, IsOutOfOrder};
ghost use Rattle.run_laws.specs.Fitting.{AllFit, fitting_text};
ghost use Rattle.std.specs.Prelude.{◌≡◌, List, None, Option, ℕ};

/// An audit of journals that fit a valid scenario finds an event out of order exactly if they are not one run.
pub fn one_run_is_what_has_no_event_out_of_order()
    ensures one_run { (scenario : Scenario) (journals : List (List Event))
        → IsValidScenario scenario
        → AllFit scenario.threads 0 scenario.parts journals → IsOutOfOrder scenario journals None
        → AreOneRun scenario.threads journals }
    ensures in_order { (scenario : Scenario) (journals : List (List Event)) (line : Option ℕ)
        → AllFit scenario.threads 0 scenario.parts journals → AreOneRun scenario.threads journals
        → IsOutOfOrder scenario journals line → line ≡ None }
{}

/// Journals that fit a scenario have one line of the first event out of order, or none, whatever is taken first.
pub fn what_is_out_of_order_is_one_line()
    ensures exists { (scenario : Scenario) (journals : List (List Event))
        → AllFit scenario.threads 0 scenario.parts journals
        → (line : Option ℕ) × IsOutOfOrder scenario journals line }
    ensures once { (scenario : Scenario) (journals : List (List Event)) (line other : Option ℕ)
        → IsOutOfOrder scenario journals line → IsOutOfOrder scenario journals other
        → line ≡ other }
{}

/// An audit of a report passes exactly if the report is that of journals that fit the scenario and are one run.
pub fn an_audit_passes_reports_of_one_run()
    ensures passed { (scenario : Scenario) (report : List ℕ) → IsValidScenario scenario
        → Finds scenario report None
        → (journals : List (List Event)) × AllFit scenario.threads 0 scenario.parts journals
        × AreOneRun scenario.threads journals × (report ≡ fitting_text scenario journals) }
    ensures passes { (scenario : Scenario) (report : List ℕ) (journals : List (List Event))
        → IsValidScenario scenario
        → AllFit scenario.threads 0 scenario.parts journals → AreOneRun scenario.threads journals
        → report ≡ fitting_text scenario journals → Finds scenario report None }
{}

/// An audit finds one line, or none: at most one list of journals that fit has a given report.
pub fn every_audit_finds_one_line()
    ensures exists { (scenario : Scenario) (report : List ℕ)
        → (line : Option ℕ) × Finds scenario report line }
    ensures once { (scenario : Scenario) (report : List ℕ) (line other : Option ℕ)
        → IsValidScenario scenario
        → Finds scenario report line → Finds scenario report other → line ≡ other }
    ensures journals { (scenario : Scenario) (journals others : List (List Event))
        → IsValidScenario scenario
        → AllFit scenario.threads 0 scenario.parts journals
        → AllFit scenario.threads 0 scenario.parts others
        → fitting_text scenario journals ≡ fitting_text scenario others → journals ≡ others }
{}
