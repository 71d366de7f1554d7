//! Laws of reports and of their audits.

ghost use Rattle.std.specs.Prelude.{◌≡◌, List, ℕ, None};
ghost use Rattle.nook_data.specs.declared.steps.Event.{Event};
ghost use Rattle.nook_data.specs.Valid.{IsValidScenario};
ghost use Rattle.nook_data.specs.declared.scenario.Scenario.{Scenario};
ghost use Rattle.run_laws.specs.Audit.{audited};
ghost use Rattle.run_laws.specs.Fitting.{AllFit, fitting_text};

/// A report whose lines all fit is the report of journals that fit the scenario.
pub fn what_fits_is_a_report()
    ensures { (scenario : Scenario) (report : List ℕ) → audited scenario report ≡ None
        → (journals : List (List Event)) × AllFit scenario.threads 0 scenario.parts journals
        × (report ≡ fitting_text scenario journals) }
{}

/// In the report of journals that fit a valid scenario, every line fits. A name with a line feed in it, which no valid
/// scenario has, would split a part's first line in two.
pub fn every_report_fits()
    ensures { (scenario : Scenario) (journals : List (List Event)) → IsValidScenario scenario
        → AllFit scenario.threads 0 scenario.parts journals
        → audited scenario (fitting_text scenario journals) ≡ None }
{}
