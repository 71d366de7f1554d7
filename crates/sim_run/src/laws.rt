//! Laws of the scheduled run of a scenario.

ghost use Rattle.std.specs.Prelude.{◌≡◌, ℕ, List, Some, slice_get};
ghost use Rattle.nook_io.specs.Listening.{Listening};
ghost use Rattle.run_defs.specs.Simulation.{IsScheduledRun, Simulation, begins, journals_of, runs};
ghost use Rattle.nook_io.specs.Listening.{heard_events};
ghost use Rattle.nook_data.specs.Valid.{IsValidScenario};
ghost use Rattle.nook_data.specs.declared.steps.Event.{Event};
ghost use Rattle.nook_data.specs.declared.scenario.Scenario.{Scenario};
ghost use Rattle.sim_run.specs.Published.{events_of_part, heard_in_journals, published};
ghost use Rattle.run_results.specs.Journals.{AreRuns};

/// Every valid scenario has a scheduled run: at its end no actor has a step.
pub fn every_scenario_has_a_scheduled_run()
    ensures { (scenario : Scenario) → IsValidScenario scenario
        → (s : Simulation) × IsScheduledRun scenario s }
{}

/// A scenario has at most one scheduled run.
pub fn every_scenario_has_one_scheduled_run()
    ensures { (scenario : Scenario) (s t : Simulation) → IsScheduledRun scenario s
        → IsScheduledRun scenario t → s ≡ t }
{}

/// The journals of a scheduled run, one for each part, are runs of their parts.
pub fn every_journal_is_a_run()
    ensures { (scenario : Scenario) (s : Simulation) → IsScheduledRun scenario s
        → AreRuns scenario.parts (journals_of s) }
{}

/// The published events of a run are exactly its journals' events: those of each part are its journal, in order; and a
/// listener hears as many of them as it would hear of the journals one after another.
pub fn every_event_is_published()
    ensures parts { (scenario : Scenario) (steps part : ℕ) (journal : List Event)
        → slice_get (journals_of (runs steps (begins scenario))) part ≡ Some journal
        → events_of_part part (published steps (begins scenario)) ≡ journal }
    ensures totals { (l : Listening) (scenario : Scenario) (steps : ℕ)
        → heard_events l (published steps (begins scenario))
        ≡ heard_in_journals l 0 (journals_of (runs steps (begins scenario))) }
{}
