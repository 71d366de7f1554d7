//! A scheduled run ends only when every operation has its answer.

ghost use Rattle.run_defs.specs.Simulation.{IsScheduledRun, Simulation, answer_table};
ghost use Rattle.nook_data.specs.Valid.{IsValidScenario};
ghost use Rattle.nook_data.specs.declared.scenario.Scenario.{Scenario};
ghost use Rattle.std.specs.Prelude.{length, map, ◌≡◌};

/// At the end of a scheduled run each thread has as many answers as operations, and the parts of its answers are, in
/// order, the parts of its operations.
pub fn every_operation_is_answered()
    ensures parts { (scenario : Scenario) (s : Simulation) → IsValidScenario scenario
        → IsScheduledRun scenario s
        → map (λ answers. map (λ a. a.0) answers) (answer_table s)
        ≡ map (λ t. map (λ o. o.0) t.ops) scenario.threads }
    ensures count { (scenario : Scenario) (s : Simulation) → IsValidScenario scenario
        → IsScheduledRun scenario s
        → map length (answer_table s) ≡ map (λ t. length t.ops) scenario.threads }
{}
