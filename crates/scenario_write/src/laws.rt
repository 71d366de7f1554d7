//! Laws of written scenarios: theorems over the definitions alone. Each is the contract of a public function with an
//! empty body.

ghost use Rattle.std.specs.Prelude.{◌≡◌, Ok};
ghost use Rattle.input_defs.specs.ScenarioReading.{scenario_from};
ghost use Rattle.nook_data.specs.Valid.{IsValidScenario};
ghost use Rattle.nook_data.specs.declared.scenario.Scenario.{Scenario};
ghost use Rattle.scenario_write.specs.ScenarioText.{scenario_json, scenario_line};

/// The text that is written for a valid scenario is read as that scenario, with a line feed at the end or without.
pub fn scenarios_come_back()
    ensures text { (scenario : Scenario) → IsValidScenario scenario
        → scenario_from (scenario_json scenario) ≡ Ok scenario }
    ensures line { (scenario : Scenario) → IsValidScenario scenario
        → scenario_from (scenario_line scenario) ≡ Ok scenario }
{}
