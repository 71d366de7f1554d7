//! What a search finds answers the scenario.

ghost use Rattle.explore_defs.specs.Explored.{IsExplored};
ghost use Rattle.explore_laws.specs.Held.{held_first};
ghost use Rattle.nook_data.specs.declared.scenario.Scenario.{Scenario};
ghost use Rattle.order_search.specs.Found.{HasRows, IsFound, found_status, found_text};
ghost use Rattle.order_search.specs.declared.rows.Explored.{Explored};

/// What is found from the first state of a scenario on is the scenario's rows; their text and status are the answer to
/// it.
pub fn what_is_found_answers_the_scenario()
    ensures rows { (scenario : Scenario) (found : Explored) → IsFound (held_first scenario) found
        → HasRows scenario found }
    ensures answer { (scenario : Scenario) (found : Explored) → IsFound (held_first scenario) found
        → IsExplored scenario (found_text found) (found_status found) }
{}
