//! One run for each present is enough.

ghost use Rattle.explore_defs.specs.Explored.{AreOutcomes, IsExplored};
ghost use Rattle.explore_defs.specs.Orders.{Path};
ghost use Rattle.explore_laws.specs.Held.{AreFirstHeld, AreHeldLevels, AreRowsOf, Held, IsFilled, all_levels, held_first};
ghost use Rattle.explore_laws.specs.Held.{held_status, held_text};
ghost use Rattle.explore_laws.specs.Worklists.{AreFirstsOf, AreLevels, AreMerged, Cover, start};
ghost use Rattle.nook_data.specs.declared.scenario.Scenario.{Scenario};
ghost use Rattle.std.specs.Prelude.{is_some, ℕ, suc, ◌∷◌, [], length, List, Option, flat_map};

/// A worklist that has one run for each present, with the least picks, represents all runs of its length: at first,
/// and level by level.
pub fn a_worklist_covers_its_level()
    ensures first { (scenario : Scenario) (cut : Option (List ℕ))
        → Cover scenario cut 0 (start scenario ∷ []) }
    ensures next { (scenario : Scenario) (cut : Option (List ℕ)) (steps : ℕ) (held next : List Path)
        → Cover scenario cut steps held → AreMerged cut held next
        → Cover scenario cut (suc steps) next }
{}

/// Such worklists, level by level until no run can be continued, find the outcomes of all orders, each with its least
/// picks; with a limit, those of the orders that are not past it.
pub fn worklists_find_every_outcome()
    ensures { (scenario : Scenario) (cut : Option (List ℕ)) (levels : List (List Path))
        (firsts : List Path)
        → AreLevels cut (start scenario ∷ []) levels
        → AreFirstsOf cut (flat_map (λ level. level) ((start scenario ∷ []) ∷ levels)) firsts
        → AreOutcomes scenario cut firsts }
{}

/// The same holds of what a program stores: only the picks and the present of each run. Such worklists find the rows;
/// if no more states are stored than allowed, the rows are the answer to the scenario.
pub fn presents_alone_find_every_row()
    ensures rows { (scenario : Scenario) (cut : Option (List ℕ)) (levels : List (List Held))
        (firsts : List Held)
        → AreHeldLevels cut (held_first scenario ∷ []) levels
        → AreFirstHeld cut (all_levels ((held_first scenario ∷ []) ∷ levels)) firsts
        → AreRowsOf scenario cut firsts }
    ensures answer { (scenario : Scenario) (cut : Option (List ℕ)) (levels : List (List Held))
        (firsts : List Held)
        → AreHeldLevels cut (held_first scenario ∷ []) levels
        → AreFirstHeld cut (all_levels ((held_first scenario ∷ []) ∷ levels)) firsts
        → IsFilled cut (all_levels ((held_first scenario ∷ []) ∷ levels))
        → IsExplored scenario
        (held_text (is_some cut) (length (all_levels ((held_first scenario ∷ []) ∷ levels))) firsts)
        (held_status (is_some cut) firsts) }
{}
