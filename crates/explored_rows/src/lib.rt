//! Worked cases of orders, computed in the logic: a disk on which one thread sets a register that another gets. The
//! outcomes and picks are those of the documentation and of an independent program.
#![tactic(auto, unfolding(crate::proofs::OrdersOnLiterals::orders_on_literals))]

ghost use Rattle.explored_rows.specs.TwoThreads.{actors_after, both_done, outcome_after};
ghost use Rattle.std.specs.Prelude.{◌≡◌, ◌∷◌, [], None, Some};

/// The set is invoked and entered first: the get answers the value that was set. No actor has a step left.
pub fn the_set_comes_first()
    ensures outcome { outcome_after (0 ∷ 1 ∷ 2 ∷ 2 ∷ 2 ∷ 2 ∷ 2 ∷ 0 ∷ 0 ∷ 1 ∷ 1 ∷ []) ≡ Some (both_done 5) }
    ensures ended { actors_after (0 ∷ 1 ∷ 2 ∷ 2 ∷ 2 ∷ 2 ∷ 2 ∷ 0 ∷ 0 ∷ 1 ∷ 1 ∷ []) ≡ Some [] }
{}

/// The get comes first, and answers the default: another outcome, though the disk ends in the same state.
pub fn the_get_comes_first()
    ensures outcome { outcome_after (1 ∷ 0 ∷ 2 ∷ 2 ∷ 2 ∷ 2 ∷ 2 ∷ 1 ∷ 1 ∷ 0 ∷ 0 ∷ []) ≡ Some (both_done 0) }
    ensures ended { actors_after (1 ∷ 0 ∷ 2 ∷ 2 ∷ 2 ∷ 2 ∷ 2 ∷ 1 ∷ 1 ∷ 0 ∷ 0 ∷ []) ≡ Some [] }
{}

/// At first either thread may invoke, and the part may boot; a thread whose call is open waits for the boot, and an
/// actor that has no step leads nowhere.
pub fn an_actor_without_a_step_leads_nowhere()
    ensures first { actors_after [] ≡ Some (0 ∷ 1 ∷ 2 ∷ []) }
    ensures waits { actors_after (0 ∷ []) ≡ Some (1 ∷ 2 ∷ []) }
    ensures nowhere { actors_after (0 ∷ 0 ∷ []) ≡ None }
{}
