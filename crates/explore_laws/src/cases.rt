//! Worked cases of the rows, their order and the last line.

ghost use Rattle.explore_defs.specs.Explored.{explored_line, explored_status, outcome_line};
ghost use Rattle.explore_defs.specs.Orders.{comes_before};
ghost use Rattle.explore_laws.specs.Cases.{row_with};
ghost use Rattle.std.specs.Prelude.{codes, false, true, ◌++◌, ◌∷◌, ◌≡◌, []};

/// Shorter picks come first; picks of the same length are ordered by the first actor in which they differ. No picks
/// come before themselves.
pub fn picks_are_ordered_as_words()
    ensures none { comes_before [] (0 ∷ []) ≡ true }
    ensures shorter { comes_before (9 ∷ []) (0 ∷ 0 ∷ []) ≡ true }
    ensures longer { comes_before (0 ∷ 0 ∷ []) (9 ∷ []) ≡ false }
    ensures first { comes_before (2 ∷ 0 ∷ 7 ∷ []) (2 ∷ 1 ∷ 0 ∷ []) ≡ true }
    ensures later { comes_before (2 ∷ 1 ∷ 0 ∷ []) (2 ∷ 0 ∷ 7 ∷ []) ≡ false }
    ensures same { comes_before (2 ∷ 1 ∷ []) (2 ∷ 1 ∷ []) ≡ false }
{}

/// A row and the last lines, complete and limited.
pub fn rows_are_written_so()
    ensures row { outcome_line 3 (row_with 1) (2 ∷ 0 ∷ 12 ∷ [])
        ≡ codes "3 status 1 events 30 failures 2 gone 1 lost 4 picks [2,0,12]" ++ 10 ∷ [] }
    ensures whole { explored_line false 2111 (row_with 0 ∷ row_with 7 ∷ row_with 0 ∷ [])
        ≡ codes "explored 2111 states 3 outcomes kept 2 given_up 0 broken 1" ++ 10 ∷ [] }
    ensures front { explored_line true 65536 (row_with 1 ∷ [])
        ≡ codes "explored front 65536 states 1 outcomes kept 0 given_up 1 broken 0" ++ 10 ∷ [] }
{}

/// A broken contract takes precedence over the limit, and the limit over a part that was given up.
pub fn the_status_is_that_of_the_worst()
    ensures broken { explored_status true (row_with 1 ∷ row_with 7 ∷ []) ≡ 7 }
    ensures cut { explored_status true (row_with 1 ∷ row_with 0 ∷ []) ≡ 9 }
    ensures given_up { explored_status false (row_with 0 ∷ row_with 1 ∷ []) ≡ 1 }
    ensures kept { explored_status false (row_with 0 ∷ []) ≡ 0 }
    ensures none { explored_status true [] ≡ 9 }
{}
