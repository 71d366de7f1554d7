//! Shares of a whole, by which a seat that was split knows when it is alone again: theorems about the definitions.
//!
//! Each law is the contract of a public function with an empty body. It holds for all arguments, no matter who made
//! them.
#![tactic(auto)]

ghost use Rattle.shares.specs.Shares.{IsWhole, Share, half, owns, whole};
ghost use Rattle.std.specs.Prelude.{Bool, false, true, ◌++◌, ◌||◌, ◌≡◌, ℕ};

/// The two halves of a share together have exactly its points, and no point in common.
pub fn halves_part_a_share()
    ensures all { (share : Share) (point : ℕ → Bool)
        → owns share point ≡ (owns (half false share) point || owns (half true share) point) }
    ensures apart { (share : Share) (point : ℕ → Bool) → owns (half false share) point ≡ true
        → owns (half true share) point ≡ true → ⊥ }
{}

/// A joined share has the points of both shares.
pub fn joining_adds_points()
    ensures { (a b : Share) (point : ℕ → Bool)
        → owns (a ++ b) point ≡ (owns a point || owns b point) }
{}

/// The whole share has every point.
pub fn the_whole_is_whole()
    ensures { IsWhole whole }
{}
