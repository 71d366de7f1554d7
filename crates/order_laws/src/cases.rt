//! Worked cases of one clock over several parts.

ghost use Rattle.nook_data.specs.declared.calls.Answer.{Answer};
ghost use Rattle.nook_data.specs.declared.calls.Op.{Op};
ghost use Rattle.desk_like.specs.Stamps.{stamp_at};
ghost use Rattle.order_defs.specs.OneClock.{AreOneRun};
ghost use Rattle.order_laws.specs.Cases.{crossed_journals, crossed_threads, ring_journals, ring_threads};
ghost use Rattle.order_laws.specs.Cases.{to_and_fro, woven_journals};
ghost use Rattle.std.specs.Prelude.{◌<◌, List, ℕ};

/// Two threads visit two parts in opposite orders, and on each part the thread that visits it second was there first:
/// no clock has these journals, though each of them is a journal of its part.
pub fn crossed_scripts_have_no_clock()
    ensures { (o : Op) (a : Answer) (name : List ℕ)
        → AreOneRun (crossed_threads o name) (crossed_journals o a) → ⊥ }
{}

/// Nor does a ring of three parts have a clock if on each the thread that comes from the previous part was first.
pub fn a_ring_has_no_clock()
    ensures { (o : Op) (a : Answer) (name : List ℕ)
        → AreOneRun (ring_threads o name) (ring_journals o a) → ⊥ }
{}

/// If one thread goes to and fro between two parts, their journals have a clock, and every such clock interleaves them:
/// first on part 0, then on part 1, on part 0 again and on part 1 again.
pub fn a_thread_that_goes_to_and_fro_has_a_clock()
    ensures clock { (o : Op) (a : Answer) (name : List ℕ)
        → AreOneRun (to_and_fro o name) (woven_journals o a) }
    ensures woven { (o : Op) (a : Answer) (name : List ℕ)
        (h : AreOneRun (to_and_fro o name) (woven_journals o a))
        → (stamp_at h.stamps 0 1 < stamp_at h.stamps 1 1)
        × (stamp_at h.stamps 1 1 < stamp_at h.stamps 0 2)
        × (stamp_at h.stamps 0 2 < stamp_at h.stamps 1 2) }
{}
