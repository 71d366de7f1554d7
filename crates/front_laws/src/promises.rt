//! What holds without a premise on drivers, and for each prefix of a journal.

ghost use Rattle.front_laws.specs.Guarded.{guarded_at};
ghost use Rattle.guard_defs.specs.Guard.{HasRoom, IsGuardedRun, traps_of, with_after};
ghost use Rattle.headline_laws.specs.Headline.{IsTransparent};
ghost use Rattle.nook_data.specs.Valid.{IsValidPart};
ghost use Rattle.nook_data.specs.declared.scenario.PartSpec.{PartSpec};
ghost use Rattle.nook_data.specs.declared.steps.Event.{Event};
ghost use Rattle.part_defs.specs.Runs.{IsRun, state_of};
ghost use Rattle.part_laws.specs.Facts.{is_dead};
ghost use Rattle.promise_defs.specs.Contract.{first_break};
ghost use Rattle.std.specs.Prelude.{List, None, ◌++◌, ◌≡◌, false};

/// For its applications a guarded part that was not given up is a device that never fails, whatever its driver
/// executes. No premise on drivers remains.
pub fn every_guarded_part_is_given_up_or_transparent()
    ensures { (spec : PartSpec) (journal : List Event) → IsValidPart spec → HasRoom spec
        → IsGuardedRun spec journal → is_dead (guarded_at spec journal).mode ≡ false
        → IsTransparent (with_after (traps_of spec journal) spec) journal }
{}

/// What is promised of a journal is promised of each of its prefixes: as long as the driver kept its class contract and
/// the part was not given up, the applications saw a device that never fails, whatever happened later.
pub fn each_front_of_a_journal_is_transparent()
    ensures { (spec : PartSpec) (front back : List Event) → IsValidPart spec
        → IsRun spec (front ++ back)
        → first_break spec.class spec.blocks front ≡ None
        → is_dead (state_of spec front).mode ≡ false
        → IsTransparent spec front }
{}
