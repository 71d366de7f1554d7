//! Laws on the length of runs, and on how they continue.

ghost use Rattle.part_defs.specs.Runs.{IsRun, state_of};
ghost use Rattle.part_defs.specs.State.{PartState};
ghost use Rattle.part_defs.specs.Steps.{enabled, stepped};
ghost use Rattle.nook_data.specs.declared.steps.Event.{Event};
ghost use Rattle.nook_data.specs.declared.scenario.PartSpec.{PartSpec};
ghost use Rattle.nook_data.specs.declared.steps.Step.{Step};
ghost use Rattle.part_laws.specs.Bound.{IsMeasured, most_events};
ghost use Rattle.part_laws.specs.Fit.{IsFit, IsFitSpec};
ghost use Rattle.part_laws.specs.Progress.{HasProgress};
ghost use Rattle.part_laws.specs.Tied.{IsTied};
ghost use Rattle.std.specs.Prelude.{List, length, true, ◌+◌, ◌^◌, ◌<◌, ◌≡◌, ◌≤◌};

/// Each step that may be taken keeps open calls, contexts and mode consistent: numbers increase, a thread has at most
/// one open call, and a call that is Inside has its context, with fewer than 32 bursts. Attempts are at most one more
/// than failures, and failures at most one more than the limit.
pub fn each_step_is_tied()
    ensures { (p : PartState) (s : Step) → IsFit p → IsTied p → enabled p s ≡ true
        → IsTied (stepped p s).state }
{}

/// The same holds after every journal that is a run.
pub fn every_run_is_tied()
    ensures { (spec : PartSpec) (journal : List Event) → IsFitSpec spec → IsRun spec journal
        → IsTied (state_of spec journal) }
{}

/// A run has at most `calls * 34 + (failures + 1) * (5 + (6 + threads) * 33) + arrivals` events; `threads` is the
/// number of threads that invoked. So every recovery ends, and no driver keeps the processor forever.
pub fn every_run_is_bounded()
    ensures { (spec : PartSpec) (journal : List Event) → IsFitSpec spec → IsRun spec journal
        → length journal ≤ most_events journal }
{}

/// The counts of a part are those of its journal. Failures are at most one more than the limit, and the attempts of a
/// call at most one more than failures. Each burst is at most the 32nd of its attempt.
pub fn every_run_is_measured()
    ensures { (spec : PartSpec) (journal : List Event) → IsFitSpec spec → IsRun spec journal
        → IsMeasured spec journal }
{}

/// With a limit of at most 16 a journal has fewer than 2^23 events, and a part does fewer than 2^23 bursts.
pub fn every_run_is_small()
    ensures events { (spec : PartSpec) (journal : List Event) → IsFitSpec spec → spec.limit ≤ 16
        → IsRun spec journal
        → length journal < 2 ^ 23 }
    ensures bursts { (spec : PartSpec) (journal : List Event) → IsFitSpec spec → spec.limit ≤ 16
        → IsRun spec journal
        → (state_of spec journal).bursts < 2 ^ 23 }
{}

/// After every run the next step may be taken, if there is one. If there is none, no call is open, and only an
/// invocation or a frame from outside can still happen.
pub fn every_run_has_progress()
    ensures { (spec : PartSpec) (journal : List Event) → IsFitSpec spec → IsRun spec journal
        → HasProgress (state_of spec journal) }
{}
