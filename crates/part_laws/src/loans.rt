//! Laws on which calls have a buffer.

ghost use Rattle.part_laws.specs.Loans.{HasLoans};
ghost use Rattle.part_defs.specs.Runs.{IsRun, state_of};
ghost use Rattle.part_defs.specs.State.{PartState};
ghost use Rattle.part_defs.specs.Steps.{enabled, stepped};
ghost use Rattle.nook_data.specs.declared.steps.Event.{Event};
ghost use Rattle.nook_data.specs.declared.scenario.PartSpec.{PartSpec};
ghost use Rattle.nook_data.specs.declared.steps.Step.{Step};
ghost use Rattle.part_laws.specs.Fit.{IsFit, IsFitSpec};
ghost use Rattle.part_laws.specs.Tied.{IsTied};
ghost use Rattle.std.specs.Prelude.{List, true, ◌≡◌};

/// Each step that may be taken keeps this rule on loans: while the driver runs, only calls that are Inside have a
/// buffer; after Collect no call has one until the driver runs again.
pub fn each_step_keeps_loans()
    ensures { (p : PartState) (s : Step) → IsFit p → IsTied p → HasLoans p → enabled p s ≡ true
        → HasLoans (stepped p s).state }
{}

/// The same holds after every journal that is a run.
pub fn every_run_keeps_loans()
    ensures { (spec : PartSpec) (journal : List Event) → IsFitSpec spec → IsRun spec journal
        → HasLoans (state_of spec journal) }
{}
