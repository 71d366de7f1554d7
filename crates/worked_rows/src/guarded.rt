//! Guarded runs of disks: the traps were worked out by hand.
#![tactic(auto, unfolding(crate::proofs::GuardOnLiterals::guard_on_literals))]

ghost use Rattle.std.specs.Prelude.{◌≡◌};
ghost use Rattle.worked_rows.specs.DiskRuns.{listed_picks};
ghost use Rattle.worked_rows.specs.GuardedCases.{faults_of, guarded_of, wrong_reply, wrong_reply_faults};
ghost use Rattle.worked_rows.specs.GuardedCases.{wrong_second_block, wrong_second_block_faults};
ghost use Rattle.worked_rows.specs.GuardedCases.{wrong_second_block_report};
ghost use Rattle.worked_rows.specs.Scenarios.{report_of};

/// The second of two stores has a wrong word: the trap comes before its instruction, the first store is kept, and
/// another try completes the write.
pub fn a_wrong_store_is_stopped()
    ensures trap { faults_of (guarded_of wrong_second_block) ≡ wrong_second_block_faults }
    ensures report { report_of (guarded_of wrong_second_block) ≡ wrong_second_block_report }
{}

/// A read is answered with a wrong word: the trap comes before the instruction that replies.
pub fn a_wrong_reply_is_stopped()
    ensures { faults_of (guarded_of wrong_reply) ≡ wrong_reply_faults }
{}

/// A run that breaks nothing has no trap: the guarded scenario is the original one.
pub fn nothing_is_stopped()
    ensures { guarded_of listed_picks ≡ listed_picks }
{}
