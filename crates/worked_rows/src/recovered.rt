//! Runs of each class with failures where recovery is hardest: the premises of the recovery theorem hold of
//! these runs.
#![tactic(auto, unfolding(crate::proofs::OnLiterals::nook_on_literals))]

ghost use Rattle.std.specs.Prelude.{◌≡◌};
ghost use Rattle.worked_rows.specs.Verdicts.{failing_disk, failing_link, failing_stream, recovered, verdicts_of};

/// A disk fails in its first init, in the middle of a write of eight blocks, in a replay, and in the middle of the
/// resubmitted write.
pub fn disk_recovers()
    ensures { verdicts_of failing_disk ≡ recovered 4 }
{}

/// A link fails in its first init, after a frame is on the wire, and in a replay.
pub fn link_recovers()
    ensures { verdicts_of failing_link ≡ recovered 3 }
{}

/// A stream fails in its first init, in the middle of a play, in a replay, and when it is reopened.
pub fn stream_recovers()
    ensures { verdicts_of failing_stream ≡ recovered 4 }
{}
