//! Runs that go wrong late: what their prefixes promise, what a given-up part answers, and the longest recovery.
#![tactic(auto, unfolding(crate::proofs::OnLiterals::nook_on_literals))]

ghost use Rattle.std.specs.Prelude.{[], ◌∷◌, ◌≡◌, Some, false, true};
ghost use Rattle.nook_data.specs.declared.calls.Answer.TheVariants as answer;
ghost use Rattle.worked_rows.specs.Fronts.{early_end, first_recovery, frail_disk, frail_disk_ops, journal_of};
ghost use Rattle.worked_rows.specs.Fronts.{late_break, lengths_of, lying_disk, lying_disk_ops, lying_link};
ghost use Rattle.worked_rows.specs.Fronts.{lying_link_ops, lying_stream, lying_stream_ops, slow_stream};
ghost use Rattle.worked_rows.specs.Fronts.{slow_stream_ops, transparent};

/// A disk's driver stores nothing in its last Write: event 14 breaks clause 3, and the Read after it shows no disk. The
/// 13 events before are one run of a disk that never fails.
pub fn disk_lies_late()
    ensures { late_break lying_disk (journal_of lying_disk lying_disk_ops) ≡ record {
      broken = Some (record { event = 14; clause = 3 });
      before = transparent 0;
      all = record { failures = 0; kept = false; one_run = false; licensed = true };
    } }
{}

/// A link's driver sends nothing in its last Send: event 11 breaks clause 7, and the loss is not licensed.
pub fn link_lies_late()
    ensures { late_break lying_link (journal_of lying_link lying_link_ops) ≡ record {
      broken = Some (record { event = 11; clause = 7 });
      before = transparent 0;
      all = record { failures = 0; kept = false; one_run = true; licensed = false };
    } }
{}

/// A stream's driver plays nothing in its last Play: event 14 breaks clause 11, and the loss is not licensed.
pub fn stream_lies_late()
    ensures { late_break lying_stream (journal_of lying_stream lying_stream_ops) ≡ record {
      broken = Some (record { event = 14; clause = 11 });
      before = transparent 0;
      all = record { failures = 0; kept = false; one_run = true; licensed = false };
    } }
{}

/// A disk is given up at its first failure, in a Read. The events before are one run of a disk that never fails; that
/// Read and the Get after it are answered Gone, and the static check answers a Read past the disk's end.
pub fn disk_is_given_up()
    ensures { early_end frail_disk (journal_of frail_disk frail_disk_ops) ≡ record {
      before = transparent 1;
      answers = (2, answer.Gone 1) ∷ (3, answer.BadRange) ∷ (4, answer.Gone 1) ∷ [];
    } }
{}

/// A stream with all four keys set fails while it is open, and its driver takes 32 bursts for each call. The recovery
/// has every possible stage, and no recovery is longer.
pub fn slow_stream_recovers()
    ensures { lengths_of (first_recovery slow_stream (journal_of slow_stream slow_stream_ops)) ≡ (11, 192) }
{}
