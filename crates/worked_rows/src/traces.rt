//! Runs of one part of each class: their journals and reports, their visible behaviour, and whether the driver kept its
//! contract.

ghost use Rattle.std.specs.Prelude.{◌≡◌, false, Some, true};
ghost use Rattle.promise_defs.specs.Contract.{first_break};
ghost use Rattle.promise_defs.specs.Ideal.{class_run};
ghost use Rattle.promise_defs.specs.Trace.{trace};
ghost use Rattle.nook_data.specs.declared.calls.Answer.TheVariants.{BadClass, Done};
ghost use Rattle.nook_data.specs.declared.classes.Class.TheVariants.{Block, Net, Sound};
ghost use Rattle.worked_rows.specs.Cases.{MakesRun, KeepsContract};
ghost use Rattle.worked_rows.specs.DiskCases.{write_and_read_part, write_and_read_threads, write_and_read_journal};
ghost use Rattle.worked_rows.specs.DiskCases.{write_and_read_report, write_cut_part, write_cut_threads};
ghost use Rattle.worked_rows.specs.DiskCases.{write_cut_journal, write_cut_report, wide_write_cut_part};
ghost use Rattle.worked_rows.specs.DiskCases.{wide_write_cut_threads, wide_write_cut_journal, wide_write_cut_report};
ghost use Rattle.worked_rows.specs.FailingDiskCases.{bad_block_part, bad_block_threads, bad_block_journal};
ghost use Rattle.worked_rows.specs.FailingDiskCases.{bad_block_report, bad_block_later_part, bad_block_later_threads};
ghost use Rattle.worked_rows.specs.FailingDiskCases.{bad_block_later_journal, bad_block_later_report};
ghost use Rattle.worked_rows.specs.FailingDiskCases.{read_invented_part, read_invented_threads, read_invented_journal};
ghost use Rattle.worked_rows.specs.FailingDiskCases.{read_invented_report};
ghost use Rattle.worked_rows.specs.LinkCases.{send_cut_part, send_cut_threads, send_cut_journal, send_cut_report};
ghost use Rattle.worked_rows.specs.LinkCases.{ring_full_part, ring_full_threads, ring_full_journal, ring_full_report};
ghost use Rattle.worked_rows.specs.OtherClasses.{frame_arrives, frame_is_sent, sample_is_played};
ghost use Rattle.worked_rows.specs.StreamCases.{play_cut_part, play_cut_threads, play_cut_journal, play_cut_report};
ghost use Rattle.worked_rows.specs.StreamCases.{init_cut_part, init_cut_threads, init_cut_journal, init_cut_report};

/// A block is written and read.
#[tactic(auto, using(crate::proofs::DiskCases::write_and_read_runs, crate::proofs::DiskCases::write_and_read_keeps))]
pub fn write_and_read()
    ensures run { MakesRun write_and_read_part write_and_read_threads write_and_read_journal write_and_read_report }
    ensures keeps { KeepsContract write_and_read_part write_and_read_journal }
{}

/// A write is interrupted after its store: it is submitted to the driver again, and another write and a read of the
/// block wait for it.
#[tactic(auto, using(crate::proofs::DiskCases::write_cut_runs, crate::proofs::DiskCases::write_cut_keeps))]
pub fn write_cut()
    ensures run { MakesRun write_cut_part write_cut_threads write_cut_journal write_cut_report }
    ensures keeps { KeepsContract write_cut_part write_cut_journal }
{}

/// A write of eight blocks is interrupted twice, the second time while it is submitted again.
#[tactic(auto, using(crate::proofs::DiskCases::wide_write_cut_runs, crate::proofs::DiskCases::wide_write_cut_keeps))]
pub fn wide_write_cut()
    ensures run { MakesRun wide_write_cut_part wide_write_cut_threads wide_write_cut_journal wide_write_cut_report }
    ensures keeps { KeepsContract wide_write_cut_part wide_write_cut_journal }
{}

/// A send is interrupted after its frame and another before its frame; Stop answers both, and one frame is lost.
#[tactic(auto, using(crate::proofs::LinkCases::send_cut_runs, crate::proofs::LinkCases::send_cut_keeps))]
pub fn send_cut()
    ensures run { MakesRun send_cut_part send_cut_threads send_cut_journal send_cut_report }
    ensures keeps { KeepsContract send_cut_part send_cut_journal }
{}

/// Seventeen frames arrive and nobody receives them: sixteen stay in the ring and one is lost.
#[tactic(auto, using(crate::proofs::LinkCases::ring_full_runs, crate::proofs::LinkCases::ring_full_keeps))]
pub fn ring_full()
    ensures run { MakesRun ring_full_part ring_full_threads ring_full_journal ring_full_report }
    ensures keeps { KeepsContract ring_full_part ring_full_journal }
{}

/// A play is interrupted, two of its samples are lost, and the configuration and the stream are restored.
#[tactic(auto, using(crate::proofs::StreamCases::play_cut_runs, crate::proofs::StreamCases::play_cut_keeps))]
pub fn play_cut()
    ensures run { MakesRun play_cut_part play_cut_threads play_cut_journal play_cut_report }
    ensures keeps { KeepsContract play_cut_part play_cut_journal }
{}

/// The first init is interrupted: a thread that asks for the stream meanwhile is answered with the stage.
#[tactic(auto, using(crate::proofs::StreamCases::init_cut_runs, crate::proofs::StreamCases::init_cut_keeps))]
pub fn init_cut()
    ensures run { MakesRun init_cut_part init_cut_threads init_cut_journal init_cut_report }
    ensures keeps { KeepsContract init_cut_part init_cut_journal }
{}

/// A block of the disk fails: the answers to a write and a read name it, and what was stored before stays.
#[tactic(auto, using(crate::proofs::FailingDiskCases::bad_block_runs, crate::proofs::FailingDiskCases::bad_block_keeps))]
pub fn bad_block()
    ensures run { MakesRun bad_block_part bad_block_threads bad_block_journal bad_block_report }
    ensures keeps { KeepsContract bad_block_part bad_block_journal }
{}

/// A write is stored and then interrupted. When it is submitted again its block fails, and its words stay.
#[tactic(auto, using(crate::proofs::FailingDiskCases::bad_block_later_runs, crate::proofs::FailingDiskCases::bad_block_later_keeps))]
pub fn bad_block_later()
    ensures run { MakesRun bad_block_later_part bad_block_later_threads bad_block_later_journal bad_block_later_report }
    ensures keeps { KeepsContract bad_block_later_part bad_block_later_journal }
{}

/// A driver answers a read with invented words: no disk shows this, and the eighth event breaks clause 4.
#[tactic(auto, using(crate::proofs::FailingDiskCases::read_invented_runs, crate::proofs::FailingDiskCases::read_invented_breaks, crate::proofs::FailingDiskCases::read_invented_shows))]
pub fn read_invented()
    ensures run { MakesRun read_invented_part read_invented_threads read_invented_journal read_invented_report }
    ensures broken { first_break Block 1 read_invented_journal ≡ Some (record { event = 8; clause = 4 }) }
    ensures seen { class_run Block 1 (trace read_invented_journal) ≡ false }
{}

/// Only a link shows arrivals and frames on the wire, and only a stream shows samples, no matter what was called.
#[tactic(auto, using(crate::proofs::OtherClasses::arrivals_of_a_link, crate::proofs::OtherClasses::frames_of_a_link, crate::proofs::OtherClasses::samples_of_a_stream))]
pub fn other_classes()
    ensures arrives { (class_run Net 0 frame_arrives ≡ true)
        × (class_run Block 1 frame_arrives ≡ false)
        × (class_run Sound 0 frame_arrives ≡ false) }
    ensures sends { (class_run Net 0 (frame_is_sent Done) ≡ true)
        × (class_run Block 1 (frame_is_sent BadClass) ≡ false)
        × (class_run Sound 0 (frame_is_sent BadClass) ≡ false) }
    ensures plays { (class_run Sound 0 (sample_is_played Done 8000 5) ≡ true)
        × (class_run Block 1 (sample_is_played BadClass 0 0) ≡ false)
        × (class_run Net 0 (sample_is_played BadClass 100 1) ≡ false) }
{}
