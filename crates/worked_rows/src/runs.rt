//! Whole runs: a scenario and the text of its report.
#![tactic(auto, unfolding(crate::proofs::OnLiterals::nook_on_literals))]

ghost use Rattle.std.specs.Prelude.{◌≡◌, [], ◌∷◌, codes};
ghost use Rattle.worked_rows.specs.FirstRun.{write_and_read_json, write_and_read_text};
ghost use Rattle.worked_rows.specs.Scenarios.{answers_of, output, report_of, summary_of};
ghost use Rattle.worked_rows.specs.DriverRuns.{init_writes_an_object as init_writes_an_object_run};
ghost use Rattle.worked_rows.specs.DriverRuns.{init_writes_an_object_report};
ghost use Rattle.worked_rows.specs.DriverRuns.{buffer_lent_for_one_call as buffer_lent_for_one_call_run};
ghost use Rattle.worked_rows.specs.DriverRuns.{buffer_lent_for_one_call_report};
ghost use Rattle.worked_rows.specs.DriverRuns.{no_such_instruction as no_such_instruction_run};
ghost use Rattle.worked_rows.specs.DriverRuns.{no_such_instruction_report, jump_to_itself as jump_to_itself_run};
ghost use Rattle.worked_rows.specs.DriverRuns.{jump_to_itself_report};
ghost use Rattle.worked_rows.specs.DriverRuns.{crossing_at_the_last_turn as crossing_at_the_last_turn_run};
ghost use Rattle.worked_rows.specs.DriverRuns.{crossing_at_the_last_turn_report};
ghost use Rattle.worked_rows.specs.DriverRuns.{sixty_four_allocations as sixty_four_allocations_run};
ghost use Rattle.worked_rows.specs.DriverRuns.{sixty_four_allocations_report};
ghost use Rattle.worked_rows.specs.DriverRuns.{borrowed_copy_not_written_back as borrowed_copy_not_written_back_run};
ghost use Rattle.worked_rows.specs.DriverRuns.{borrowed_copy_not_written_back_report};
ghost use Rattle.worked_rows.specs.DriverRuns.{buffer_lent_for_reading as buffer_lent_for_reading_run};
ghost use Rattle.worked_rows.specs.DriverRuns.{buffer_lent_for_reading_report};
ghost use Rattle.worked_rows.specs.DriverRuns.{yields_without_end as yields_without_end_run, yields_without_end_report};
ghost use Rattle.worked_rows.specs.DriverRuns.{pauses_without_end as pauses_without_end_run, pauses_without_end_report};
ghost use Rattle.worked_rows.specs.DiskRuns.{boot_alone as boot_alone_run, boot_alone_report};
ghost use Rattle.worked_rows.specs.DiskRuns.{edges_of_the_disk as edges_of_the_disk_run, edges_of_the_disk_report};
ghost use Rattle.worked_rows.specs.DiskRuns.{given_up_past_the_limit as given_up_past_the_limit_run};
ghost use Rattle.worked_rows.specs.DiskRuns.{given_up_past_the_limit_report};
ghost use Rattle.worked_rows.specs.DiskRuns.{kept_within_the_limit as kept_within_the_limit_run};
ghost use Rattle.worked_rows.specs.DiskRuns.{kept_within_the_limit_report, poked_buffer as poked_buffer_run};
ghost use Rattle.worked_rows.specs.DiskRuns.{poked_buffer_report, listed_picks as listed_picks_run};
ghost use Rattle.worked_rows.specs.DiskRuns.{listed_picks_report};
ghost use Rattle.worked_rows.specs.DiskRuns.{conflicts_wait_in_order as conflicts_wait_in_order_run};
ghost use Rattle.worked_rows.specs.DiskRuns.{conflicts_wait_in_order_report};
ghost use Rattle.worked_rows.specs.LinkAndStreamRuns.{frame_up_and_none_left as frame_up_and_none_left_run};
ghost use Rattle.worked_rows.specs.LinkAndStreamRuns.{frame_up_and_none_left_report};
ghost use Rattle.worked_rows.specs.LinkAndStreamRuns.{stream_with_its_volume as stream_with_its_volume_run};
ghost use Rattle.worked_rows.specs.LinkAndStreamRuns.{stream_with_its_volume_report};

/// From the bytes of a scenario to the bytes of its report: a block is written and read back.
pub fn write_and_read_from_bytes()
    ensures { output write_and_read_json ≡ write_and_read_text }
{}

/// A driver may not write a kernel object: its init is stopped, and with no failure allowed the part is given up.
pub fn init_writes_an_object()
    ensures { report_of init_writes_an_object_run ≡ init_writes_an_object_report }
{}

/// A buffer may be written only while it is lent.
pub fn buffer_lent_for_one_call()
    ensures { report_of buffer_lent_for_one_call_run ≡ buffer_lent_for_one_call_report }
{}

/// A word that sets a field which its form lacks is no instruction.
pub fn no_such_instruction()
    ensures { report_of no_such_instruction_run ≡ no_such_instruction_report }
{}

/// 4,096 instructions without a crossing are a hang.
pub fn jump_to_itself()
    ensures { report_of jump_to_itself_run ≡ jump_to_itself_report }
{}

/// A kernel call as the 4,096th instruction is a crossing.
pub fn crossing_at_the_last_turn()
    ensures { report_of crossing_at_the_last_turn_run ≡ crossing_at_the_last_turn_report }
{}

/// At most 64 allocations exist at a time, even across calls, and Collect names each.
pub fn sixty_four_allocations()
    ensures { report_of sixty_four_allocations_run ≡ sixty_four_allocations_report }
{}

/// After a failure, an object has changed only if its copy was given back before.
pub fn borrowed_copy_not_written_back()
    ensures { report_of borrowed_copy_not_written_back_run ≡ borrowed_copy_not_written_back_report }
{}

/// A driver may not write a buffer that is lent for reading.
pub fn buffer_lent_for_reading()
    ensures { report_of buffer_lent_for_reading_run ≡ buffer_lent_for_reading_report }
{}

/// The 32nd kernel call of an attempt is not served.
pub fn yields_without_end()
    ensures { report_of yields_without_end_run ≡ yields_without_end_report }
{}

/// The 32nd burst of an attempt that ends in a pause is a failure.
pub fn pauses_without_end()
    ensures { report_of pauses_without_end_run ≡ pauses_without_end_report }
{}

/// A part with no threads boots, and nothing more happens.
pub fn boot_alone()
    ensures { report_of boot_alone_run ≡ boot_alone_report }
{}

/// A read up to the last block; ranges past it and a write without words are refused.
pub fn edges_of_the_disk()
    ensures { report_of edges_of_the_disk_run ≡ edges_of_the_disk_report }
{}

/// Three failures with two allowed: the open call is answered Gone.
pub fn given_up_past_the_limit()
    ensures { report_of given_up_past_the_limit_run ≡ given_up_past_the_limit_report }
{}

/// Three failures with three allowed: the call is finally served.
pub fn kept_within_the_limit()
    ensures { report_of kept_within_the_limit_run ≡ kept_within_the_limit_report }
{}

/// A fault writes a lent buffer, but not that of another context: the read breaks its contract.
pub fn poked_buffer()
    ensures { report_of poked_buffer_run ≡ poked_buffer_report }
{}

/// A listed schedule is followed, a pick of an actor that is not enabled is skipped, and round robin continues.
pub fn listed_picks()
    ensures { report_of listed_picks_run ≡ listed_picks_report }
{}

/// Two writes and a read of one block are served in the order of their numbers.
pub fn conflicts_wait_in_order()
    ensures { report_of conflicts_wait_in_order_run ≡ conflicts_wait_in_order_report }
{}

/// A frame is sent, one is received, and then none is left.
pub fn frame_up_and_none_left()
    ensures { report_of frame_up_and_none_left_run ≡ frame_up_and_none_left_report }
{}

/// A stream is opened, configured, played, queried and closed.
pub fn stream_with_its_volume()
    ensures { report_of stream_with_its_volume_run ≡ stream_with_its_volume_report }
{}

/// The generated scenario with twelve operations per thread, under its drawn schedule: its summary, with seven failures
/// of the disk.
pub fn generated_of_twelve()
    ensures summary { summary_of 12 ≡ codes "gen 12 events 251 failures 7 status 0\n" }
    ensures answers { answers_of 12 ≡ 12 ∷ 12 ∷ 12 ∷ 12 ∷ [] }
{}
