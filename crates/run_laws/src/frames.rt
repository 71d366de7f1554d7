//! A law of the numbers of frames in a report.

ghost use Rattle.std.specs.Prelude.{List};
ghost use Rattle.nook_data.specs.declared.scenario.PartSpec.{PartSpec};
ghost use Rattle.nook_data.specs.declared.steps.Event.{Event};
ghost use Rattle.part_laws.specs.Recovery.{IsKeptRun};
ghost use Rattle.run_laws.specs.Lengths.{ReportsLengths};

/// If a part's driver kept the contract and the part was not given up, `queued`, `ring` and `driver` are the lengths
/// of what is there at the end: the kernel's queue, the link's ring, and the frames that the driver popped since its
/// last Load and did not hand up.
pub fn frames_are_where_the_report_shows_them()
    ensures { (spec : PartSpec) (journal : List Event) → IsKeptRun spec journal
        → ReportsLengths spec journal }
{}
