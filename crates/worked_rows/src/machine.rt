//! Small laws of the driver machine: bursts are bounded, and the table of pages determines what a driver may write.

ghost use Rattle.std.specs.Prelude.{List};
ghost use Rattle.nook_data.specs.declared.entries.Entry.{Entry};
ghost use Rattle.nook_data.specs.declared.scenario.Fault.{Fault};
ghost use Rattle.machine_defs.specs.Burst.{burst};
ghost use Rattle.machine_defs.specs.Execution.{Machine};
ghost use Rattle.headline_laws.specs.Recoveries.{IsBounded};
ghost use Rattle.worked_rows.specs.MachineLaws.{IsLentBuffer, IsPageTable};

/// Whatever the machine executes and whatever faults strike, a burst has at most 4,096 instructions and 64 acts.
pub fn bursts_are_bounded()
    ensures { (entries : List Entry) (faults : List Fault) (m : Machine) → IsBounded (burst entries faults m) }
{}

/// Which addresses a driver may write, at the edges of the table of pages.
pub fn edges_of_the_pages()
    ensures pages { IsPageTable }
    ensures buffers { IsLentBuffer }
{}
