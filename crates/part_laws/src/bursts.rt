//! Laws of one burst.

ghost use Rattle.machine_defs.specs.Execution.{Machine};
ghost use Rattle.nook_data.specs.declared.entries.Entry.{Entry};
ghost use Rattle.nook_data.specs.declared.scenario.Fault.{Fault};
ghost use Rattle.machine_defs.specs.Burst.{burst};
ghost use Rattle.part_laws.specs.ActsOn.{dev_of, Reports};
ghost use Rattle.part_laws.specs.BurstLaws.{IsIsolatedBurst};
ghost use Rattle.std.specs.Prelude.{List};

/// A driver changes no word that it may not write. Before the crossing of a burst only words that `may_write` allows
/// change, and text words that a code fault of that burst names.
pub fn burst_is_isolated()
    ensures { (entries : List Entry) (faults : List Fault) (m : Machine)
        → IsIsolatedBurst entries faults m }
{}

/// The acts of a burst determine what becomes of its device. After the burst the medium, the ring and the registers are
/// those before it, changed by its acts in order. The device allows each act in the state that the earlier acts leave.
pub fn acts_determine_the_device()
    ensures { (entries : List Entry) (faults : List Fault) (m : Machine)
        → Reports (dev_of m.device) (dev_of (burst entries faults m).machine.device)
        (burst entries faults m).acts }
{}
