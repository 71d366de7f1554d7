//! What a fault does not change.

ghost use Rattle.front_laws.specs.Fronts.{IsCutShort, IsRising, IsSameRun, IsUnreached, put_after};
ghost use Rattle.guard_defs.specs.Turns.{acts_within, turns_before, turns_of};
ghost use Rattle.machine_defs.specs.Burst.{burst};
ghost use Rattle.machine_defs.specs.Execution.{Machine};
ghost use Rattle.nook_data.specs.declared.entries.Entry.{Entry};
ghost use Rattle.nook_data.specs.declared.machine.Act.{Act};
ghost use Rattle.nook_data.specs.declared.scenario.Fault.{Fault};
ghost use Rattle.nook_data.specs.declared.scenario.FaultKind.TheVariants.{Trap};
ghost use Rattle.nook_data.specs.declared.scenario.PartSpec.{PartSpec};
ghost use Rattle.nook_data.specs.declared.steps.Event.{Event};
ghost use Rattle.part_laws.specs.Bound.{bursts_of_journal};
ghost use Rattle.std.specs.Prelude.{ℕ, List, [], ◌∷◌, ◌++◌, ◌≡◌, ◌≤◌, ◌<◌};

/// A fault of a later burst changes nothing that comes before it. Appended to a part's own faults, it changes neither a
/// journal with fewer bursts nor the part after that journal.
pub fn a_later_fault_changes_nothing_before_it()
    ensures { (spec : PartSpec) (fault : Fault) (events : List Event)
        → bursts_of_journal events < fault.burst
        → IsSameRun spec (spec.faults ++ fault ∷ []) events }
{}

/// A fault strikes only if its burst reaches its position. Appended to a part's own faults, it changes no journal in
/// which the burst of its number executes at most as many instructions as precede the fault.
pub fn a_fault_that_is_not_reached_changes_nothing()
    ensures runs { (spec : PartSpec) (fault : Fault) (events : List Event)
        → IsUnreached fault spec events → IsSameRun spec (spec.faults ++ fault ∷ []) events }
    ensures bursts { (fault : Fault) (entries : List Entry) (faults : List Fault) (m : Machine)
        → turns_of entries faults m ≤ fault.after
        → burst entries (put_after fault faults) m ≡ burst entries faults m }
{}

/// A trap that follows the other faults of a burst, which are in increasing order, ends the burst at its position. The
/// burst keeps the acts of the instructions before it, which are a prefix of the acts that it had.
pub fn a_trap_cuts_a_burst_short()
    ensures cut { (fault : Fault) (entries : List Entry) (faults : List Fault) (m : Machine)
        → fault.kind ≡ Trap → IsRising 0 faults → fault.after < turns_of entries faults m
        → IsCutShort fault.after (acts_within fault.after entries faults m)
        (burst entries (put_after fault faults) m) }
    ensures stay { (turns : ℕ) (entries : List Entry) (faults : List Fault) (m : Machine)
        → (later : List Act)
        × ((burst entries faults m).acts ≡ acts_within turns entries faults m ++ later) }
{}

/// Before the position of a fault a burst is the same as without it: its acts are the same after each number of
/// instructions up to the fault, and a deed before that position is done by the same instruction.
pub fn before_a_fault_a_burst_is_alike()
    ensures acts { (fault : Fault) (turns : ℕ) (entries : List Entry) (faults : List Fault)
        (m : Machine) → turns ≤ fault.after
        → acts_within turns entries (put_after fault faults) m
        ≡ acts_within turns entries faults m }
    ensures turns { (fault : Fault) (deed : ℕ) (entries : List Entry) (faults : List Fault)
        (m : Machine) → turns_before deed entries faults m < fault.after
        → turns_before deed entries (put_after fault faults) m
        ≡ turns_before deed entries faults m }
{}
