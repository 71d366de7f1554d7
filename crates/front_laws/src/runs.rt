//! Whole scenarios: a fault that is not reached, and the guarded run.

ghost use Rattle.front_laws.specs.FirstTrap.{IsFirstTrap, IsPutFirst};
ghost use Rattle.front_laws.specs.Fronts.{IsUnreached};
ghost use Rattle.front_laws.specs.GuardedPast.{IsUnreachedGuarded, inserted_at};
ghost use Rattle.front_laws.specs.GuardedParts.{IsGuardedPart};
ghost use Rattle.front_laws.specs.Owned.{owned, struck_at};
ghost use Rattle.guard_defs.specs.Guard.{HasRoom};
ghost use Rattle.guard_defs.specs.FirstBreaks.{NoneBreaks};
ghost use Rattle.guard_defs.specs.GuardedRuns.{IsGuardedSchedule, guarded_runs, guarded_scenario};
ghost use Rattle.nook_data.specs.Members.{struck};
ghost use Rattle.nook_data.specs.Valid.{IsValidScenario};
ghost use Rattle.nook_data.specs.declared.scenario.Fault.{Fault};
ghost use Rattle.nook_data.specs.declared.scenario.PartSpec.{PartSpec};
ghost use Rattle.nook_data.specs.declared.scenario.Scenario.{Scenario};
ghost use Rattle.run_defs.specs.Simulation.{IsScheduledRun, RunningPart, Simulation, answer_table, begins};
ghost use Rattle.run_defs.specs.Simulation.{journals_of, runs};
ghost use Rattle.std.specs.Prelude.{ℕ, All, Some, length, slice_get, ◌≡◌};

/// A fault that a part's journal does not reach does not change the run of the scenario: after as many steps the struck
/// scenario's run is the same except for that fault. So the struck scenario's scheduled run has the same journals and
/// answers.
pub fn a_fault_that_is_not_reached_leaves_the_run()
    ensures steps { (scenario : Scenario) (index : ℕ) (fault : Fault) (steps : ℕ) (spec : PartSpec)
        (seat : RunningPart) → slice_get scenario.parts index ≡ Some spec
        → slice_get (runs steps (begins scenario)).parts index ≡ Some seat
        → IsUnreached fault spec seat.run.journal
        → runs steps (begins (struck scenario index fault))
        ≡ owned (struck_at index fault) (runs steps (begins scenario)) }
    ensures whole { (scenario : Scenario) (index : ℕ) (fault : Fault) (s : Simulation)
        (spec : PartSpec)
        (seat : RunningPart) → IsScheduledRun scenario s
        → slice_get scenario.parts index ≡ Some spec
        → slice_get s.parts index ≡ Some seat → IsUnreached fault spec seat.run.journal
        → IsScheduledRun (struck scenario index fault) (owned (struck_at index fault) s) }
    ensures same { (index : ℕ) (fault : Fault) (s : Simulation)
        → (journals_of (owned (struck_at index fault) s) ≡ journals_of s)
        × (answer_table (owned (struck_at index fault) s) ≡ answer_table s) }
{}

/// The guarded run of a scenario is the scheduled run of the guarded scenario, in which the guard's traps follow each
/// part's own faults. So it has all properties of scheduled runs.
pub fn the_guarded_run_is_a_scheduled_run()
    ensures { (scenario : Scenario) (s : Simulation) → IsGuardedSchedule scenario s
        → IsScheduledRun (guarded_scenario scenario s) s }
{}

/// Each part of a guarded run of a scenario has a guarded run, and its faults are its own, followed by the guard's
/// traps. So its journal breaks no clause, and it has at most as many traps as its limit plus one.
pub fn each_part_of_a_guarded_run_is_guarded()
    ensures { (scenario : Scenario) (index : ℕ) (steps : ℕ) (spec : PartSpec) (seat : RunningPart)
        → slice_get scenario.parts index ≡ Some spec
        → slice_get (guarded_runs steps (begins scenario)).parts index ≡ Some seat
        → IsGuardedPart spec seat }
{}

/// A scenario has at most one guarded run.
pub fn a_scenario_has_one_guarded_run()
    ensures { (scenario : Scenario) (s t : Simulation) → IsGuardedSchedule scenario s
        → IsGuardedSchedule scenario t → s ≡ t }
{}

/// A scheduled run in which no part breaks a clause is the guarded run, so it has no trap.
pub fn a_scheduled_run_that_breaks_nothing_is_guarded()
    ensures { (scenario : Scenario) (s : Simulation) → IsScheduledRun scenario s → NoneBreaks s
        → IsGuardedSchedule scenario s }
{}

/// The guarded scenario of a valid scenario is valid if each part's list of faults has room for the traps.
pub fn the_guarded_scenario_is_valid()
    ensures { (scenario : Scenario) (steps : ℕ) → IsValidScenario scenario
        → All HasRoom scenario.parts
        → IsValidScenario (guarded_scenario scenario (guarded_runs steps (begins scenario))) }
{}

/// A fault is put after a part's own faults and before the guard's traps. If no burst of the part's guarded run reaches
/// it, it does not change the guarded run of the scenario. A burst that the guard's trap ends does not reach it if the
/// trap is before its position; at the same position the fault would strike first.
pub fn a_fault_that_is_not_reached_leaves_the_guarded_run()
    ensures steps { (scenario : Scenario) (index : ℕ) (fault : Fault) (steps : ℕ) (spec : PartSpec)
        (seat : RunningPart) → slice_get scenario.parts index ≡ Some spec
        → slice_get (guarded_runs steps (begins scenario)).parts index ≡ Some seat
        → IsUnreachedGuarded fault spec seat.run.journal
        → guarded_runs steps (begins (struck scenario index fault))
        ≡ owned (inserted_at index (length spec.faults) fault)
        (guarded_runs steps (begins scenario)) }
    ensures whole { (scenario : Scenario) (index : ℕ) (fault : Fault) (s : Simulation)
        (spec : PartSpec)
        (seat : RunningPart) → IsGuardedSchedule scenario s
        → slice_get scenario.parts index ≡ Some spec
        → slice_get s.parts index ≡ Some seat → IsUnreachedGuarded fault spec seat.run.journal
        → IsGuardedSchedule (struck scenario index fault)
        (owned (inserted_at index (length spec.faults) fault) s) }
    ensures same { (index : ℕ) (fault : Fault) (own : ℕ) (s : Simulation)
        → (journals_of (owned (inserted_at index own fault) s) ≡ journals_of s)
        × (answer_table (owned (inserted_at index own fault) s) ≡ answer_table s) }
{}

/// The guarded run can be made trap by trap: it is the guarded run of the scenario in which the part has its first trap
/// from the start, after its own faults. Until the first burst that would break a clause it is the scheduled run, which
/// the trap does not change; from that burst both are the same.
pub fn the_first_trap_may_be_put_first()
    ensures steps { (scenario : Scenario) (index : ℕ) (fault : Fault) (steps : ℕ)
        → IsFirstTrap scenario index fault steps → IsPutFirst scenario index fault steps }
    ensures there { (scenario : Scenario) (index : ℕ) (fault : Fault) (steps : ℕ) (s : Simulation)
        → IsFirstTrap scenario index fault steps → IsGuardedSchedule (struck scenario index fault) s
        → IsGuardedSchedule scenario s }
    ensures back { (scenario : Scenario) (index : ℕ) (fault : Fault) (steps : ℕ) (s : Simulation)
        → IsFirstTrap scenario index fault steps → IsGuardedSchedule scenario s
        → IsGuardedSchedule (struck scenario index fault) s }
    ensures same { (scenario : Scenario) (index : ℕ) (fault : Fault) (s : Simulation)
        → guarded_scenario (struck scenario index fault) s ≡ guarded_scenario scenario s }
{}
