//! What the guard changes in a burst and in a part's run.

ghost use Rattle.front_laws.specs.Guarded.{IsFirstWrong, IsGuardedWell, IsNeeded, IsStopped, guarded_at, known_at};
ghost use Rattle.guard_defs.specs.Deeds.{deeds_in};
ghost use Rattle.guard_defs.specs.Guard.{IsGuardedRun, traps_of};
ghost use Rattle.nook_data.specs.declared.clause.Clause.{Clause};
ghost use Rattle.nook_data.specs.declared.scenario.PartSpec.{PartSpec};
ghost use Rattle.nook_data.specs.declared.steps.Event.{Event};
ghost use Rattle.nook_data.specs.declared.steps.Step.TheVariants.{Burst};
ghost use Rattle.part_defs.specs.Runs.{IsRun, event_of};
ghost use Rattle.part_defs.specs.State.{PartState};
ghost use Rattle.part_defs.specs.Steps.{enabled, served_number};
ghost use Rattle.part_laws.specs.Fit.{IsFitSpec};
ghost use Rattle.promise_defs.specs.Contract.{Known, broken, first_break};
ghost use Rattle.std.specs.Prelude.{ℕ, List, None, [], ◌∷◌, ◌≡◌, true};

/// If a burst would break a clause, the guard puts a trap before the instruction of the first deed that does. The burst
/// keeps just the acts before that deed, answers nothing, fails by an injected trap, and breaks no clause.
pub fn the_guards_trap_keeps_what_comes_before_it()
    ensures { (context : ℕ) (p : PartState) (known : Known) (clause : Clause) (more : List Clause)
        → broken known (event_of p (Burst context)) ≡ clause ∷ more → IsStopped context p known }
{}

/// A guarded run of a part is a run of the part with the guard's traps after its own faults, and it breaks no clause of
/// the contract. Each trap is a failure, so there are at most as many as the limit plus one.
pub fn every_guarded_run_keeps_the_contract()
    ensures { (spec : PartSpec) (journal : List Event) → IsFitSpec spec → IsGuardedRun spec journal
        → IsGuardedWell spec journal }
{}

/// A run that breaks no clause is a guarded run without a trap.
pub fn a_run_that_breaks_nothing_has_no_trap()
    ensures { (spec : PartSpec) (journal : List Event) → IsRun spec journal
        → first_break spec.class spec.blocks journal ≡ None
        → IsGuardedRun spec journal × (traps_of spec journal ≡ []) }
{}

/// The trap comes before the first deed that breaks a clause, and the reported clause is the smallest that this deed
/// breaks.
pub fn the_clause_reported_is_the_smallest_of_the_first_wrong_deed()
    ensures { (context : ℕ) (p : PartState) (known : Known) (clause : Clause) (more : List Clause)
        → broken known (event_of p (Burst context)) ≡ clause ∷ more
        → IsFirstWrong (served_number context p) known (deeds_in (event_of p (Burst context))) }
{}

/// Each trap is needed: without it and the later ones, the run continues with the unchanged burst, which is the first
/// event that breaks a clause.
pub fn each_trap_is_needed()
    ensures { (spec : PartSpec) (front : List Event) (context : ℕ) (clause : Clause)
        (more : List Clause) → IsFitSpec spec → IsGuardedRun spec front
        → enabled (guarded_at spec front) (Burst context) ≡ true
        → broken (known_at spec front) (event_of (guarded_at spec front) (Burst context)) ≡ clause
        ∷ more
        → IsNeeded spec front context clause }
{}
