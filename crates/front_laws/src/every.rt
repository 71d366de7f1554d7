//! Every single fault of some kinds: unlisted faults change nothing, so a table of the listed ones covers all.

ghost use Rattle.front_laws.specs.Every.{AllKept, AreRowsOf, EndsWell, base_row};
ghost use Rattle.front_laws.specs.Fronts.{IsUnreached};
ghost use Rattle.front_laws.specs.GuardedPast.{IsUnreachedGuarded};
ghost use Rattle.guard_defs.specs.Every.{IsIn, every_fault, every_fault_guarded};
ghost use Rattle.nook_data.specs.Members.{struck};
ghost use Rattle.nook_data.specs.declared.campaign.MemberRow.{MemberRow};
ghost use Rattle.nook_data.specs.declared.scenario.Fault.{Fault};
ghost use Rattle.nook_data.specs.declared.scenario.FaultKind.{FaultKind};
ghost use Rattle.nook_data.specs.declared.scenario.PartSpec.{PartSpec};
ghost use Rattle.nook_data.specs.declared.scenario.Scenario.{Scenario};
ghost use Rattle.nook_data.specs.declared.steps.Event.{Event};
ghost use Rattle.report_defs.specs.Campaigns.{IsRowOf};
ghost use Rattle.run_defs.specs.Simulation.{IsScheduledRun, RunningPart, Simulation};
ghost use Rattle.std.specs.Prelude.{ℕ, List, Some, slice_get, ◌∷◌, ◌≡◌, ◌⊎◌};

/// Every fault of one of these kinds, in any burst and at any instruction, is in the list of every fault of these
/// kinds, or no burst of the journal reaches it and it changes nothing. This holds for journals of guarded runs too.
pub fn every_fault_is_listed_or_not_reached()
    ensures free { (kinds : List FaultKind) (fault : Fault) (spec : PartSpec) (journal : List Event)
        → IsIn kinds fault.kind
        → IsIn (every_fault kinds spec journal) fault ⊎ IsUnreached fault spec journal }
    ensures guarded { (kinds : List FaultKind) (fault : Fault) (spec : PartSpec)
        (journal : List Event)
        → IsIn kinds fault.kind
        → IsIn (every_fault_guarded kinds spec journal) fault
        ⊎ IsUnreachedGuarded fault spec journal }
{}

/// If a table has a row for each listed fault, and the row of the scenario's own run, it has the row of every single
/// fault of these kinds, in any burst and at any instruction. So if all these rows have status 0, the run with any such
/// fault has status 0.
pub fn a_table_of_every_fault_speaks_of_all()
    ensures rows { (scenario : Scenario) (index : ℕ) (spec : PartSpec) (s : Simulation)
        (seat : RunningPart)
        → IsScheduledRun scenario s → slice_get scenario.parts index ≡ Some spec
        → slice_get s.parts index ≡ Some seat
        → (kinds : List FaultKind) (rows : List MemberRow) (fault : Fault)
        → AreRowsOf scenario index (every_fault kinds spec seat.run.journal) rows
        → IsIn kinds fault.kind
        → (row : MemberRow) × IsIn (base_row scenario s ∷ rows) row
        × IsRowOf (struck scenario index fault) row }
    ensures kept { (scenario : Scenario) (index : ℕ) (spec : PartSpec) (s : Simulation)
        (seat : RunningPart)
        → IsScheduledRun scenario s → slice_get scenario.parts index ≡ Some spec
        → slice_get s.parts index ≡ Some seat
        → (kinds : List FaultKind) (rows : List MemberRow) (fault : Fault)
        → AreRowsOf scenario index (every_fault kinds spec seat.run.journal) rows
        → IsIn kinds fault.kind
        → AllKept (base_row scenario s ∷ rows) → EndsWell (struck scenario index fault) }
{}
