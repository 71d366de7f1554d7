//! Members of a campaign without a guard that have the same row.

ghost use Rattle.campaign_defs.specs.Members.{IsBaseRun, Ran, alone};
ghost use Rattle.campaign_defs.specs.Rows.{IsMemberRow, plan_row};
ghost use Rattle.campaign_defs.specs.Types.{Row};
ghost use Rattle.nook_data.specs.Types.{Fault, PartSpec};
ghost use Rattle.plan_defs.specs.Types.{Plan};
ghost use Rattle.register_laws.specs.Alike.{AreAlike};
ghost use Rattle.run_defs.specs.Simulation.{RunningPart};
ghost use Rattle.std.specs.Prelude.{None, Some, slice_get, ◌≡◌, false};

/// If the burst of a fault is the same without it in the base's run, the row of the fault's member is the base's. If it
/// is the same with another fault of that burst, each row of the one member is a row of the other.
pub fn members_that_do_the_same_have_the_same_row()
    ensures none { (plan : Plan) → plan.guard ≡ false → (base own : Ran) (spec : PartSpec)
        (seat : RunningPart) → IsBaseRun plan base
        → slice_get plan.base.parts plan.part ≡ Some spec
        → slice_get base.simulation.parts plan.part ≡ Some seat → (fault : Fault)
        → AreAlike fault None spec seat.run.journal
        → IsMemberRow plan own (alone fault) (plan_row plan own base) }
    ensures next { (plan : Plan) → plan.guard ≡ false → (base own : Ran) (spec : PartSpec)
        (seat : RunningPart) → IsBaseRun plan base
        → slice_get plan.base.parts plan.part ≡ Some spec
        → slice_get base.simulation.parts plan.part ≡ Some seat → (fault other : Fault)
        → other.burst ≡ fault.burst → AreAlike fault (Some other) spec seat.run.journal
        → (row : Row) → IsMemberRow plan own (alone fault) row
        → IsMemberRow plan own (alone other) row }
{}
