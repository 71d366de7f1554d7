//! Tables of every fault.

ghost use Rattle.campaign_defs.specs.Members.{Ran};
ghost use Rattle.campaign_defs.specs.Rows.{IsPlanTable, plan_row};
ghost use Rattle.campaign_defs.specs.Types.{Row};
ghost use Rattle.campaign_laws.specs.Certificates.{AllEndWell, EndsWellUnder};
ghost use Rattle.guard_defs.specs.Every.{IsIn};
ghost use Rattle.plan_defs.specs.Plans.{IsValidPlan};
ghost use Rattle.plan_defs.specs.Types.{Plan};
ghost use Rattle.plan_defs.specs.declared.plan.Strikes.TheVariants as strikes;
ghost use Rattle.nook_data.specs.Members.{struck};
ghost use Rattle.nook_data.specs.declared.scenario.Fault.{Fault};
ghost use Rattle.nook_data.specs.declared.scenario.FaultKind.{FaultKind};
ghost use Rattle.std.specs.Prelude.{◌≡◌, ◌∷◌, List};

/// The table of a campaign with `every` is a certificate: if all its rows have status 0, including row 0, then the run
/// with any single fault of these kinds, in any burst and after any instruction, has status 0. With a guard these are
/// the guarded runs.
pub fn a_table_of_every_fault_is_a_certificate()
    ensures { (plan : Plan) (kinds : List FaultKind) (base : Ran) (rows : List Row) (fault : Fault)
        → IsValidPlan plan
        → plan.strikes ≡ strikes.Every kinds → IsPlanTable plan base rows
        → AllEndWell (plan_row plan base base ∷ rows) → IsIn kinds fault.kind
        → EndsWellUnder plan.guard (struck plan.base plan.part fault) }
{}
