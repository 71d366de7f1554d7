//! The tables of campaigns.

ghost use Rattle.campaign_defs.specs.Members.{Ran};
ghost use Rattle.campaign_defs.specs.Rows.{IsPlanTable};
ghost use Rattle.campaign_defs.specs.Types.{Row};
ghost use Rattle.plan_defs.specs.Plans.{IsValidPlan};
ghost use Rattle.plan_defs.specs.Types.{Plan};
ghost use Rattle.std.specs.Prelude.{◌≡◌, List};

/// Every valid plan has a table: the base has a run, and so has each member. So a promise about a campaign's table is
/// never vacuous.
pub fn every_plan_has_a_table()
    ensures { (plan : Plan) → IsValidPlan plan
        → (base : Ran) × ((rows : List Row) × IsPlanTable plan base rows) }
{}

/// A plan has at most one table: the base's run and the rows are the same each time. So neither the order in which the
/// members are run nor the number that are run at once matters.
pub fn every_plan_has_one_table()
    ensures { (plan : Plan) (base other : Ran) (rows others : List Row) → IsPlanTable plan base rows
        → IsPlanTable plan other others → (base ≡ other) × (rows ≡ others) }
{}
