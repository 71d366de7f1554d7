//! The members of a campaign, and their runs.

ghost use Rattle.campaign_defs.specs.Members.{CanRunMember, CanRunUnder, IsBaseRun, IsRunUnder, Ran, members};
ghost use Rattle.plan_defs.specs.Plans.{IsValidPlan};
ghost use Rattle.plan_defs.specs.Types.{Plan};
ghost use Rattle.nook_data.specs.Valid.{IsValidScenario};
ghost use Rattle.nook_data.specs.declared.scenario.Scenario.{Scenario};
ghost use Rattle.std.specs.Prelude.{◌≡◌, All, Bool};

/// The base of a valid plan can be run: it is a valid scenario, and if the campaign has a guard, each part has room for
/// the guard's traps. So a campaign can begin with the base's run.
pub fn the_base_can_run()
    ensures { (plan : Plan) → IsValidPlan plan → CanRunUnder plan.guard plan.base }
{}

/// Every member of a valid plan can be run, whatever strikes: its scenario is valid, and if the campaign has a guard,
/// each part has room for the guard's traps. So a campaign never has to omit or refuse a fault that it makes, including
/// every fault of some kinds in the base's run.
pub fn every_member_can_run()
    ensures { (plan : Plan) (base : Ran) → IsValidPlan plan → IsBaseRun plan base
        → All (CanRunMember plan) (members plan base) }
{}

/// Every scenario that can be run has a run, with or without a guard: in the end no actor has a step.
pub fn every_scenario_has_a_run_under()
    ensures { (guard : Bool) (scenario : Scenario) → CanRunUnder guard scenario
        → (ran : Ran) × IsRunUnder guard scenario ran }
{}

/// A scenario has at most one run, with or without a guard: the scenario that was run, the simulation and the number of
/// traps are the same each time. So a row depends on its member, and not on the program that made it.
pub fn a_run_under_is_one()
    ensures { (guard : Bool) (scenario : Scenario) (ran other : Ran) → IsRunUnder guard scenario ran
        → IsRunUnder guard scenario other → ran ≡ other }
{}

/// The scenario that was run is valid, even if a guard has added its traps. So what holds of every run of a valid
/// scenario holds of the runs of a campaign.
pub fn a_run_under_is_a_run_of_a_valid_scenario()
    ensures { (guard : Bool) (scenario : Scenario) (ran : Ran) → CanRunUnder guard scenario
        → IsRunUnder guard scenario ran → IsValidScenario ran.scenario }
{}
