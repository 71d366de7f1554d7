//! What is read is within every limit.

ghost use Rattle.std.specs.Prelude.{List, ℕ, IfOk};
ghost use Rattle.serde_json.specs.Data.{Data};
ghost use Rattle.nook_data.specs.Valid.{IsValidFault, IsValidImage, IsValidScenario};
ghost use Rattle.asm_defs.specs.Assembler.{assembled};
ghost use Rattle.input_defs.specs.CampaignReading.{campaign_from};
ghost use Rattle.input_defs.specs.PlanReading.{plan_from};
ghost use Rattle.nook_data.specs.Members.{IsValidCampaign, member};
ghost use Rattle.input_defs.specs.ImageReading.{image_of};
ghost use Rattle.input_defs.specs.ScenarioReading.{scenario_from};
ghost use Rattle.plan_defs.specs.Plans.{IsValidPlan};
ghost use Rattle.nook_data.specs.declared.campaign.Campaign.{Campaign};
ghost use Rattle.nook_data.specs.declared.scenario.Fault.{Fault};

/// The image that is read from a JSON value is within the limits of images.
pub fn images_are_valid()
    ensures { (d : Data) → IfOk (image_of d) IsValidImage }
{}

/// The image that a text assembles to is within the limits of images.
pub fn assembled_images_are_valid()
    ensures { (text : List ℕ) → IfOk (assembled text) IsValidImage }
{}

/// The scenario that is read from some bytes is within every limit.
pub fn scenarios_are_valid()
    ensures { (bytes : List ℕ) → IfOk (scenario_from bytes) IsValidScenario }
{}

/// The campaign that is read from some bytes is within its limits.
pub fn campaigns_are_valid()
    ensures { (bytes : List ℕ) → IfOk (campaign_from bytes) IsValidCampaign }
{}

/// The campaign with members, kinds of fault, a guard and details that is read from some bytes is within its limits.
pub fn plans_are_valid()
    ensures { (bytes : List ℕ) → IfOk (plan_from bytes) IsValidPlan }
{}

/// The scenario of each member of a valid campaign is within every limit.
pub fn members_are_valid()
    ensures { (campaign : Campaign) (fault : Fault) → IsValidCampaign campaign → IsValidFault fault
        → IsValidScenario (member campaign fault) }
{}
