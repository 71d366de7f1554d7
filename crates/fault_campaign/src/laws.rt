//! Laws of campaigns.

ghost use Rattle.std.specs.Prelude.{◌≡◌, List};
ghost use Rattle.report_defs.specs.Campaigns.{IsTable};
ghost use Rattle.nook_data.specs.Members.{IsValidCampaign};
ghost use Rattle.nook_data.specs.declared.campaign.Campaign.{Campaign};
ghost use Rattle.nook_data.specs.declared.campaign.MemberRow.{MemberRow};

/// Every valid campaign has a table.
pub fn every_campaign_has_a_table()
    ensures { (campaign : Campaign) → IsValidCampaign campaign
        → (rows : List MemberRow) × IsTable campaign rows }
{}

/// A campaign has at most one table.
pub fn every_campaign_has_one_table()
    ensures { (campaign : Campaign) (rows others : List MemberRow) → IsTable campaign rows
        → IsTable campaign others
        → rows ≡ others }
{}
