//! Definitions of the printed texts: the report of a run, and the table of a campaign.
#![tactic(auto)]
