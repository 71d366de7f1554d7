//! What a run leaves: the journal of each part, each thread's answers, each listener's total, the final state and the
//! summary of each part, and the status. What simulates makes it, and what prints writes it.
#![tactic(auto)]

mod report;
mod row;
mod run;
mod status;
mod sums;

pub use report::{PartEnd, PartEnds, PartReport, PartReports, Report, report_of};
pub use row::{count_gone, row_of};
pub use run::{Journals, Run};
pub use status::ReportStatus;
pub use sums::add;
