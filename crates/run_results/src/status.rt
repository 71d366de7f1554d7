//! The status of a report.

ghost use Rattle.std.specs.Prelude.{◌≡◌, IfSome, IsSome, if◌then◌else◌};
ghost use Rattle.run_results.specs.Statuses.{status_number};

/// What the last line of a report says about the run's parts.
#[derive(Clone, Copy)]
pub enum ReportStatus {
    /// Every part's driver kept its class contract, and no part was given up.
    Kept,
    /// Every part's driver kept its class contract, and some part was given up.
    GivenUp,
    /// Some part's driver broke its class contract.
    Broken,
}

impl ReportStatus {
    /// The status of a run, from whether some part broke its contract and whether some part was given up.
    pub fn of(is_broken: bool, is_given_up: bool) -> ReportStatus
        ensures { status_number result ≡ (if is_broken then 7 else if is_given_up then 1 else 0) }
    {
        if is_broken {
            ReportStatus::Broken
        } else if is_given_up {
            ReportStatus::GivenUp
        } else {
            ReportStatus::Kept
        }
    }

    /// The number that is printed for the status: 0, 1 or 7.
    pub fn number(self) -> u32
        ensures { result ≡ status_number self }
    {
        match self {
            ReportStatus::Kept => 0,
            ReportStatus::GivenUp => 1,
            ReportStatus::Broken => 7,
        }
    }

    /// The status with this printed number.
    pub fn of_number(number: u32) -> Option<ReportStatus>
        ensures found { IfSome result (λ status. status_number status ≡ number) }
        ensures every { (status : ReportStatus) → status_number status ≡ number → IsSome result }
    {
        match number {
            0 => Some(ReportStatus::Kept),
            1 => Some(ReportStatus::GivenUp),
            7 => Some(ReportStatus::Broken),
            _ => None,
        }
    }
}
