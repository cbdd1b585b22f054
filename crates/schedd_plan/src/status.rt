ghost use Rattle.std.specs.Prelude.{◌≡◌};
ghost use Rattle.schedd_plan.specs.JobAttributes.{status_numbered};

/// What a JobStatus says (HTCondor manual, Job ClassAd Attributes, JobStatus).
#[derive(Clone, Copy)]
pub enum JobStatus {
    /// 1
    Idle,
    /// 2
    Running,
    /// 3
    Removed,
    /// 4
    Completed,
    /// 5
    Held,
    /// No literal integer, or another one.
    Other,
}

/// The status of a number.
pub(crate) fn status_numbered(number: i64) -> JobStatus
    ensures { result ≡ status_numbered number }
{
    match number {
        1 => JobStatus::Idle,
        2 => JobStatus::Running,
        3 => JobStatus::Removed,
        4 => JobStatus::Completed,
        5 => JobStatus::Held,
        _ => JobStatus::Other,
    }
}
