// What a user, or an expression of the job's own, wants of a job.

ghost use Rattle.std.specs.Prelude.{◌≡◌};
ghost use Rattle.schedd_plan.specs.OrderTable.{remove_plan, hold_plan, hold_left, resume_plan, resume_marked, can_be_held, is_waiting};

use crate::places::JobPlace;
use crate::{JobPlan, JobStatus, Reason};
use claim_id::JobId;

/// The job is to be removed. Computes in O(1), as do the other orders.
pub fn remove_plan(place: JobPlace, job: JobId) -> Option<JobPlan>
    ensures { result ≡ remove_plan place job }
{
    match place {
        JobPlace::Nowhere => None,
        JobPlace::Idle | JobPlace::Held | JobPlace::Left { .. } => Some(JobPlan::Remove { job }),
        JobPlace::Under { .. } => Some(JobPlan::MarkRemoved { job }),
    }
}

/// The job is to be held.
pub fn hold_plan(place: JobPlace, job: JobId, reason: Reason) -> Option<JobPlan>
    ensures { result ≡ hold_plan place job reason }
{
    match place {
        JobPlace::Nowhere | JobPlace::Held => None,
        JobPlace::Idle => Some(JobPlan::PutHeld { job, reason }),
        JobPlace::Left { status } => hold_left(status, job, reason),
        JobPlace::Under { status } => match status {
            JobStatus::Running => Some(JobPlan::MarkHeld { job, reason }),
            _ => None,
        },
    }
}

fn hold_left(status: JobStatus, job: JobId, reason: Reason) -> Option<JobPlan>
    ensures { result ≡ hold_left status job reason }
{
    match status {
        JobStatus::Idle | JobStatus::Running => Some(JobPlan::MarkHeld { job, reason }),
        _ => None,
    }
}

/// A held job is to run again.
pub fn resume_plan(place: JobPlace, job: JobId) -> Option<JobPlan>
    ensures { result ≡ resume_plan place job }
{
    match place {
        JobPlace::Nowhere | JobPlace::Idle => None,
        JobPlace::Held => Some(JobPlan::PutIdle { job }),
        JobPlace::Left { status } | JobPlace::Under { status } => resume_marked(status, job),
    }
}

fn resume_marked(status: JobStatus, job: JobId) -> Option<JobPlan>
    ensures { result ≡ resume_marked status job }
{
    match status {
        JobStatus::Held => Some(JobPlan::MarkRunning { job }),
        _ => None,
    }
}

/// Whether an order to hold does something.
pub fn can_be_held(place: JobPlace) -> bool
    ensures { result ≡ can_be_held place }
{
    match place {
        JobPlace::Nowhere | JobPlace::Held => false,
        JobPlace::Idle => true,
        JobPlace::Left { status } => match status {
            JobStatus::Idle | JobStatus::Running => true,
            _ => false,
        },
        JobPlace::Under { status } => match status {
            JobStatus::Running => true,
            _ => false,
        },
    }
}

/// Whether the job waits until it is released.
pub fn is_waiting(place: JobPlace) -> bool
    ensures { result ≡ is_waiting place }
{
    match place {
        JobPlace::Held => true,
        _ => false,
    }
}
