// Where a job stands, by the queue as logged.

ghost use Rattle.std.specs.Prelude.{◌≡◌};
ghost use Rattle.std.specs.Option.{option_copied};
ghost use Rattle.queue_tx.specs.Queues.{ad_at};
ghost use Rattle.queue_tx.specs.declared.key.Key.TheVariants.{Proc};
ghost use Rattle.schedd_plan.specs.JobPlaces.{is_left, job_place, place_in, kind_place, let_go, let_go_ad, is_idle, is_idle_at};

use crate::left::LeftJobs;
use crate::{JobPlan, JobStatus, reason_of, status_of};
use ad_tree::Ad;
use claim_id::JobId;
use queue_tx::{JobKind, Key, Queue, kind_of};

/// Where a job stands.
#[derive(Clone, Copy)]
pub enum JobPlace {
    /// There is no such job.
    Nowhere,
    Idle,
    Held,
    /// It was left by an earlier boot of the pool.
    Left { status: JobStatus },
    /// It is under a run of this boot of the pool.
    Under { status: JobStatus },
}

/// The ad of a job. Computes as `Queue::get`.
pub fn ad_of(queue: &Queue, job: JobId) -> Option<&Ad>
    ensures { option_copied result ≡ ad_at (Proc job) queue.now }
{
    queue.get(&Key::Proc(job))
}

/// Whether a job was left by an earlier boot. Computes in O(log jobs left), without memory.
pub fn is_left(left: &LeftJobs, job: JobId) -> bool
    ensures { result ≡ is_left job left.now }
{
    left.has(job)
}

/// Where a job of the queue stands. Computes as `Queue::get` and `is_left`.
pub fn job_place(queue: &Queue, left: &LeftJobs, job: JobId) -> JobPlace
    ensures { result ≡ job_place queue.now left.now job }
{
    match ad_of(queue, job) {
        Some(ad) => place_in(ad, is_left(left, job)),
        None => JobPlace::Nowhere,
    }
}

/// Where the ad of a job says that it stands. Computes as `Ad::get`.
pub fn place_in(ad: &Ad, left: bool) -> JobPlace
    ensures { result ≡ place_in left ad.now }
{
    kind_place(kind_of(ad), left, status_of(ad))
}

fn kind_place(kind: Option<JobKind>, left: bool, status: JobStatus) -> JobPlace
    ensures { result ≡ kind_place kind left status }
{
    match kind {
        None => JobPlace::Nowhere,
        Some(JobKind::Idle) => JobPlace::Idle,
        Some(JobKind::Held) => JobPlace::Held,
        Some(JobKind::Under) => {
            if left {
                JobPlace::Left { status }
            } else {
                JobPlace::Under { status }
            }
        }
    }
}

/// Whether a job is idle. Computes as `Queue::get`.
pub fn is_idle_at(queue: &Queue, job: JobId) -> bool
    ensures { result ≡ is_idle_at queue.now job }
{
    match ad_of(queue, job) {
        Some(ad) => is_idle(kind_of(ad)),
        None => false,
    }
}

fn is_idle(kind: Option<JobKind>) -> bool
    ensures { result ≡ is_idle kind }
{
    match kind {
        Some(JobKind::Idle) => true,
        _ => false,
    }
}

/// What becomes of a job that is let go: held or removed where it is marked so, else idle.
/// Computes as `Queue::get`.
pub fn let_go(queue: &Queue, job: JobId) -> JobPlan
    ensures { result ≡ let_go queue.now job }
{
    match ad_of(queue, job) {
        Some(ad) => let_go_ad(job, ad),
        None => JobPlan::PutIdle { job },
    }
}

/// The same, by the job's ad. Computes as `Ad::get`.
pub fn let_go_ad(job: JobId, ad: &Ad) -> JobPlan
    ensures { result ≡ let_go_ad job ad.now }
{
    match status_of(ad) {
        JobStatus::Held => JobPlan::PutHeld {
            job,
            reason: reason_of(ad),
        },
        JobStatus::Removed => JobPlan::Remove { job },
        _ => JobPlan::PutIdle { job },
    }
}
