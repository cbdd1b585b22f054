ghost use Rattle.std.specs.Prelude.{◌≡◌, Some};
ghost use Rattle.ad_tree.specs.Tree.{tree};
ghost use Rattle.queue_tx.specs.Jobs.{kind_under};
ghost use Rattle.queue_tx.specs.Kinds.{kind_of, kind_numbered, status_kind};

use crate::key::Key;
use ad_tree::{Ad, Expr};
use ad_value::Value;
use ad_value::names::job::JOB_STATUS;
use ad_value::names::pool::RUN_CLAIM;

/// What a job of the queue is (HTCondor manual, Job ClassAd Attributes, JobStatus).
#[derive(Clone, Copy)]
pub enum JobKind {
    /// It waits for a machine.
    Idle,
    /// It waits until it is released.
    Held,
    /// It is under a claim.
    Under,
}

/// What the ad of a proc makes of its job: it is under a claim where it has RunClaim, else idle or
/// held by its JobStatus, a literal integer. A proc of another kind is no job. Takes no memory.
/// Computes as `Ad::get`.
pub fn kind_of(ad: &Ad) -> Option<JobKind>
    ensures { result ≡ kind_of ad.now }
{
    if ad.get(RUN_CLAIM).is_some() {
        return Some(JobKind::Under);
    }
    status_kind(ad.get(JOB_STATUS)?)
}

// What the ad under a key makes of its job. The header is no job.
pub(crate) fn kind_under(key: &Key, ad: &Ad) -> Option<JobKind>
    ensures { result ≡ kind_under key.now (Some ad.now) }
{
    match key {
        Key::Header => None,
        Key::Proc(_) => kind_of(ad),
    }
}

// What a JobStatus says of a job that is under no claim.
fn status_kind(status: &Expr) -> Option<JobKind>
    ensures { result ≡ status_kind (tree status.now) }
{
    match status {
        Expr::Lit(Value::Int(number)) => kind_numbered(*number),
        _ => None,
    }
}

fn kind_numbered(number: i64) -> Option<JobKind>
    ensures { result ≡ kind_numbered number }
{
    match number {
        1 | 2 => Some(JobKind::Idle),
        5 => Some(JobKind::Held),
        _ => None,
    }
}
