ghost use Rattle.std.specs.Prelude.{◌≡◌, ◌↔◌, IfOk, IfSome};
ghost use Rattle.claim_id.specs.declared.numbers.JobId.{JobId};
ghost use Rattle.claim_id.specs.Texts.{job_text, IsJob};

use crate::number::number_before;
use crate::numbers::JobId;
use ad_value::{Memory, Text, number_in};
use std::alloc::Global;
use thiserror::Error;

/// A text that is no job's.
#[derive(Clone, Copy, Debug, Error)]
#[error("not a job's number, as 1.0 is one")]
pub struct NotAJob;

impl JobId {
    /// The job's text, `CLUSTER.PROC`. Computes in O(1).
    #[tactic(auto, unfolding(crate::specs::Texts::job_text))]
    pub fn print(&self, alloc: Global) -> Result<Text, Memory>
        ensures { IfOk result (λ text. text ≡ job_text self.now) }
    {
        let (cluster, proc) = (self.cluster, self.proc);
        Ok(Text::from(format!(in alloc; "{cluster}.{proc}")?))
    }

    /// The job whose text this is, `NotAJob` exactly where there is none. Computes in O(bytes),
    /// without memory.
    pub fn read(text: &str) -> Result<JobId, NotAJob>
        ensures { (job : JobId) → (result ≡ Ok job) ↔ (IsJob job × (text.now ≡ job_text job)) }
    {
        job_of(text).ok_or(NotAJob)
    }
}

// The job whose text this is.
#[tactic(auto, unfolding(crate::specs::Texts::job_text))]
fn job_of(text: &str) -> Option<JobId>
    ensures found { IfSome result (λ job. IsJob job × (text.now ≡ job_text job)) }
    ensures only { (job : JobId) → IsJob job → text.now ≡ job_text job → result ≡ Some job }
{
    let (cluster, rest) = number_before(text, '.')?;
    job_id(cluster, number_in(rest)?)
}

// The job of these numbers, where they are in their ranges.
fn job_id(cluster: u64, proc: u64) -> Option<JobId>
    ensures { (job : JobId) → (result ≡ Some job)
        ↔ (IsJob job × (cluster ≡ job.cluster) × (proc ≡ job.proc)) }
{
    if cluster == 0 {
        return None;
    }
    Some(JobId {
        cluster: u32::try_from(cluster).ok()?,
        proc: u32::try_from(proc).ok()?,
    })
}
