// The jobs that have left the queue.

ghost use Rattle.std.specs.Prelude.{◌≡◌};
ghost use Rattle.pool_parts.specs.FinishedJobs.{is_finished};

use ad_tree::Ad;
use ad_value::{Copied, Memory};
use claim_id::JobId;
use ordered_map::OrderedMap;
use pool_view::Outcome;
use queue_tx::Key;
use std::alloc::Global;

/// How a job left the queue, and the ad that it had there last.
pub struct FinishedJob {
    pub outcome: Outcome,
    pub ad: Ad,
}

impl Drop for FinishedJob {
    fn drop(self) {
        let FinishedJob {
            outcome: _,
            ad: _ad,
        } = self;
    }
}

impl Copied for FinishedJob {
    /// An equal value, whose ad shares its attributes. Computes in O(attributes), a byte each.
    fn copy(&self, alloc: Global) -> Result<FinishedJob, Memory> {
        Ok(FinishedJob {
            outcome: self.outcome,
            ad: self.ad.copy(alloc)?,
        })
    }
}

/// The jobs that have left the queue, in order of the jobs. A copy is an equal map, and computes in
/// O(jobs + attributes of their ads), a byte for each attribute.
pub type Finished = OrderedMap<Key, FinishedJob>;

/// Whether a job has left the queue, without memory. Computes in O(log jobs).
pub fn is_finished(finished: &Finished, job: JobId) -> bool
    ensures { result ≡ is_finished job finished.now }
{
    finished.get(&Key::Proc(job)).is_some()
}
