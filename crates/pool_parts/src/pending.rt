ghost use Rattle.std.specs.Prelude.{◌≡◌};
ghost use Rattle.pool_parts.specs.Plans.{leaving_job, ordered_job};

use ad_value::{Copied, Memory};
use claim_id::JobId;
use queue_tx::Tx;
use schedd_plan::JobPlan;
use std::alloc::Global;

/// What an unfinished transaction is to do.
#[derive(Clone, Copy)]
pub enum Unfinished {
    /// So many jobs come into the queue, as one cluster.
    Submission { cluster: u32, count: u32 },
    /// A job's plan.
    Plan { plan: JobPlan },
}

/// The unfinished transaction.
pub struct Pending {
    /// The place that it is to have on the log's roll.
    pub number: u64,
    pub tx: Tx,
    pub what: Unfinished,
}

impl Drop for Pending {
    fn drop(self) {
        let Pending {
            number: _,
            tx: _tx,
            what: _,
        } = self;
    }
}

impl Copied for Unfinished {
    /// An equal value, without memory. Computes in O(1).
    fn copy(&self, _: Global) -> Result<Unfinished, Memory> {
        Ok(*self)
    }
}

impl Copied for Pending {
    /// An equal value. Computes in O(size of the transaction).
    fn copy(&self, alloc: Global) -> Result<Pending, Memory> {
        Ok(Pending {
            number: self.number,
            tx: self.tx.copy(alloc)?,
            what: self.what,
        })
    }
}

/// The job that a plan takes out of the queue. Computes in O(1).
pub fn leaving_job(plan: JobPlan) -> Option<JobId>
    ensures { result ≡ leaving_job plan }
{
    match plan {
        JobPlan::Complete { job, .. } | JobPlan::Remove { job } => Some(job),
        _ => None,
    }
}

/// The job that a plan removes, at once or when its run has ended. Computes in O(1).
pub fn ordered_job(plan: Option<JobPlan>) -> Option<JobId>
    ensures { result ≡ ordered_job plan }
{
    match plan {
        Some(JobPlan::Remove { job }) | Some(JobPlan::MarkRemoved { job }) => Some(job),
        _ => None,
    }
}
