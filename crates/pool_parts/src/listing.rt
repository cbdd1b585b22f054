// Jobs of a kind, one after the other.

ghost use Rattle.std.specs.Prelude.{None, option_map, IfOk};
ghost use Rattle.queue_tx.specs.Jobs.{FirstKey, IsJobOf};
ghost use Rattle.queue_tx.specs.declared.key.Key.TheVariants.{Proc};
ghost use Rattle.pool_parts.specs.Listings.{AreJobs, NextJob};

use ad_value::Memory;
use claim_id::JobId;
use queue_tx::{JobKind, Key, Queue};
use std::alloc::Global;
use std::ops::Bound;

// The first job of a kind past a bound.
fn first_job(queue: &Queue, kind: JobKind, start: Bound<&Key>) -> Option<JobId>
    ensures { FirstKey (IsJobOf kind queue.now) start.entry (option_map Proc result) }
{
    let key = queue.first_of_kind(kind, start)?;
    match key {
        Key::Proc(job) => Some(*job),
        Key::Header => None,
    }
}

/// The first job of a kind, of those after another job or of all, by the order of the jobs, without
/// memory. Computes in O(log jobs).
pub fn next_job(queue: &Queue, kind: JobKind, last: Option<JobId>) -> Option<JobId>
    ensures { NextJob kind queue.now last result }
{
    match last {
        Some(last) => {
            let key = Key::Proc(last);
            first_job(queue, kind, Bound::Excluded(&key))
        }
        None => first_job(queue, kind, Bound::Unbounded),
    }
}

/// The jobs of a kind, in order. Computes in O(jobs of the kind times log jobs).
#[tactic(auto, using(crate::proofs::InOrder::listed_more, crate::proofs::InOrder::fewer_later))]
pub fn jobs_of_kind(alloc: Global, queue: &Queue, kind: JobKind) -> Result<Vec<JobId>, Memory>
    ensures { IfOk result (λ jobs. AreJobs kind queue.now None jobs.items) }
{
    let mut jobs = Vec::new(alloc);
    let mut last = None;
    'listing: while let Some(job) = next_job(queue, kind, last) {
        jobs.push(job)?;
        last = Some(job);
    }
    Ok(jobs)
}
