// Jobs of the queue, one after the other.

ghost use Rattle.std.specs.Prelude.{◌≡◌, None, option_map, IfOk};
ghost use Rattle.std.specs.declared.ops.Bound.TheVariants.{Unbounded};
ghost use Rattle.queue_tx.specs.Jobs.{FirstKey, IsJobOf};
ghost use Rattle.queue_tx.specs.declared.key.Key.TheVariants.{Proc};
ghost use Rattle.queue_tx.specs.declared.kind.JobKind.TheVariants.{Under};
ghost use Rattle.schedd_state.specs.Searches.{AreUnder, IsFree, NextUnder, is_engaged_key};

use ad_tree::Ad;
use ad_value::Memory;
use claim_id::JobId;
use queue_tx::{JobKind, Key, Queue};
use schedd_plan::{KeptClaim, LeftJobs, engages};
use std::alloc::Global;
use std::ops::Bound;

fn is_engaged_key(claims: &[KeptClaim], key: &Key) -> bool
    ensures { result ≡ is_engaged_key claims.now key.now }
{
    match key {
        Key::Header => false,
        Key::Proc(job) => engages(claims, *job),
    }
}

/// The first idle job that makes the same request as an ad, and that no claim engages. Computes as
/// `Queue::first_asking`, and in O(claims), for each engaged job up to it.
#[tactic(auto, using(crate::proofs::Free::is_free, crate::proofs::Free::reached_first))]
pub fn first_free(queue: &Queue, claims: &[KeptClaim], ad: &Ad) -> Option<Key>
    ensures { FirstKey (IsFree claims.now ad.now queue.now) Unbounded result }
{
    let mut key = queue.first_asking(ad, Bound::Unbounded)?;
    'asking: while is_engaged_key(claims, key) {
        key = queue.first_asking(ad, Bound::Excluded(key))?;
    }
    Some(*key)
}

// The first job that is under a claim past a bound.
fn first_under(queue: &Queue, start: Bound<&Key>) -> Option<JobId>
    ensures { FirstKey (IsJobOf Under queue.now) start.entry (option_map Proc result) }
{
    let key = queue.first_of_kind(JobKind::Under, start)?;
    match key {
        Key::Proc(job) => Some(*job),
        Key::Header => None,
    }
}

// The first job that is under a claim, of those after another job or of all.
fn next_under(queue: &Queue, last: Option<JobId>) -> Option<JobId>
    ensures { NextUnder queue.now last result }
{
    match last {
        Some(last) => {
            let key = Key::Proc(last);
            first_under(queue, Bound::Excluded(&key))
        }
        None => first_under(queue, Bound::Unbounded),
    }
}

/// The jobs that are under a claim, in order. Computes in O(jobs under a claim times log jobs).
#[tactic(auto, using(crate::proofs::Listing::listed_more, crate::proofs::Listing::fewer_later))]
pub fn under_jobs(alloc: Global, queue: &Queue) -> Result<Vec<JobId>, Memory>
    ensures { IfOk result (λ jobs. AreUnder queue.now None jobs.items) }
{
    let mut jobs = Vec::new(alloc);
    let mut last = None;
    'under: while let Some(job) = next_under(queue, last) {
        jobs.push(job)?;
        last = Some(job);
    }
    Ok(jobs)
}

// The same jobs, as those that were left.
#[tactic(auto, using(crate::proofs::Listing::under_in_order))]
pub(crate) fn left_jobs(alloc: Global, queue: &Queue) -> Result<LeftJobs, Memory>
    ensures { IfOk result (λ left. AreUnder queue.now None left) }
{
    let jobs = under_jobs(alloc, queue)?;
    LeftJobs::of(alloc, &jobs)
}
