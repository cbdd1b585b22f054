ghost use Rattle.std.specs.Prelude.{◌≡◌, ◌+◌, ◌≤◌, ◌<◌, ◌++◌, ◌↔◌, length, slice_get, IfOk, IsTrue, IsSome};
ghost use Rattle.std.specs.Option.{option_map};
ghost use Rattle.indexmap.specs.IndexMap.{spare};
ghost use Rattle.pool_view.specs.Numbers.{same_job};
ghost use Rattle.thin_pool.specs.PoolValue.{HasKeysOnce, job_at};
ghost use Rattle.thin_pool.specs.Jobs.{idle_at, idle_jobs, has_unfinished};
ghost use Rattle.thin_pool.specs.Reactions.{idle_ads, numbered_jobs, with_phase};

use crate::ads::after_first;
use crate::job::{Job, MAX_JOBS, Phase};
use ad_tree::{Ad, AdList};
use ad_value::{Copied, Memory};
use claim_id::JobId;
use indexmap::IndexMap;
use std::alloc::Global;

pub(crate) type JobTable = IndexMap<JobId, Job>;

// Copies of the idle jobs' ads.
pub(crate) fn idle_ads(alloc: Global, jobs: &JobTable) -> Result<AdList, Memory>
    ensures { IfOk result (λ l. l ≡ idle_ads jobs.now.entries) }
{
    let mut ads = AdList::new(alloc);
    for (_, job) in jobs {
        if job.phase.is_idle() {
            ads.push(job.ad.copy(alloc)?)?;
        }
    }
    Ok(ads)
}

// Whether these are the idle jobs' ads.
pub(crate) fn are_idle_ads(ads: &[Ad], jobs: &JobTable) -> bool
    ensures { IsTrue result ↔ (ads.now ≡ idle_ads jobs.now.entries) }
{
    let mut left = ads;
    for (_, job) in jobs {
        if !job.phase.is_idle() {
            continue;
        }
        match after_first(left, &job.ad) {
            Some(rest) => left = rest,
            None => return false,
        }
    }
    left.is_empty()
}

// The idle job at a place among the idle ones.
pub(crate) fn idle_job(jobs: &JobTable, place: usize) -> Option<(JobId, &Ad)>
    ensures { option_map (λ e. (e.0, e.1.now)) result ≡ slice_get (idle_jobs jobs.now.entries)
        place }
{
    let mut left = place;
    for (id, job) in jobs {
        if !job.phase.is_idle() {
            continue;
        }
        if left == 0 {
            return Some((*id, &job.ad));
        }
        left -= 1;
    }
    None
}

// The job at a place among all, where it is idle.
pub(crate) fn idle_at(jobs: &JobTable, place: usize) -> Option<(JobId, &Ad)>
    ensures { option_map (λ e. (e.0, e.1.now)) result ≡ idle_at place jobs.now.entries }
{
    let (id, job) = jobs.get_index(place)?;
    if job.phase.is_idle() {
        Some((*id, &job.ad))
    } else {
        None
    }
}

pub(crate) fn has_unfinished(jobs: &JobTable) -> bool
    ensures { result ≡ has_unfinished jobs.now.entries }
{
    for (_, job) in jobs {
        if !job.phase.is_finished() {
            return true;
        }
    }
    false
}

// An equal table.
pub(crate) fn copy_jobs(alloc: Global, jobs: &JobTable) -> Result<JobTable, Memory>
    requires { HasKeysOnce same_job jobs.now.entries }
    ensures { IfOk result (λ t. t.entries ≡ jobs.now.entries) }
{
    let mut table = IndexMap::new(alloc);
    for (id, job) in jobs {
        table.insert(*id, job.copy(alloc)?)?;
    }
    Ok(table)
}

// Adds the jobs of a new cluster; there is room for them.
pub(crate) fn add_jobs(jobs: &mut JobTable, cluster: u32, ads: Vec<Ad>)
    requires few { length ads.items ≤ MAX_JOBS }
    requires room { length ads.items ≤ spare jobs.old }
    requires new { (id : JobId) → IsSome (job_at id jobs.old.entries) → id.cluster < cluster }
    ensures { jobs.new.entries ≡ jobs.old.entries ++ numbered_jobs cluster 0 ads.items }
{
    let mut proc = 0;
    for ad in ads {
        let phase = Phase::Idle;
        jobs.insert(JobId { cluster, proc }, Job { ad, phase })
            .unwrap();
        proc += 1;
    }
}

// The job, which is there, stands so.
pub(crate) fn set_phase(jobs: &mut JobTable, job: JobId, phase: Phase)
    ensures { jobs.new.entries ≡ with_phase job phase jobs.old.entries }
{
    if let Some(job) = jobs.get_mut(&job) {
        job.phase = phase;
    }
}
