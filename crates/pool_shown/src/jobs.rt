// The jobs that a queue and the finished jobs show.

ghost use Rattle.std.specs.Prelude.{◌≡◌, ℕ, ◌++◌, filter_map, IfOk, List, Option};
ghost use Rattle.claim_id.specs.declared.numbers.ClaimId.{ClaimId};
ghost use Rattle.schedd_state.specs.Reopening.{IsReader};
ghost use Rattle.pool_shown.specs.ShownJobs.{AreShown, entry_by, one_entry, shown_entry, shown_state};

use crate::cores::core_ad;
use crate::finished::push_finished;
use crate::states::state_of_ad;
use ad_tree::Ad;
use ad_value::Memory;
use claim_id::JobId;
use pool_parts::{Finished, jobs_of_kind};
use pool_view::{Entry, JobEntry, JobEntryList};
use queue_tx::{JobKind, Key, Queue};
use schedd_plan::{LeftJobs, is_left};
use std::alloc::Global;

/// The jobs of a queue, of which some were left by an earlier boot of the pool, by kind and in
/// order, and then those that have left it. Computes in O(jobs times (log jobs + log jobs left)),
/// and O(attributes) for each.
pub fn shown_jobs(
    alloc: Global,
    queue: &Queue,
    left: &LeftJobs,
    finished: &Finished,
) -> Result<JobEntryList, Memory>
    ensures { IfOk result (λ entries. (read : List ℕ → Option ClaimId) → IsReader read
        → AreShown read queue.now left.now finished.now entries) }
{
    let idle = jobs_of_kind(alloc, queue, JobKind::Idle)?;
    let held = jobs_of_kind(alloc, queue, JobKind::Held)?;
    let under = jobs_of_kind(alloc, queue, JobKind::Under)?;
    let mut entries = JobEntryList::new(alloc);
    push_jobs(alloc, &mut entries, queue, left, &idle)?;
    push_jobs(alloc, &mut entries, queue, left, &held)?;
    push_jobs(alloc, &mut entries, queue, left, &under)?;
    push_finished(alloc, &mut entries, finished)?;
    Ok(entries)
}

fn push_jobs(
    alloc: Global,
    entries: &mut JobEntryList,
    queue: &Queue,
    left: &LeftJobs,
    jobs: &[JobId],
) -> Result<(), Memory>
    ensures { IfOk result (λ _. (read : List ℕ → Option ClaimId) → IsReader read
        → entries.new ≡ entries.old ++ filter_map (shown_entry read queue.now left.now) jobs.now) }
{
    for job in jobs {
        push_job(alloc, entries, queue, left, *job)?;
    }
    Ok(())
}

fn push_job(
    alloc: Global,
    entries: &mut JobEntryList,
    queue: &Queue,
    left: &LeftJobs,
    job: JobId,
) -> Result<(), Memory>
    ensures { IfOk result (λ _. (read : List ℕ → Option ClaimId) → IsReader read
        → entries.new ≡ entries.old ++ one_entry (shown_entry read queue.now left.now job)) }
{
    match queue.get(&Key::Proc(job)) {
        Some(ad) => push_ad(alloc, entries, ad, is_left(left, job), job),
        None => Ok(()),
    }
}

fn push_ad(
    alloc: Global,
    entries: &mut JobEntryList,
    ad: &Ad,
    left: bool,
    job: JobId,
) -> Result<(), Memory>
    ensures { IfOk result (λ _. (read : List ℕ → Option ClaimId) → IsReader read
        → entries.new ≡ entries.old
        ++ one_entry (entry_by job ad.now (shown_state read left ad.now))) }
{
    let Some(state) = state_of_ad(ad, left) else {
        return Ok(());
    };
    let core = core_ad(alloc, ad)?;
    let entry = Entry { core, state };
    entries.push(JobEntry { job, entry })?;
    Ok(())
}
