// Lists that grow without memory, by items that were made beforehand.

ghost use Rattle.std.specs.Prelude.{◌≡◌, ◌+◌, ◌<◌, ◌++◌, ◌∷◌, [], IfOk, OnOk};
ghost use Rattle.pool_steps.specs.Growing.{HasPlaces};
ghost use Rattle.pool_rules.specs.Logging.{cluster_jobs};
ghost use Rattle.pool_rules.specs.Schedds.{jobs_in};
ghost use Rattle.pool_rules.specs.Startds.{reports_in};

use ad_value::Memory;
use claim_id::JobId;
use pool_view::EndReport;
use std::alloc::Global;
use std::collections::LinkedList;

const MANY: usize = 0x4000_0000_0000_0000;

// One item for the end of a list. Memory too where either would have 2 to the 62 items.
fn one_item<T: Drop>(
    alloc: Global,
    list: &LinkedList<T, Global>,
    item: T,
) -> Result<LinkedList<T, Global>, Memory>
    ensures items { IfOk result (λ more. more ≡ item ∷ []) }
    ensures places { IfOk result (HasPlaces list.now) }
{
    let mut more = LinkedList::new(alloc);
    more.push_back(item)?;
    if list.len() >= MANY || more.len() >= MANY {
        return Err(Memory);
    }
    Ok(more)
}

/// A job, perhaps none, for the end of a list. Memory too where either would have 2 to the 62
/// items. Computes in O(1).
pub fn maybe_job(
    alloc: Global,
    list: &LinkedList<JobId, Global>,
    job: Option<JobId>,
) -> Result<LinkedList<JobId, Global>, Memory>
    ensures items { IfOk result (λ more. more ≡ jobs_in job) }
    ensures places { IfOk result (HasPlaces list.now) }
{
    match job {
        Some(job) => one_item(alloc, list, job),
        None => no_item(alloc, list),
    }
}

/// A report, perhaps none, for the end of a list. Memory too where either would have 2 to the 62
/// items.
pub(crate) fn maybe_report(
    alloc: Global,
    list: &LinkedList<EndReport, Global>,
    report: Option<EndReport>,
) -> Result<LinkedList<EndReport, Global>, Memory>
    ensures items { IfOk result (λ more. more ≡ reports_in report) }
    ensures places { IfOk result (HasPlaces list.now) }
{
    match report {
        Some(report) => one_item(alloc, list, report),
        None => no_item(alloc, list),
    }
}

/// The first jobs of a cluster for the end of a list. Memory too where either would have 2 to the
/// 62 items. Computes in O(jobs).
pub fn new_jobs(
    alloc: Global,
    list: &LinkedList<JobId, Global>,
    cluster: u32,
    count: u32,
) -> Result<LinkedList<JobId, Global>, Memory>
    ensures items { IfOk result (λ more. more ≡ cluster_jobs cluster count) }
    ensures places { IfOk result (HasPlaces list.now) }
{
    let mut more = LinkedList::new(alloc);
    for proc in 0..count {
        push_job(&mut more, cluster, proc)?;
    }
    if list.len() >= MANY || more.len() >= MANY {
        return Err(Memory);
    }
    Ok(more)
}

#[tactic(auto, using(crate::proofs::Clusters::one_job))]
fn push_job(jobs: &mut LinkedList<JobId, Global>, cluster: u32, proc: u32) -> Result<(), Memory>
    ensures { OnOk result (jobs.old ≡ cluster_jobs cluster proc
        → jobs.new ≡ cluster_jobs cluster (proc + 1)) }
{
    jobs.push_back(JobId { cluster, proc })?;
    Ok(())
}

fn no_item<T: Drop>(
    alloc: Global,
    list: &LinkedList<T, Global>,
) -> Result<LinkedList<T, Global>, Memory>
    ensures items { IfOk result (λ more. more ≡ []) }
    ensures places { IfOk result (HasPlaces list.now) }
{
    let more = LinkedList::new(alloc);
    if list.len() >= MANY {
        return Err(Memory);
    }
    Ok(more)
}

/// Items come to the end of a list, without memory. Computes in O(1).
pub fn join<T: Drop>(list: &mut LinkedList<T, Global>, more: LinkedList<T, Global>)
    requires { HasPlaces list.old more }
    ensures { list.new ≡ list.old ++ more }
{
    let mut more = more;
    list.append(&mut more).unwrap();
}
