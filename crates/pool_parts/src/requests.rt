// What jobs ask for.

ghost use Rattle.std.specs.Prelude.{◌≡◌, ◌++◌, filter_map, IfOk};
ghost use Rattle.pool_parts.specs.Listings.{one_request, request_at};

use ad_value::Memory;
use claim_id::JobId;
use pool_mail::{Request, RequestList, request_ad};
use queue_tx::{Key, Queue};
use std::alloc::Global;

/// What jobs of the queue ask for, in order, with ads that share their attributes. Computes in
/// O(jobs times log ads).
pub fn requests_of(alloc: Global, queue: &Queue, jobs: &[JobId]) -> Result<RequestList, Memory>
    ensures { IfOk result (λ list. list ≡ filter_map (request_at queue.now) jobs.now) }
{
    let mut list = RequestList::new(alloc);
    for job in jobs {
        push_request(alloc, &mut list, queue, *job)?;
    }
    Ok(list)
}

fn push_request(
    alloc: Global,
    list: &mut RequestList,
    queue: &Queue,
    job: JobId,
) -> Result<(), Memory>
    ensures { IfOk result (λ _. list.new ≡ list.old ++ one_request (request_at queue.now job)) }
{
    if let Some(ad) = queue.get(&Key::Proc(job)) {
        let ad = request_ad(alloc, ad)?;
        list.push(Request { job, ad })?;
    }
    Ok(())
}
