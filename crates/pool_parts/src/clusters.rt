// The cluster of the next submission.

ghost use Rattle.std.specs.Prelude.{◌≡◌, is_some};
ghost use Rattle.std.specs.Map.{keys_of};
ghost use Rattle.pool_parts.specs.Clusters.{IsNextCluster, cluster_after, cluster_by, first_cluster, has_cluster, is_of_cluster, is_used};
ghost use Rattle.queue_tx.specs.declared.key.Key.TheVariants.{Header};
ghost use Rattle.queue_tx.specs.Queues.{IsQueue, ad_at};

use crate::finished::Finished;
use claim_id::JobId;
use queue_tx::{Key, NEXT_CLUSTER_NUM, Queue};
use schedd_plan::natural_at;
use std::ops::Bound;

/// The last number that a cluster may have.
pub const LAST_CLUSTER: u32 = 4_294_967_294;

/// The first number from NextClusterNum on, and from 1 after the last one, that no cluster of the
/// queue has, nor one of which a job has left it. A NextClusterNum that is no number of a cluster
/// counts as 1. Computes in O(log jobs) for each number up to that one, without memory.
pub fn next_cluster(queue: &Queue, finished: &Finished) -> u32
    ensures { IsNextCluster queue.now finished.now result }
{
    let mut cluster = first_cluster(queue);
    'clusters: for _ in 0..LAST_CLUSTER {
        if !is_used(queue, finished, cluster) {
            return cluster;
        }
        cluster = cluster_after(cluster);
    }
    cluster
}

fn first_cluster(queue: &Queue) -> u32
    ensures { result ≡ first_cluster queue.now }
{
    match queue.get(&Key::Header) {
        Some(header) => cluster_by(natural_at(header, NEXT_CLUSTER_NUM)),
        None => 1,
    }
}

fn cluster_by(number: Option<u64>) -> u32
    ensures { result ≡ cluster_by number }
{
    match number {
        Some(number) if 1 <= number && number <= u64::from(LAST_CLUSTER) => number as u32,
        _ => 1,
    }
}

fn cluster_after(cluster: u32) -> u32
    ensures { result ≡ cluster_after cluster }
{
    if cluster < LAST_CLUSTER {
        cluster + 1
    } else {
        1
    }
}

fn is_used(queue: &Queue, finished: &Finished, cluster: u32) -> bool
    ensures { result ≡ is_used queue.now finished.now cluster }
{
    has_cluster(queue, cluster) || was_cluster(finished, cluster)
}

fn is_of_cluster(key: &Key, cluster: u32) -> bool
    ensures { result ≡ is_of_cluster cluster key.now }
{
    match key {
        Key::Proc(job) => job.cluster == cluster,
        Key::Header => false,
    }
}

fn has_cluster(queue: &Queue, cluster: u32) -> bool
    ensures { result ≡ has_cluster cluster (keys_of queue.now) }
{
    let first = Key::Proc(JobId { cluster, proc: 0 });
    if has_key(queue, &first) {
        return true;
    }
    match queue.after(Some(&first)) {
        Some(key) => is_of_cluster(key, cluster),
        None => false,
    }
}

fn has_key(queue: &Queue, key: &Key) -> bool
    ensures there { result ≡ is_some (ad_at key.now queue.now) }
    ensures ordered { IsQueue queue.now }
{
    queue.get(key).is_some()
}

fn was_cluster(finished: &Finished, cluster: u32) -> bool
    ensures { result ≡ has_cluster cluster (keys_of finished.now) }
{
    let first = Key::Proc(JobId { cluster, proc: 0 });
    match finished.first_past(Bound::Included(&first)) {
        Some((key, _)) => is_of_cluster(key, cluster),
        None => false,
    }
}
