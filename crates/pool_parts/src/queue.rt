// How many printed bytes a queue counts.

ghost use Rattle.std.specs.Prelude.{◌≡◌, ◌+◌, min};
ghost use Rattle.queue_tx.specs.Queues.{IsQueue, ad_at};
ghost use Rattle.pool_parts.specs.Sizes.{count_under, queue_count};

use crate::size::add_ad;
use queue_tx::{Key, Queue};

/// How many printed bytes the ads of a queue count, without memory. Stops at 18446744073709551615.
/// Computes in O(size of the ads + ads times log ads).
pub fn queue_size(queue: &Queue) -> u64
    ensures { result ≡ min (queue_count queue.now) u64.MAX }
{
    let mut size = 0;
    let mut last: Option<&Key> = None;
    'ads: while let Some(key) = queue.after(last) {
        size = add_under(size, queue, key);
        last = Some(key);
    }
    size
}

fn add_under(size: u64, queue: &Queue, key: &Key) -> u64
    ensures size { result ≡ min (size + count_under (ad_at key.now queue.now)) u64.MAX }
    ensures ordered { IsQueue queue.now }
{
    match queue.get(key) {
        Some(ad) => add_ad(size, ad),
        None => size,
    }
}
