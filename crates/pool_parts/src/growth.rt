ghost use Rattle.std.specs.Prelude.{◌≡◌, ◌+◌, ◌-◌, Ok, IfOk};
ghost use Rattle.pool_parts.specs.Sizes.{count_under, queue_count};
ghost use Rattle.pool_parts.specs.Growth.{Grows, keys_count};
ghost use Rattle.queue_tx.specs.Queues.{IsQueue, KeyedAds, ad_at, queue_after};

use crate::ad_size;
use crate::touched::touched_keys;
use ad_value::Memory;
use queue_tx::{Key, Queue, Tx};
use std::alloc::Global;

/// The keys under which a transaction changes ads, and what the ads count that are there before.
pub struct Growth {
    keys: Vec<Key>,
    less: u64,
}

impl Drop for Growth {
    fn drop(self) {
        let Growth {
            keys: _keys,
            less: _,
        } = self;
    }
}

impl Growth {
    /// Of a queue to which a transaction is to be done. Memory too where a count of 64 bits is at
    /// its end. Computes in O(operations * log keys + keys * log ads + size of the ads under the
    /// keys).
    pub fn new(alloc: Global, queue: &Queue, tx: &Tx) -> Result<Growth, Memory>
        ensures { IfOk result (λ g. (new : KeyedAds)
            → queue_after queue.now tx.now ≡ Ok new → Grows g queue.now new) }
    {
        show_order(queue);
        let keys = touched_keys(alloc, tx.ops())?;
        let less = keys_size(queue, keys.as_slice())?;
        Ok(Growth { keys, less })
    }

    /// How many bytes of ads a pool has that had so many, where its queue has become that. Memory
    /// where a count of 64 bits is at its end. Computes in O(keys * log ads + size of the ads under
    /// the keys), without memory.
    pub fn bytes_after(&self, bytes: u64, queue: &Queue) -> Result<u64, Memory>
        ensures { IfOk result (λ all. (old : KeyedAds) → Grows self.now old queue.now
            → all ≡ bytes + queue_count queue.now - queue_count old) }
    {
        show_order(queue);
        let more = keys_size(queue, self.keys.as_slice())?;
        match bytes.checked_add(more) {
            Some(all) => Ok(all.saturating_sub(self.less)),
            None => Err(Memory),
        }
    }
}

// A queue stands in the order of its keys.
fn show_order(queue: &Queue)
    ensures { IsQueue queue.now }
{
    let _ = queue.get(&Key::Header);
}

// What the ads under keys count; Memory where that is 2 to the 64.
fn keys_size(queue: &Queue, keys: &[Key]) -> Result<u64, Memory>
    ensures { IfOk result (λ size. size ≡ keys_count keys.now queue.now) }
{
    let mut size = 0;
    for key in keys {
        size = add_under(size, queue, key)?;
    }
    Ok(size)
}

fn add_under(size: u64, queue: &Queue, key: &Key) -> Result<u64, Memory>
    ensures { IfOk result (λ all. all ≡ size + count_under (ad_at key.now queue.now)) }
{
    let Some(ad) = queue.get(key) else {
        return Ok(size);
    };
    let more = ad_size(ad);
    if more == u64::MAX {
        return Err(Memory);
    }
    match size.checked_add(more) {
        Some(all) => Ok(all),
        None => Err(Memory),
    }
}
