// Whether the keys of a queue can be printed.

ghost use Rattle.std.specs.Prelude.{◌≡◌, true};
ghost use Rattle.queue_tx.specs.Printable.{HasPrintableKeys, IsPrintableKey};
ghost use Rattle.queue_tx.specs.Queues.{IsQueue};

use claim_id::JobId;
use queue_tx::{Key, Queue};

/// Whether each key of a queue can be printed, without memory. Computes in O(ads * log ads).
pub(crate) fn has_printable_keys(queue: &Queue) -> bool
    ensures { result ≡ true → HasPrintableKeys queue.now }
{
    let mut last: Option<&Key> = None;
    'keys: while let Some(key) = queue.after(last) {
        if !is_printable(queue, key) {
            return false;
        }
        last = Some(key);
    }
    true
}

// Whether a key can be printed. A queue tells at each look that its keys are in order.
fn is_printable(queue: &Queue, key: &Key) -> bool
    ensures order { IsQueue queue.now }
    ensures key { result ≡ true → IsPrintableKey key.now }
{
    let _ = queue.get(key);
    is_printable_key(*key)
}

fn is_printable_key(key: Key) -> bool
    ensures { result ≡ true → IsPrintableKey key }
{
    match key {
        Key::Header => true,
        Key::Proc(JobId { cluster, proc: _ }) => cluster > 0,
    }
}
