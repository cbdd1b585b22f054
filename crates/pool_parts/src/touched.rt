// The keys under which a transaction changes ads.

ghost use Rattle.std.specs.Prelude.{◌≡◌, ◌||◌, [], is_some, map, IfOk, OnOk};
ghost use Rattle.std.specs.Map.{lookup};
ghost use Rattle.pool_parts.specs.Growth.{AreDistinct, is_among, is_touched};
ghost use Rattle.pool_parts.specs.Noted.{AreNoted};
ghost use Rattle.queue_tx.specs.declared.key.Key.{Key};
ghost use Rattle.queue_tx.specs.Keys.{same_key};
ghost use Rattle.queue_tx.specs.Operations.{operation};

use ad_value::Memory;
use ordered_map::{NewEntry, OrderedMap};
use queue_tx::{Key, Op};
use std::alloc::Global;

// Keys, each once, in the order in which they came, and the same in their order.
#[derive(Drop)]
struct Noted {
    keys: Vec<Key>,
    seen: OrderedMap<Key, bool>,
}

impl Noted {
    fn new(alloc: Global) -> Noted
        ensures keys { result.keys.items ≡ [] }
        ensures noted { AreNoted result }
    {
        Noted {
            keys: Vec::new(alloc),
            seen: OrderedMap::new(),
        }
    }

    fn has(&self, key: &Key) -> bool
        ensures { result ≡ is_some (lookup (same_key key.now) self.now.seen) }
    {
        self.seen.get(key).is_some()
    }

    // A key more, where it isn't there. Computes in O(log keys).
    fn note(&mut self, alloc: Global, key: Key) -> Result<(), Memory>
        requires noted { AreNoted self.old }
        ensures keys { OnOk result ((k : Key) → is_among k self.new.keys.items
            ≡ is_among k self.old.keys.items || same_key k key) }
        ensures noted { OnOk result (AreNoted self.new) }
    {
        if self.has(&key) {
            return Ok(());
        }
        let entry = NewEntry::new(alloc, key, true)?;
        self.keys.push(key)?;
        self.seen.put(entry);
        Ok(())
    }
}

/// The keys of operations, each once. Computes in O(operations * log keys).
pub(crate) fn touched_keys(alloc: Global, ops: &[Op]) -> Result<Vec<Key>, Memory>
    ensures distinct { IfOk result (λ keys. AreDistinct keys.items) }
    ensures touched { IfOk result (λ keys. (key : Key)
        → is_among key keys.items ≡ is_touched key (map operation ops.now)) }
{
    let mut noted = Noted::new(alloc);
    for op in ops {
        noted.note(alloc, op.key())?;
    }
    let Noted { keys, seen: _seen } = noted;
    Ok(keys)
}
