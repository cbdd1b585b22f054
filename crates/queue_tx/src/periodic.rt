ghost use Rattle.std.specs.Prelude.{◌≡◌, IfOk, Some};
ghost use Rattle.std.specs.Option.{option_map};
ghost use Rattle.queue_tx.specs.Periodic.{has_periodic, is_periodic, periodic_key, KeepsKey};

use crate::kept::{Here, KeySet, clear, set};
use crate::key::Key;
use crate::kind::kind_of;
use ad_tree::Ad;
use ad_value::Memory;
use ad_value::names::job::{PERIODIC_HOLD, PERIODIC_RELEASE, PERIODIC_REMOVE};
use ordered_map::NewEntry;
use std::alloc::Global;

/// Whether the ad of a proc is one of a job and has a periodic expression: PeriodicHold,
/// PeriodicRemove or PeriodicRelease. Takes no memory. Computes as `Ad::get`.
pub fn has_periodic(ad: &Ad) -> bool
    ensures { result ≡ has_periodic ad.now }
{
    kind_of(ad).is_some()
        && (ad.get(PERIODIC_HOLD).is_some()
            || ad.get(PERIODIC_REMOVE).is_some()
            || ad.get(PERIODIC_RELEASE).is_some())
}

fn is_periodic(key: &Key, ad: &Ad) -> bool
    ensures { result ≡ is_periodic key.now (Some ad.now) }
{
    match key {
        Key::Header => false,
        Key::Proc(_) => has_periodic(ad),
    }
}

// The key of an ad, with the memory for it in the set, where the ad has a periodic expression.
pub(crate) fn new_periodic(
    alloc: Global,
    key: &Key,
    ad: &Ad,
) -> Result<Option<NewEntry<Key, Here>>, Memory>
    ensures { IfOk result (λ new. option_map (λ e. e.0) new ≡ periodic_key key.now ad.now) }
{
    if is_periodic(key, ad) {
        Ok(Some(NewEntry::new(alloc, *key, Here)?))
    } else {
        Ok(None)
    }
}

// An entry comes into the set, or the key goes out of it.
pub(crate) fn keep(keys: &mut KeySet, key: &Key, entry: Option<NewEntry<Key, Here>>)
    ensures { KeepsKey key.now entry keys.old keys.new }
{
    match entry {
        Some(entry) => set(keys, entry),
        None => clear(keys, key),
    }
}
