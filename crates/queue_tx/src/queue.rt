ghost use Rattle.std.specs.Prelude.{◌≡◌, ◌≢◌, ◌↔◌, [], IsSomeAnd, IsTrue, Ok, Err, IfOk, IfErr, OnOk, OnErr};
ghost use Rattle.std.specs.Option.{option_copied};
ghost use Rattle.ordered_map.specs.Trees.{is_past};
ghost use Rattle.queue_tx.specs.Asked.{DoIdleNamesDiffer, IsAskedBy};
ghost use Rattle.queue_tx.specs.Keys.{key_cmp, is_above};
ghost use Rattle.queue_tx.specs.declared.key.Key.{Key};
ghost use Rattle.queue_tx.specs.declared.error.ApplyError.TheVariants as error;
ghost use Rattle.queue_tx.specs.Queues.{ad_at, key_after, queue_after, with_ad, with_changes, IsQueue};
ghost use Rattle.queue_tx.specs.Jobs.{FirstKey, IsJobOf};
ghost use Rattle.queue_tx.specs.Periodic.{IsPeriodic};
ghost use Rattle.queue_tx.specs.Prepared.{change_of};
ghost use Rattle.queue_tx.specs.Requests.{IsIdleAsking, SameRequest};
ghost use Rattle.queue_tx.specs.Roomy.{IsRoomy};

use crate::asked::{AskedSet, asked_under, first_asked, replace};
use crate::error::ApplyError;
use crate::kept::{KeySet, Kinds, ReadyEntries, clear};
use crate::key::Key;
use crate::kind::JobKind;
use crate::periodic::keep;
use crate::prepared::{Change, Prepared, changes_of};
use crate::request::{makes_same_request, request_digest};
use crate::tx::Tx;
use ad_tree::Ad;
use ad_value::{Copied, Memory};
use ordered_map::OrderedMap;
use std::alloc::Global;
use std::marker::Model;
use std::ops::Bound;

/// The job queue: a map from keys to ads. Contracts see the list of keys and ads, in order of key.
pub struct Queue {
    ads: OrderedMap<Key, Ad>,
    kinds: Kinds,
    // The keys of the jobs with a periodic expression.
    periodic: KeySet,
    // The idle jobs by what they ask for.
    asked: AskedSet,
}

impl Drop for Queue {
    fn drop(self) {
        let Queue {
            ads: _ads,
            kinds: _kinds,
            periodic: _periodic,
            asked: _asked,
        } = self;
    }
}

impl Model for Queue {
    ghost use Rattle.queue_tx.specs.Queues.{KeyedAds, queue_code};

    ghost Value = { KeyedAds };

    ghost coded = { queue_code };

    ghost view = { λ q. q.ads };

    ghost use Rattle.queue_tx.specs.Kept.{AreKinds};
    ghost use Rattle.queue_tx.specs.Asked.{ArePlaces, DoIdleNamesDiffer};
    ghost use Rattle.queue_tx.specs.Periodic.{ArePeriodic};
    ghost use Rattle.queue_tx.specs.Roomy.{IsRoomy};

    ghost invariant = { λ q. AreKinds q.kinds q.ads
        × ArePlaces q.asked q.ads
        × DoIdleNamesDiffer q.ads
        × ArePeriodic q.periodic q.ads
        × IsRoomy q.ads };
}

impl Queue {
    /// The queue without ads, without memory. Computes in O(1).
    pub fn new() -> Queue
        ensures { result ≡ [] }
    {
        Queue {
            ads: OrderedMap::new(),
            kinds: Kinds::new(),
            periodic: OrderedMap::new(),
            asked: OrderedMap::new(),
        }
    }

    /// The ad under a key, without memory. Computes in O(log ads).
    pub fn get(&self, key: &Key) -> Option<&Ad>
        ensures ad { option_copied result ≡ ad_at key.now self.now }
        ensures ordered { IsQueue self.now }
    {
        self.ads.get(key)
    }

    /// Makes known that the keys stand in order, and that each ad has room for what the pool sets
    /// there. Computes in O(log ads), without memory.
    pub fn room(&self)
        ensures ordered { IsQueue self.now }
        ensures room { IsRoomy self.now }
    {
        let _ = self.ads.get(&Key::Header);
    }

    /// The least key above the given one, or the least of all, without memory. Computes in
    /// O(log ads).
    pub fn after(&self, key: Option<&Key>) -> Option<&Key>
        ensures { option_copied result ≡ key_after (option_copied key.entry) self.now }
    {
        let entry = self.ads.first_past(past(key))?;
        Some(entry.0)
    }

    /// The first job of a kind past a bound, by the order of the keys, without memory. Computes in
    /// O(log jobs).
    pub fn first_of_kind(&self, kind: JobKind, start: Bound<&Key>) -> Option<&Key>
        ensures { FirstKey (IsJobOf kind self.now) start.entry (option_copied result) }
    {
        let entry = self.kinds.of(kind).first_past(start)?;
        Some(entry.0)
    }

    /// The first job past a bound whose ad has a periodic expression, by the order of the keys,
    /// without memory. Computes in O(log jobs).
    pub fn first_periodic(&self, start: Bound<&Key>) -> Option<&Key>
        ensures { FirstKey (IsPeriodic self.now) start.entry (option_copied result) }
    {
        let entry = self.periodic.first_past(start)?;
        Some(entry.0)
    }

    /// The first idle job past a bound that makes the same request as an ad, by the order of the
    /// keys, without memory. Computes in O(size of the ad), and in O(log jobs) and O(attributes)
    /// look-ups where no other request has the same digest; else the same again for each idle job
    /// up to it whose request has.
    pub fn first_asking<'a>(&'a self, ad: &Ad, start: Bound<&Key>) -> Option<&'a Key>
        ensures { FirstKey (IsIdleAsking ad.now self.now) start.entry (option_copied result) }
    {
        let digest = request_digest(ad);
        let mut key = self.first_listed(digest, start)?;
        'idle: while !self.asks_same(key, ad) {
            key = self.first_listed(digest, Bound::Excluded(key))?;
        }
        Some(key)
    }

    // The first idle job past a bound whose request has that digest.
    fn first_listed(&self, digest: u64, start: Bound<&Key>) -> Option<&Key>
        ensures first { FirstKey (IsAskedBy digest self.now) start.entry (option_copied result) }
        ensures names { DoIdleNamesDiffer self.now }
    {
        first_asked(&self.asked, digest, start)
    }

    // Whether what stands under a key makes the same request as an ad.
    fn asks_same(&self, key: &Key, ad: &Ad) -> bool
        ensures { IsTrue result
            ↔ IsSomeAnd (ad_at key.now self.now) (λ other. SameRequest ad.now other) }
    {
        match self.get(key) {
            Some(other) => makes_same_request(ad, other),
            None => false,
        }
    }

    /// What a transaction changes, with the memory that it takes; or why its first operation that
    /// can't be done can't be. Changes nothing. Computes in O(operations times log ads), and for
    /// each ad that is changed once in O(its size).
    pub fn prepare(&self, alloc: Global, tx: &Tx) -> Result<Prepared, ApplyError>
        ensures ready { IfOk result
            (λ p. queue_after self.now tx.now ≡ Ok (with_changes self.now p)) }
        ensures refused { IfErr result
            (λ e. e ≢ error.Memory → queue_after self.now tx.now ≡ Err e) }
    {
        let changes = changes_of(self, alloc, tx.ops())?;
        Ok(Prepared::of(alloc, changes)?)
    }

    /// What, done after what was prepared, brings the queue back as it is, with the memory that it
    /// takes. Changes nothing. Computes in O(changed ads times log ads), and for each of them in
    /// O(its size).
    pub fn undo_of(&self, alloc: Global, prepared: &Prepared) -> Result<Prepared, Memory>
        ensures { IfOk result
            (λ undo. with_changes (with_changes self.now prepared.now) undo ≡ self.now) }
    {
        let _ = self.get(&Key::Header);
        prepared.undo(alloc, self)
    }

    /// Does what was prepared, without memory, which can't fail. Computes in O(changed ads times
    /// log ads), and in O(size) for each idle job's ad that is replaced.
    pub fn commit(&mut self, prepared: Prepared)
        ensures { self.new ≡ with_changes self.old prepared }
    {
        'changes: for change in prepared.into_vec() {
            self.put(change);
        }
    }

    // Does one change.
    fn put(&mut self, change: Change)
        ensures { self.new ≡ with_ad (change_of change).0 (change_of change).1 self.old }
    {
        match change {
            Change::Put(ready) => {
                let kind = ready.kind();
                let ReadyEntries {
                    ad,
                    job,
                    periodic,
                    asked,
                } = ready.into_entries();
                let key = *ad.key();
                let old = asked_under(&key, self.ads.get(&key));
                self.ads.put(ad);
                self.kinds.put(job, kind);
                keep(&mut self.periodic, &key, periodic);
                replace(&mut self.asked, old, asked);
            }
            Change::Remove(key) => {
                let old = asked_under(&key, self.ads.get(&key));
                let _ = self.ads.remove(&key);
                self.kinds.remove(&key);
                clear(&mut self.periodic, &key);
                replace(&mut self.asked, old, None);
            }
        }
    }

    /// Does a transaction: prepares and commits it. An error leaves the queue as it was.
    pub fn apply(&mut self, alloc: Global, tx: &Tx) -> Result<(), ApplyError>
        ensures applied { OnOk result (queue_after self.old tx.now ≡ Ok self.new) }
        ensures refused { IfErr result
            (λ e. e ≢ error.Memory → queue_after self.old tx.now ≡ Err e) }
        ensures same { OnErr result (self.new ≡ self.old) }
    {
        let prepared = self.prepare(alloc, tx)?;
        self.commit(prepared);
        Ok(())
    }
}

// The bound above which all keys are that come after one, or all keys.
fn past(key: Option<&Key>) -> Bound<&Key>
    ensures { (k : Key) → is_past key_cmp result k ≡ is_above (option_copied key.entry) k }
{
    match key {
        None => Bound::Unbounded,
        Some(key) => Bound::Excluded(key),
    }
}

impl Copied for Queue {
    fn copy(&self, alloc: Global) -> Result<Queue, Memory> {
        let (ads, kinds) = copy_both(alloc, &self.ads, &self.kinds)?;
        let (periodic, asked) = copy_both(alloc, &self.periodic, &self.asked)?;
        Ok(Queue {
            ads,
            kinds,
            periodic,
            asked,
        })
    }
}

fn copy_both<A: Copied, B: Copied>(alloc: Global, one: &A, other: &B) -> Result<(A, B), Memory>
    ensures { IfOk result (λ c. (c.0 ≡ one.now) × (c.1 ≡ other.now)) }
{
    let one = one.copy(alloc)?;
    let other = other.copy(alloc)?;
    Ok((one, other))
}
