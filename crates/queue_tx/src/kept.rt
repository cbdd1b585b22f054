ghost use Rattle.std.specs.Prelude.{◌≡◌, true, false, [], IfOk, Some};
ghost use Rattle.queue_tx.specs.Asked.{IsReady};
ghost use Rattle.queue_tx.specs.Jobs.{kind_under};
ghost use Rattle.queue_tx.specs.declared.kind.JobKind.{JobKind};
ghost use Rattle.queue_tx.specs.Kept.{is_kind, of_kind, SetsKey};
ghost use Rattle.queue_tx.specs.Periodic.{IsReadyPeriodic};
ghost use Rattle.queue_tx.specs.Roomy.{HasRoom};

use crate::asked::{Asked, new_place, place_of};
use crate::key::Key;
use crate::kind::{JobKind, kind_under};
use crate::periodic::new_periodic;
use ad_tree::Ad;
use ad_value::{Copied, Memory};
use ordered_map::{NewEntry, OrderedMap};
use std::alloc::Global;
use std::marker::Model;

/// A mark that a key is in a set.
#[derive(Clone, Copy)]
pub struct Here;

impl Copied for Here {
    fn copy(&self, _: Global) -> Result<Here, Memory> {
        Ok(Here)
    }
}

pub(crate) type KeySet = OrderedMap<Key, Here>;

/// The keys of the jobs, by kind.
#[derive(Drop)]
pub(crate) struct Kinds {
    pub(crate) idle: KeySet,
    pub(crate) held: KeySet,
    pub(crate) under: KeySet,
}

impl Kinds {
    pub(crate) fn new() -> Kinds
        ensures { (kind : JobKind) → of_kind kind result ≡ [] }
    {
        Kinds {
            idle: OrderedMap::new(),
            held: OrderedMap::new(),
            under: OrderedMap::new(),
        }
    }

    pub(crate) fn of(&self, kind: JobKind) -> &KeySet
        ensures { result.now ≡ of_kind kind self.now }
    {
        match kind {
            JobKind::Idle => &self.idle,
            JobKind::Held => &self.held,
            JobKind::Under => &self.under,
        }
    }

    // The job of a key is of that kind from now on.
    pub(crate) fn put(&mut self, entry: NewEntry<Key, Here>, kind: Option<JobKind>)
        ensures { (k : JobKind)
            → SetsKey entry.0 (is_kind k kind) (of_kind k self.old) (of_kind k self.new) }
    {
        let key = *entry.key();
        match kind {
            None => self.remove(&key),
            Some(JobKind::Idle) => {
                set(&mut self.idle, entry);
                clear(&mut self.held, &key);
                clear(&mut self.under, &key);
            }
            Some(JobKind::Held) => {
                clear(&mut self.idle, &key);
                set(&mut self.held, entry);
                clear(&mut self.under, &key);
            }
            Some(JobKind::Under) => {
                clear(&mut self.idle, &key);
                clear(&mut self.held, &key);
                set(&mut self.under, entry);
            }
        }
    }

    // There is no job under a key from now on.
    pub(crate) fn remove(&mut self, key: &Key)
        ensures { (k : JobKind) → SetsKey key.now false (of_kind k self.old) (of_kind k self.new) }
    {
        clear(&mut self.idle, key);
        clear(&mut self.held, key);
        clear(&mut self.under, key);
    }
}

pub(crate) fn set(keys: &mut KeySet, entry: NewEntry<Key, Here>)
    ensures { SetsKey entry.0 true keys.old keys.new }
{
    keys.put(entry);
}

pub(crate) fn clear(keys: &mut KeySet, key: &Key)
    ensures { SetsKey key.now false keys.old keys.new }
{
    let _ = keys.remove(key);
}

impl Copied for Kinds {
    fn copy(&self, alloc: Global) -> Result<Kinds, Memory> {
        Ok(Kinds {
            idle: self.idle.copy(alloc)?,
            held: self.held.copy(alloc)?,
            under: self.under.copy(alloc)?,
        })
    }
}

/// An ad that is to stand under a key, with the memory for its places in the queue.
#[derive(Drop)]
pub(crate) struct ReadyAd {
    ad: NewEntry<Key, Ad>,
    job: NewEntry<Key, Here>,
    periodic: Option<NewEntry<Key, Here>>,
    asked: Option<NewEntry<Asked, Here>>,
}

impl Model for ReadyAd {
    ghost use Rattle.std.specs.Prelude.{◌≡◌};
    ghost use Rattle.std.specs.Coded.{coded×};
    ghost use Rattle.ad_tree.specs.Ad.{Attributes};
    ghost use Rattle.ad_tree.specs.TreeCode.{attributes_code};
    ghost use Rattle.queue_tx.specs.Asked.{IsReady};
    ghost use Rattle.queue_tx.specs.OperationCode.{key_code};
    ghost use Rattle.queue_tx.specs.Periodic.{IsReadyPeriodic};
    ghost use Rattle.queue_tx.specs.Roomy.{HasRoom};
    ghost use Rattle.queue_tx.specs.declared.key.Key.{Key};

    ghost Value = { Key × Attributes };

    ghost coded = { coded× key_code attributes_code };

    ghost view = { λ r. r.ad };

    ghost invariant = { λ r. IsReady r.ad r.job.0 r.asked
        × IsReadyPeriodic r.ad r.periodic
        × HasRoom r.ad.0 r.ad.1 };
}

impl ReadyAd {
    pub(crate) fn new(alloc: Global, key: Key, ad: Ad) -> Result<ReadyAd, Memory>
        requires { HasRoom key ad }
        ensures { IfOk result (λ r. r ≡ (key, ad)) }
    {
        let asked = new_place(alloc, place_of(&key, &ad))?;
        let periodic = new_periodic(alloc, &key, &ad)?;
        let job = NewEntry::new(alloc, key, Here)?;
        let ad = NewEntry::new(alloc, key, ad)?;
        Ok(ReadyAd {
            ad,
            job,
            periodic,
            asked,
        })
    }

    // The key under which it is to stand.
    pub(crate) fn key(&self) -> Key
        ensures { result ≡ self.now.0 }
    {
        *self.ad.key()
    }

    // What the ad makes of the job under its key.
    pub(crate) fn kind(&self) -> Option<JobKind>
        ensures { result ≡ kind_under self.now.0 (Some self.now.1) }
    {
        kind_under(self.ad.key(), self.ad.value())
    }

    pub(crate) fn into_entries(self) -> ReadyEntries
        ensures ad { result.ad ≡ self }
        ensures ready { IsReady result.ad result.job.0 result.asked }
        ensures periodic { IsReadyPeriodic result.ad result.periodic }
        ensures room { HasRoom result.ad.0 result.ad.1 }
    {
        let ReadyAd {
            ad,
            job,
            periodic,
            asked,
        } = self;
        ReadyEntries {
            ad,
            job,
            periodic,
            asked,
        }
    }
}

/// The places of an ad, apart.
#[derive(Drop)]
pub(crate) struct ReadyEntries {
    pub(crate) ad: NewEntry<Key, Ad>,
    pub(crate) job: NewEntry<Key, Here>,
    pub(crate) periodic: Option<NewEntry<Key, Here>>,
    pub(crate) asked: Option<NewEntry<Asked, Here>>,
}
