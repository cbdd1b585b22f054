ghost use Rattle.std.specs.Prelude.{◌≡◌, ◌≢◌, Ok, Err, IfOk, IfErr, IfSome, OnOk, Some, map};
ghost use Rattle.std.specs.Option.{option_copied};
ghost use Rattle.std.specs.List.Sorted.{IsStrictlySortedBy};
ghost use Rattle.std.specs.Map.{keys_of, remove_entry};
ghost use Rattle.ad_tree.specs.Tree.{tree};
ghost use Rattle.queue_tx.specs.declared.error.ApplyError.TheVariants as error;
ghost use Rattle.queue_tx.specs.Keys.{key_cmp, same_key};
ghost use Rattle.queue_tx.specs.Operations.{operation, set_attr};
ghost use Rattle.queue_tx.specs.Queues.{ad_after, ad_at, after_op, after_ops, with_changes, IsQueue};
ghost use Rattle.queue_tx.specs.Prepared.{change_of, kept_at, undo_of};
ghost use Rattle.queue_tx.specs.Roomy.{HasRoom, LeaveRoom};

use crate::error::ApplyError;
use crate::kept::ReadyAd;
use crate::key::Key;
use crate::op::Op;
use crate::queue::Queue;
use crate::room::lacks_room;
use ad_tree::{Ad, Expr, SetError};
use ad_value::{Copied, Memory};
use std::alloc::Global;
use std::collections::BTreeMap;
use std::marker::Model;

/// What a transaction leaves under a key, with its memory.
#[derive(Drop)]
pub(crate) enum Change {
    Put(ReadyAd),
    Remove(Key),
}

/// What a transaction changes: an ad, or none, for each key that it names. It has the memory that
/// the change takes. Contracts see the list of these keys and ads.
pub struct Prepared {
    changes: Vec<Change>,
}

impl Drop for Prepared {
    fn drop(self) {
        let Prepared { changes: _changes } = self;
    }
}

impl Model for Prepared {
    ghost use Rattle.std.specs.Prelude.{map};
    ghost use Rattle.queue_tx.specs.Queues.{Changes, changes_code};

    ghost Value = { Changes };

    ghost coded = { changes_code };

    ghost use Rattle.queue_tx.specs.Prepared.{change_of};

    ghost view = { λ p. map change_of p.changes.items };
}

impl Prepared {
    // The changes, with memory for each.
    pub(crate) fn of(alloc: Global, mut ads: BTreeMap<Key, Option<Ad>>) -> Result<Prepared, Memory>
        requires { LeaveRoom ads.entries }
        ensures { IfOk result (λ p. p ≡ ads.entries) }
    {
        let mut changes = Vec::new(alloc);
        'ads: while let Some((key, ad)) = ads.pop_first() {
            let change = Change::of(alloc, key, ad)?;
            changes.push(change)?;
        }
        Ok(Prepared { changes })
    }

    // What brings back what a queue has under the keys that are changed, with its memory.
    pub(crate) fn undo(&self, alloc: Global, queue: &Queue) -> Result<Prepared, Memory>
        ensures { IfOk result (λ undo. undo ≡ undo_of queue.now self.now) }
    {
        let mut changes = Vec::new(alloc);
        for change in &self.changes {
            changes.push(change.undo(alloc, queue)?)?;
        }
        Ok(Prepared { changes })
    }

    // The changes, in order of key.
    pub(crate) fn into_vec(self) -> Vec<Change>
        ensures { map change_of result.items ≡ self }
    {
        let Prepared { changes } = self;
        changes
    }
}

impl Change {
    // That ad, or none, under a key.
    fn of(alloc: Global, key: Key, ad: Option<Ad>) -> Result<Change, Memory>
        requires { IfSome ad (HasRoom key) }
        ensures { IfOk result (λ c. change_of c ≡ (key, ad)) }
    {
        match ad {
            None => Ok(Change::Remove(key)),
            Some(ad) => Ok(Change::Put(ReadyAd::new(alloc, key, ad)?)),
        }
    }

    fn key(&self) -> Key
        ensures { result ≡ (change_of self.now).0 }
    {
        match self {
            Change::Put(ready) => ready.key(),
            Change::Remove(key) => *key,
        }
    }

    // What a queue has under its key.
    fn undo(&self, alloc: Global, queue: &Queue) -> Result<Change, Memory>
        ensures { IfOk result (λ undo. change_of undo ≡ kept_at queue.now (change_of self.now)) }
    {
        let key = self.key();
        queue.room();
        let ad = copy_of(alloc, queue.get(&key))?;
        Change::of(alloc, key, ad)
    }
}

// What operations leave under the keys that they name.
pub(crate) fn changes_of(
    queue: &Queue,
    alloc: Global,
    ops: &[Op],
) -> Result<BTreeMap<Key, Option<Ad>>, ApplyError>
    ensures done { IfOk result (λ changes. after_ops 0 queue.now (map operation ops.now)
        ≡ Ok (with_changes queue.now changes.entries)) }
    ensures room { IfOk result (λ changes. LeaveRoom changes.entries) }
    ensures refused { IfErr result
        (λ e. e ≢ error.Memory → after_ops 0 queue.now (map operation ops.now) ≡ Err e) }
{
    let mut changes = BTreeMap::new(alloc);
    'ops: for (place, op) in ops.iter().enumerate() {
        do_op(queue, &mut changes, alloc, place as u64, op)?;
    }
    Ok(changes)
}

// One operation more.
fn do_op(
    queue: &Queue,
    changes: &mut BTreeMap<Key, Option<Ad>>,
    alloc: Global,
    place: u64,
    op: &Op,
) -> Result<(), ApplyError>
    requires ordered { IsStrictlySortedBy key_cmp (keys_of changes.old.entries) }
    requires room { LeaveRoom changes.old.entries }
    ensures done { OnOk result
        (after_op place (with_changes queue.now changes.old.entries) (operation op.now)
        ≡ Ok (with_changes queue.now changes.new.entries)) }
    ensures refused { IfErr result (λ e. e ≢ error.Memory
        → after_op place (with_changes queue.now changes.old.entries) (operation op.now) ≡ Err e) }
    ensures ordered { OnOk result (IsStrictlySortedBy key_cmp (keys_of changes.new.entries)) }
    ensures room { OnOk result (LeaveRoom changes.new.entries) }
{
    let key = op.key();
    let ad = take_ad(queue, changes, alloc, &key)?;
    let ad = ad_after(alloc, place, ad, op)?;
    changes.insert(key, ad)?;
    Ok(())
}

// What stands under a key, taken out of the changes where it is one of them.
fn take_ad(
    queue: &Queue,
    changes: &mut BTreeMap<Key, Option<Ad>>,
    alloc: Global,
    key: &Key,
) -> Result<Option<Ad>, Memory>
    requires ordered { IsStrictlySortedBy key_cmp (keys_of changes.old.entries) }
    requires room { LeaveRoom changes.old.entries }
    ensures ad { IfOk result
        (λ ad. ad ≡ ad_at key.now (with_changes queue.now changes.old.entries)) }
    ensures room { IfOk result (λ ad. IfSome ad (HasRoom key.now)) }
    ensures rest { changes.new.entries ≡ remove_entry (same_key key.now) changes.old.entries }
    ensures queue { IsQueue queue.now }
{
    queue.room();
    let stands = queue.get(key);
    match changes.remove(key) {
        Some(ad) => Ok(ad),
        None => copy_of(alloc, stands),
    }
}

fn copy_of(alloc: Global, ad: Option<&Ad>) -> Result<Option<Ad>, Memory>
    ensures { IfOk result (λ copy. copy ≡ option_copied ad.entry) }
{
    match ad {
        Some(ad) => Ok(Some(ad.copy(alloc)?)),
        None => Ok(None),
    }
}

// What an operation makes of what stands under its key.
fn ad_after(alloc: Global, place: u64, ad: Option<Ad>, op: &Op) -> Result<Option<Ad>, ApplyError>
    ensures done { IfOk result (λ new. ad_after place ad (operation op.now) ≡ Ok new) }
    ensures refused { IfErr result
        (λ e. e ≢ error.Memory → ad_after place ad (operation op.now) ≡ Err e) }
{
    match op {
        Op::NewAd { .. } => match ad {
            None => Ok(Some(Ad::new(alloc))),
            Some(_) => Err(ApplyError::KeyThere { op: place }),
        },
        Op::DestroyAd { .. } => match ad {
            None => Err(ApplyError::NoKey { op: place }),
            Some(_) => Ok(None),
        },
        Op::SetAttr { key, name, expr } => match ad {
            None => Err(ApplyError::NoKey { op: place }),
            Some(ad) => with_attribute(alloc, place, key, ad, name.as_str(), expr),
        },
        Op::DeleteAttr { name, .. } => match ad {
            None => Err(ApplyError::NoKey { op: place }),
            Some(mut ad) => {
                ad.remove(name.as_str());
                Ok(Some(ad))
            }
        },
    }
}

// The ad under a key with an attribute more, where there is room.
fn with_attribute(
    alloc: Global,
    place: u64,
    key: &Key,
    mut ad: Ad,
    name: &str,
    expr: &Expr,
) -> Result<Option<Ad>, ApplyError>
    ensures done { IfOk result
        (λ new. ad_after place (Some ad) (set_attr key.now name.now (tree expr.now)) ≡ Ok new) }
    ensures refused { IfErr result (λ e. e ≢ error.Memory
        → ad_after place (Some ad) (set_attr key.now name.now (tree expr.now)) ≡ Err e) }
{
    if lacks_room(key, name, &ad) {
        return Err(ApplyError::Full { op: place });
    }
    match ad.set(alloc, name, expr.copy(alloc)?) {
        Ok(()) => Ok(Some(ad)),
        Err(SetError::Full) => Err(ApplyError::Full { op: place }),
        Err(SetError::Memory) => Err(ApplyError::Memory),
    }
}
