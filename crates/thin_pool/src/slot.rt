ghost use Rattle.std.specs.Prelude.{◌≡◌, ◌↔◌, slice_get, IfOk, IsTrue};
ghost use Rattle.std.specs.Option.{option_copied};
ghost use Rattle.thin_pool.specs.PoolValue.{AreNumberedOnce, slot_at};
ghost use Rattle.thin_pool.specs.Reactions.{first_slot, slot_ads};

use crate::ads::after_first;
use ad_tree::{Ad, AdList};
use ad_value::{Copied, Memory, Seq, Text};
use claim_id::SlotId;
use std::alloc::Global;

/// A slot with its name, as `slot1@m1` (HTCondor manual, Machine ClassAd Attributes, Name), and its
/// ad, which never changes.
pub struct PoolSlot {
    pub slot: SlotId,
    pub name: Text,
    pub ad: Ad,
}

impl Drop for PoolSlot {
    fn drop(self) {
        let PoolSlot {
            slot: _,
            name: _name,
            ad: _ad,
        } = self;
    }
}

/// A list of slots.
pub type PoolSlotList = Seq<PoolSlot>;

impl Copied for PoolSlot {
    fn copy(&self, alloc: Global) -> Result<PoolSlot, Memory> {
        Ok(PoolSlot {
            slot: self.slot,
            name: self.name.copy(alloc)?,
            ad: self.ad.copy(alloc)?,
        })
    }
}

// The first slot's number, or an impossible one.
pub(crate) fn first_slot(slots: &[PoolSlot]) -> SlotId
    ensures { result ≡ first_slot slots.now }
{
    match slots.first() {
        None => SlotId {
            machine: 0,
            slot: 0,
        },
        Some(first) => first.slot,
    }
}

// The first slot of that number.
pub(crate) fn slot_at(id: SlotId, slots: &[PoolSlot]) -> Option<&PoolSlot>
    ensures { option_copied result ≡ slot_at id slots.now }
{
    for slot in slots {
        if slot.slot == id {
            return Some(slot);
        }
    }
    None
}

// The slot at a place.
pub(crate) fn slot_at_place(slots: &[PoolSlot], place: usize) -> Option<&PoolSlot>
    ensures { option_copied result ≡ slice_get slots.now place }
{
    slots.get(place)
}

/// Whether no slot has the number of an earlier one. Computes in O(slots^2), without memory.
pub fn are_numbered_once(slots: &[PoolSlot]) -> bool
    ensures { IsTrue result ↔ AreNumberedOnce slots.now }
{
    let mut rest = slots;
    'slots: while let Some((first, after)) = rest.split_first() {
        if slot_at(first.slot, after).is_some() {
            return false;
        }
        rest = after;
    }
    true
}

// Copies of the slots' ads.
pub(crate) fn slot_ads(alloc: Global, slots: &[PoolSlot]) -> Result<AdList, Memory>
    ensures { IfOk result (λ l. l ≡ slot_ads slots.now) }
{
    let mut ads = AdList::new(alloc);
    for slot in slots {
        ads.push(slot.ad.copy(alloc)?)?;
    }
    Ok(ads)
}

// Whether these are the slots' ads.
pub(crate) fn are_slot_ads(ads: &[Ad], slots: &[PoolSlot]) -> bool
    ensures { IsTrue result ↔ (ads.now ≡ slot_ads slots.now) }
{
    let mut left = ads;
    for slot in slots {
        match after_first(left, &slot.ad) {
            Some(rest) => left = rest,
            None => return false,
        }
    }
    left.is_empty()
}
