ghost use Rattle.std.specs.Prelude.{◌≡◌, ◌≢◌, ◌≤◌, ◌↔◌, length, IsErrOf, IfOk, OnOk, OnErr, filter};
ghost use Rattle.std.specs.List.{list_any, insert};
ghost use Rattle.matchmaker.specs.declared.error.CollectorError.TheVariants as error;
ghost use Rattle.matchmaker.specs.Kept.{is_fresh, is_of, with_ad, without_slot, fresh_ads, AreKept, IsFullFor, IsInOrder, IsPlaceOf};

use crate::choosing::is_slot;
use crate::error::CollectorError;
use ad_value::{Copied, Memory, Seq};
use claim_id::SlotId;
use pool_mail::{SlotAd, SlotAdList};
use std::alloc::Global;

/// How many slots' ads a collector keeps at most.
pub const MAX_NAMES: usize = 256;

/// An ad as it was updated.
pub struct KeptAd {
    pub ad: SlotAd,
    /// When it was updated, a reading: seconds since 1970-01-01 00:00:00 UTC.
    pub updated: u64,
}

impl Drop for KeptAd {
    fn drop(self) {
        let KeptAd {
            ad: _ad,
            updated: _,
        } = self;
    }
}

impl KeptAd {
    // Whether its age is at most the lifetime. An ad of a later moment has the age 0.
    pub(crate) fn is_fresh(&self, lifetime: u64, now: u64) -> bool
        ensures { result ≡ is_fresh lifetime now self.now }
    {
        now.saturating_sub(self.updated) <= lifetime
    }

    // Whether it is of that slot.
    pub(crate) fn is_of(&self, slot: SlotId) -> bool
        ensures { result ≡ is_of slot self.now }
    {
        is_slot(self.ad.slot, slot)
    }
}

// The place of the ad of a name, or where it would stand in order.
pub(crate) fn place_of(kept: &[KeptAd], name: &str) -> Result<usize, usize>
    requires { IsInOrder kept.now }
    ensures { IsPlaceOf name.now kept.now result }
{
    kept.binary_search_by(|k| k.ad.name.as_str().cmp(name))
}

// Keeps an ad, in place of the one of its name.
pub(crate) fn put(kept: &mut Vec<KeptAd>, one: KeptAd) -> Result<(), CollectorError>
    requires { AreKept kept.old.items }
    ensures kept { OnOk result (kept.new.items ≡ with_ad one kept.old.items) }
    ensures full { IsErrOf result error.Full ↔ IsFullFor one.ad.name kept.old.items }
    ensures same { OnErr result (kept.new.items ≡ kept.old.items) }
    ensures order { AreKept kept.new.items }
{
    match place_of(kept, one.ad.name.as_str()) {
        Ok(place) => {
            kept[place] = one;
            Ok(())
        }
        Err(place) => insert_at(kept, place, one),
    }
}

// Keeps an ad of a new name at its place.
fn insert_at(kept: &mut Vec<KeptAd>, place: usize, one: KeptAd) -> Result<(), CollectorError>
    requires { place ≤ length kept.old.items }
    ensures kept { OnOk result (kept.new.items ≡ insert kept.old.items place one) }
    ensures room { OnOk result (length kept.old.items ≢ MAX_NAMES) }
    ensures full { IsErrOf result error.Full ↔ (length kept.old.items ≡ MAX_NAMES) }
    ensures same { OnErr result (kept.new.items ≡ kept.old.items) }
{
    if kept.len() == MAX_NAMES {
        return Err(CollectorError::Full);
    }
    kept.insert(place, one)?;
    Ok(())
}

// Whether there is an ad of that slot.
pub(crate) fn is_kept_of(kept: &[KeptAd], slot: SlotId) -> bool
    ensures { result ≡ list_any (is_of slot) kept.now }
{
    kept.iter().any(|k| k.is_of(slot))
}

// Drops each ad of that slot.
pub(crate) fn retain_others(kept: &mut Vec<KeptAd>, slot: SlotId)
    ensures { kept.new.items ≡ without_slot slot kept.old.items }
{
    kept.retain(|k| !k.is_of(slot));
}

// Drops each ad that is too old.
pub(crate) fn retain_fresh(kept: &mut Vec<KeptAd>, lifetime: u64, now: u64)
    ensures { kept.new.items ≡ filter (is_fresh lifetime now) kept.old.items }
{
    kept.retain(|k| k.is_fresh(lifetime, now));
}

// Copies of the ads that are fresh.
pub(crate) fn fresh_ads(
    alloc: Global,
    kept: &[KeptAd],
    lifetime: u64,
    now: u64,
) -> Result<SlotAdList, Memory>
    ensures { IfOk result (λ ads. ads ≡ fresh_ads lifetime now kept.now) }
{
    let mut ads = Seq::new(alloc);
    for one in kept {
        if one.is_fresh(lifetime, now) {
            ads.push(one.ad.copy(alloc)?)?;
        }
    }
    Ok(ads)
}
