ghost use Rattle.std.specs.Prelude.{◌≡◌, ◌≤◌, ◌↔◌, [], length, filter, IfOk, OnOk, OnErr, IsErrOf};
ghost use Rattle.std.specs.List.{list_any};
ghost use Rattle.matchmaker.specs.declared.error.CollectorError.TheVariants as error;
ghost use Rattle.matchmaker.specs.Kept.{with_ad, without_slot, fresh_ads, is_fresh, is_of, IsFullFor, IsInOrder};

use crate::error::CollectorError;
use crate::kept::{KeptAd, MAX_NAMES, fresh_ads, is_kept_of, put, retain_fresh, retain_others};
use ad_value::Memory;
use claim_id::SlotId;
use pool_mail::{SlotAd, SlotAdList};
use std::alloc::Global;
use std::marker::Model;

/// The last ad of each slot, by its name (HTCondor manual, The Collector Daemon). Contracts see it
/// as `Contents`.
pub struct Collector {
    lifetime: u64,
    kept: Vec<KeptAd>,
}

impl Drop for Collector {
    fn drop(self) {
        let Collector {
            lifetime: _,
            kept: _kept,
        } = self;
    }
}

impl Model for Collector {
    ghost use Rattle.matchmaker.specs.Kept.{Contents, AreKept};
    ghost use Rattle.std.specs.Coded.{codes};
    ghost use Rattle.matchmaker.specs.contracts.kept.KeptAd as kept_ad;

    ghost Value = { Contents };

    ghost coded = { Prim.hlevel (codes, kept_ad.the_row.coded) };

    ghost view = { λ c. record { lifetime = c.lifetime; kept = c.kept.items } };

    ghost invariant = { λ c. AreKept c.kept.items };
}

impl Collector {
    /// A collector without ads, which are fresh for so many seconds (HTCondor manual,
    /// CLASSAD_LIFETIME). Takes no memory. Computes in O(1).
    pub fn new(alloc: Global, lifetime: u64) -> Collector
        ensures { result ≡ record { lifetime = lifetime; kept = [] } }
    {
        Collector {
            lifetime,
            kept: Vec::new(alloc),
        }
    }

    /// Keeps an ad, in place of the one of its name. `now` is a reading: seconds since 1970-01-01
    /// 00:00:00 UTC. Computes in O(log ads) look-ups and in O(ads) moves. An error leaves the
    /// collector as it was, and the ad is dropped.
    pub fn update(&mut self, ad: SlotAd, now: u64) -> Result<(), CollectorError>
        ensures kept { OnOk result (self.new ≡ record self.old {
          kept = with_ad (record { ad = ad; updated = now }) self.old.kept;
        }) }
        ensures full { IsErrOf result error.Full ↔ IsFullFor ad.name self.old.kept }
        ensures same { OnErr result (self.new ≡ self.old) }
    {
        put(&mut self.kept, KeptAd { ad, updated: now })
    }

    /// Copies of the ads that are fresh at a reading, in order of their slots' names, by bytes.
    /// Computes in O(size of the ads).
    pub fn offered(&self, alloc: Global, now: u64) -> Result<SlotAdList, Memory>
        ensures offered { IfOk result (λ ads.
            ads ≡ fresh_ads self.now.lifetime now self.now.kept) }
        ensures order { IsInOrder self.now.kept }
        ensures few { length self.now.kept ≤ MAX_NAMES }
    {
        fresh_ads(alloc, &self.kept, self.lifetime, now)
    }

    /// Drops each ad of a slot, and says whether there was one. Takes no memory. Computes in
    /// O(ads).
    pub fn forget(&mut self, slot: SlotId) -> bool
        ensures found { result ≡ list_any (is_of slot) self.old.kept }
        ensures dropped { self.new ≡ record self.old { kept = without_slot slot self.old.kept } }
    {
        let found = is_kept_of(&self.kept, slot);
        retain_others(&mut self.kept, slot);
        found
    }

    /// Drops each ad that is too old at a reading. Takes no memory. Computes in O(ads).
    pub fn expire(&mut self, now: u64)
        ensures { self.new ≡ record self.old {
          kept = filter (is_fresh self.old.lifetime now) self.old.kept;
        } }
    {
        retain_fresh(&mut self.kept, self.lifetime, now);
    }
}
