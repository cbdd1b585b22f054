ghost use Rattle.std.specs.Prelude.{◌≡◌, ◌↔◌, IfOk, IsTrue};

use ad_tree::Ad;
use ad_value::{Copied, Memory, Seq, Text};
use claim_id::{ClaimId, Pair, SlotId};
use std::alloc::Global;

/// How a slot stands, as its startd tells the collector.
pub struct SlotAd {
    pub slot: SlotId,
    /// As `slot1@m1` (HTCondor manual, Machine ClassAd Attributes, Name).
    pub name: Text,
    /// The claim that the slot offers.
    pub claim: Option<ClaimId>,
    pub pair: Pair,
    /// The user who has the slot's claim.
    pub user: Option<Text>,
    /// How the slot ranks the job that has its claim.
    pub rank: i64,
    /// When the startd told it, a reading: seconds since 1970-01-01 00:00:00 UTC.
    pub at: u64,
    pub ad: Ad,
}

impl Drop for SlotAd {
    fn drop(self) {
        let SlotAd {
            slot: _,
            name: _name,
            claim: _,
            pair: _,
            user: _user,
            rank: _,
            at: _,
            ad: _ad,
        } = self;
    }
}

/// A list of slots.
pub type SlotAdList = Seq<SlotAd>;

impl SlotAd {
    /// Whether both are the same, their ads as spelled and in the same order, without memory.
    /// Computes in O(size of the smaller).
    pub fn same(&self, other: &SlotAd) -> bool
        ensures { IsTrue result ↔ (self.now ≡ other.now) }
    {
        self.slot == other.slot
            && same_text(&self.name, &other.name)
            && self.claim == other.claim
            && self.pair == other.pair
            && same_user(&self.user, &other.user)
            && self.rank == other.rank
            && self.at == other.at
            && self.ad.same(&other.ad)
    }
}

impl Copied for SlotAd {
    fn copy(&self, alloc: Global) -> Result<SlotAd, Memory> {
        Ok(SlotAd {
            slot: self.slot,
            name: self.name.copy(alloc)?,
            claim: self.claim,
            pair: self.pair,
            user: copy_user(alloc, &self.user)?,
            rank: self.rank,
            at: self.at,
            ad: self.ad.copy(alloc)?,
        })
    }
}

fn same_text(a: &Text, b: &Text) -> bool
    ensures { IsTrue result ↔ (a.now ≡ b.now) }
{
    a.as_str() == b.as_str()
}

fn same_user(a: &Option<Text>, b: &Option<Text>) -> bool
    ensures { IsTrue result ↔ (a.now ≡ b.now) }
{
    match (a, b) {
        (Some(a), Some(b)) => same_text(a, b),
        (None, None) => true,
        _ => false,
    }
}

fn copy_user(alloc: Global, user: &Option<Text>) -> Result<Option<Text>, Memory>
    ensures { IfOk result (λ copied. copied ≡ user.now) }
{
    match user {
        Some(user) => Ok(Some(user.copy(alloc)?)),
        None => Ok(None),
    }
}
