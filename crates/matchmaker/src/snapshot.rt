ghost use Rattle.std.specs.Prelude.{◌↔◌, IsTrue, ◌<◌, All};
ghost use Rattle.matchmaker.specs.Snapshots.{IsSnapshot};

use crate::{MAX_SLOTS, MAX_USERS};
use ad_tree::{Ad, Expr};
use ad_value::{Seq, Text};
use claim_id::{ClaimId, SlotId};
use pool_mail::RequestList;

/// A user who has requests.
pub struct Submitter {
    /// The user's name, with case.
    pub user: Text,
    /// The effective priority, in millionths; lower is better.
    pub effective: u64,
    /// How many slots the user has in use.
    pub in_use: u32,
    /// How many slots the user may have at most, where that is bounded.
    pub ceiling: Option<u32>,
    pub jobs: RequestList,
}

impl Drop for Submitter {
    fn drop(self) {
        let Submitter {
            user: _user,
            effective: _,
            in_use: _,
            ceiling: _,
            jobs: _jobs,
        } = self;
    }
}

/// A list of submitters.
pub type SubmitterList = Seq<Submitter>;

/// Who has a slot's claim.
#[derive(Drop)]
pub struct Holder {
    /// The user's name, with case.
    pub user: Text,
    /// The user's effective priority, in millionths.
    pub effective: u64,
    /// How the slot ranks the job that has its claim.
    pub rank: i64,
}

/// A slot that offers a claim.
pub struct Offer {
    pub slot: SlotId,
    /// As `slot1@m1` (HTCondor manual, Machine ClassAd Attributes, Name).
    pub name: Text,
    pub claim: ClaimId,
    pub ad: Ad,
    pub holder: Option<Holder>,
}

impl Drop for Offer {
    fn drop(self) {
        let Offer {
            slot: _,
            name: _name,
            claim: _,
            ad: _ad,
            holder: _holder,
        } = self;
    }
}

/// A list of slots that offer claims.
pub type OfferList = Seq<Offer>;

/// What a cycle is made of.
pub struct Snapshot {
    /// A reading: seconds since 1970-01-01 00:00:00 UTC.
    pub now: u64,
    pub submitters: SubmitterList,
    pub slots: OfferList,
    /// When a better priority may take a claim (HTCondor manual, PREEMPTION_REQUIREMENTS), with the
    /// slot as MY and the request as TARGET.
    pub preemption: Expr,
}

impl Drop for Snapshot {
    fn drop(self) {
        let Snapshot {
            now: _,
            submitters: _submitters,
            slots: _slots,
            preemption: _preemption,
        } = self;
    }
}

impl Snapshot {
    /// Whether a cycle can be made of it: it has at most `MAX_SLOTS` slots and `MAX_USERS`
    /// submitters, and no effective priority is 0. Computes in O(submitters), without memory.
    pub fn is_negotiable(&self) -> bool
        ensures { IsTrue result ↔ IsSnapshot self.entry.now }
    {
        self.slots.len() <= MAX_SLOTS as usize
            && self.submitters.len() <= MAX_USERS
            && has_priorities(self.submitters.as_slice())
    }
}

// Whether each effective priority is above 0.
fn has_priorities(submitters: &[Submitter]) -> bool
    ensures { IsTrue result ↔ All (λ s. 0 < s.effective) submitters.now }
{
    submitters.iter().all(|s| 0 < s.effective)
}
