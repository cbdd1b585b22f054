use ad_value::{Copied, Memory, Seq};
use claim_id::{ClaimNo, SlotId};
use std::alloc::Global;

/// A claim that a slot holds.
#[derive(Clone, Copy)]
pub struct HeldClaim {
    pub claim: ClaimNo,
    /// The greatest number of a run that it used, and 0 before any.
    pub last: u64,
}

/// What a slot remembers of its claims.
#[derive(Clone, Copy)]
pub struct SlotMark {
    /// The boot of its machine.
    pub boot: u64,
    /// The greatest seq of a claim that has ended in this boot, and 0 before any.
    pub ended: u64,
    pub held: Option<HeldClaim>,
}

/// What a slot of that number remembers.
#[derive(Clone, Copy)]
pub struct MarkEntry {
    pub slot: SlotId,
    pub mark: SlotMark,
}

/// A list of what slots remember.
pub type MarkEntryList = Seq<MarkEntry>;

impl Copied for MarkEntry {
    fn copy(&self, _: Global) -> Result<MarkEntry, Memory> {
        Ok(*self)
    }
}
