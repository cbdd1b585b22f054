use ad_value::{Copied, Memory};
use claim_id::RunNo;
use std::alloc::Global;

/// Why a startd denies what a schedd asked of it.
#[derive(Clone, Copy, PartialEq, Eq)]
pub enum Why {
    /// The claim is not offered, or not held.
    NoSuchClaim,
    /// The job and the slot do not match.
    NotMatched,
    /// The slot ranks the job no higher than the one that has its claim.
    RankTooLow { old: i64, new: i64 },
    /// The run's number is not above the last one that the claim has used.
    Spent { number: u64, last: u64 },
    /// The claim has a run already.
    Occupied { run: RunNo },
    /// The run's lease had ended, `until`, at the reading; both are seconds since 1970-01-01
    /// 00:00:00 UTC.
    LeasePast { until: u64, reading: u64 },
}

impl Copied for Why {
    fn copy(&self, _: Global) -> Result<Why, Memory> {
        Ok(*self)
    }
}
