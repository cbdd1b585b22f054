ghost use Rattle.std.specs.Prelude.{◌≡◌, ◌↔◌, IsTrue};

use ad_tree::Ad;
use ad_value::{Copied, Memory, Seq};
use claim_id::{ClaimId, JobId};
use std::alloc::Global;

/// A job that wants a slot.
pub struct Request {
    pub job: JobId,
    /// The job's ad, without what it has only while it runs.
    pub ad: Ad,
}

impl Drop for Request {
    fn drop(self) {
        let Request { job: _, ad: _ad } = self;
    }
}

/// A list of jobs that want slots.
pub type RequestList = Seq<Request>;

/// A job and an offered claim that go together: a hint, which the schedd may follow.
#[derive(Clone, Copy, PartialEq, Eq)]
pub struct Match {
    pub job: JobId,
    pub claim: ClaimId,
    /// Whether the job's user may take the claim from one with a worse priority.
    pub by_priority: bool,
}

/// A list of matches.
pub type MatchList = Seq<Match>;

impl Request {
    /// Whether both are the same, their ads as spelled and in the same order, without memory.
    /// Computes in O(size of the smaller).
    pub fn same(&self, other: &Request) -> bool
        ensures { IsTrue result ↔ (self.now ≡ other.now) }
    {
        self.job == other.job && self.ad.same(&other.ad)
    }
}

impl Copied for Request {
    fn copy(&self, alloc: Global) -> Result<Request, Memory> {
        Ok(Request {
            job: self.job,
            ad: self.ad.copy(alloc)?,
        })
    }
}

impl Copied for Match {
    fn copy(&self, _: Global) -> Result<Match, Memory> {
        Ok(*self)
    }
}
