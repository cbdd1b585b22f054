ghost use Rattle.std.specs.Prelude.{◌≡◌, IfOk};

use ad_eval::Judged;
use ad_value::{Copied, Memory, Text};
use claim_id::{ClaimId, JobId, RunNo};
use pool_mail::How;
use std::alloc::Global;

/// Why a run was told to go.
#[derive(Clone, Copy)]
pub enum Mark {
    /// Its schedd asked for it.
    Stopped,
    /// The startd killed it of its own accord.
    Evicted,
}

/// A run that is on a slot.
pub struct Running {
    pub run: RunNo,
    pub job: JobId,
    /// The end of its lease, in seconds since 1970-01-01 00:00:00 UTC.
    pub until: u64,
    pub mark: Option<Mark>,
    /// The match by which it was started.
    pub judged: Judged,
}

/// A claim that a slot holds.
pub struct Held {
    pub claim: ClaimId,
    pub user: Text,
    /// How the slot ranked the job that it was asked for.
    pub rank: i64,
    /// The greatest run number that the claim has used or burned.
    pub last: u64,
    pub running: Option<Running>,
    /// The run that ended last under the claim.
    pub ended: Option<(RunNo, How)>,
    /// When the claim was last heard of, a reading.
    pub heard: u64,
}

/// A claim that waits for a slot's run to leave.
pub struct Rival {
    pub claim: ClaimId,
    pub job: JobId,
    pub user: Text,
    pub rank: i64,
}

impl Drop for Running {
    fn drop(self) {
        let Running {
            run: _,
            job: _,
            until: _,
            mark: _,
            judged: _judged,
        } = self;
    }
}

impl Drop for Held {
    fn drop(self) {
        let Held {
            claim: _,
            user: _user,
            rank: _,
            last: _,
            running: _running,
            ended: _,
            heard: _,
        } = self;
    }
}

impl Drop for Rival {
    fn drop(self) {
        let Rival {
            claim: _,
            job: _,
            user: _user,
            rank: _,
        } = self;
    }
}

impl Copied for Running {
    fn copy(&self, alloc: Global) -> Result<Running, Memory> {
        Ok(Running {
            run: self.run,
            job: self.job,
            until: self.until,
            mark: self.mark,
            judged: self.judged.copy(alloc)?,
        })
    }
}

impl Copied for Held {
    fn copy(&self, alloc: Global) -> Result<Held, Memory> {
        Ok(Held {
            claim: self.claim,
            user: self.user.copy(alloc)?,
            rank: self.rank,
            last: self.last,
            running: copied_running(alloc, &self.running)?,
            ended: self.ended,
            heard: self.heard,
        })
    }
}

fn copied_running(alloc: Global, running: &Option<Running>) -> Result<Option<Running>, Memory>
    ensures { IfOk result (λ copied. copied ≡ running.now) }
{
    match running {
        Some(running) => Ok(Some(running.copy(alloc)?)),
        None => Ok(None),
    }
}

impl Copied for Rival {
    fn copy(&self, alloc: Global) -> Result<Rival, Memory> {
        Ok(Rival {
            claim: self.claim,
            job: self.job,
            user: self.user.copy(alloc)?,
            rank: self.rank,
        })
    }
}

pub(crate) fn copied_held(alloc: Global, held: &Option<Held>) -> Result<Option<Held>, Memory>
    ensures { IfOk result (λ copied. copied ≡ held.now) }
{
    match held {
        Some(held) => Ok(Some(held.copy(alloc)?)),
        None => Ok(None),
    }
}

pub(crate) fn copied_rival(alloc: Global, rival: &Option<Rival>) -> Result<Option<Rival>, Memory>
    ensures { IfOk result (λ copied. copied ≡ rival.now) }
{
    match rival {
        Some(rival) => Ok(Some(rival.copy(alloc)?)),
        None => Ok(None),
    }
}

impl Rival {
    /// Its claim, the job that it was asked for, the job's user and rank.
    pub(crate) fn into_parts(self) -> (ClaimId, JobId, Text, i64)
        ensures { result ≡ (self.claim, self.job, self.user, self.rank) }
    {
        let Rival {
            claim,
            job,
            user,
            rank,
        } = self;
        (claim, job, user, rank)
    }
}
