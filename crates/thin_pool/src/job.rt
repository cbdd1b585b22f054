ghost use Rattle.std.specs.Prelude.{◌≡◌};
ghost use Rattle.thin_pool.specs.PoolValue.{is_idle, run_no};
ghost use Rattle.thin_pool.specs.Jobs.{is_finished};
ghost use Rattle.thin_pool.specs.Reactions.{run_in};

use ad_eval::Judged;
use ad_tree::Ad;
use ad_value::{Copied, Memory};
use claim_id::{ClaimNo, JobId, RunNo, SlotId};
use pool_mail::End;
use std::alloc::Global;

/// How many jobs a pool takes, over all its submissions.
pub const MAX_JOBS: usize = 10_000;

/// The last number that a submission without jobs takes for its cluster; after it there are as many
/// as jobs can use. The last cluster of all is 4294967294.
pub const LAST_CLUSTER_WITHOUT_JOBS: u32 = 4_294_957_293;

/// How a job stands (HTCondor manual, Job ClassAd Attributes, JobStatus: Idle, Running, Held,
/// Completed). A job that could not be started is held.
#[derive(Clone, Copy)]
pub enum Phase {
    Idle,
    /// `until` is the end of its lease, a reading.
    Running { run: RunNo, until: u64 },
    Held { run: RunNo },
    Finished { run: RunNo, end: End },
}

/// A job: its ad, as it was submitted, and how it stands.
pub struct Job {
    pub ad: Ad,
    pub phase: Phase,
}

impl Drop for Job {
    fn drop(self) {
        let Job { ad: _ad, phase: _ } = self;
    }
}

/// What a slot runs, by which match, and until when, a reading.
pub struct SlotRun {
    pub job: JobId,
    pub number: u64,
    pub judged: Judged,
    pub until: u64,
}

impl Drop for SlotRun {
    fn drop(self) {
        let SlotRun {
            job: _,
            number: _,
            judged: _judged,
            until: _,
        } = self;
    }
}

impl Phase {
    pub fn is_idle(self) -> bool
        ensures { result ≡ is_idle self }
    {
        matches!(self, Phase::Idle)
    }

    pub fn is_finished(self) -> bool
        ensures { result ≡ is_finished self }
    {
        matches!(self, Phase::Finished { .. })
    }

    /// The run that the job has.
    pub fn run(self) -> Option<RunNo>
        ensures { result ≡ run_in self }
    {
        match self {
            Phase::Running { run, .. } => Some(run),
            Phase::Idle | Phase::Held { .. } | Phase::Finished { .. } => None,
        }
    }
}

// A run of the slot's one claim, by its number in the pool, from 1 in the order of starts.
pub(crate) fn run_no(slot: SlotId, number: u64) -> RunNo
    ensures { result ≡ run_no slot number }
{
    RunNo {
        claim: ClaimNo {
            slot,
            boot: 0,
            seq: 1,
        },
        number,
    }
}

impl Copied for Job {
    fn copy(&self, alloc: Global) -> Result<Job, Memory> {
        Ok(Job {
            ad: self.ad.copy(alloc)?,
            phase: self.phase,
        })
    }
}

impl Copied for SlotRun {
    fn copy(&self, alloc: Global) -> Result<SlotRun, Memory> {
        Ok(SlotRun {
            job: self.job,
            number: self.number,
            judged: self.judged.copy(alloc)?,
            until: self.until,
        })
    }
}
