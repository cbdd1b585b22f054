use ad_tree::Ad;
use ad_value::{Copied, Memory, Seq};
use claim_id::{JobId, RunNo};
use pool_mail::How;
use std::alloc::Global;

/// How a job left the queue.
#[derive(Clone, Copy, PartialEq, Eq)]
pub enum Outcome {
    /// By the end of that run.
    EndedBy { run: RunNo, how: How },
    /// By an order to remove it.
    Removed,
}

/// How a job stands (HTCondor manual, Job ClassAd Attributes, JobStatus).
#[derive(Clone, Copy)]
pub enum State {
    Idle,
    Held,
    /// It was granted to a run; `end` is the end of its lease, in seconds since 1970-01-01 00:00:00
    /// UTC.
    Under { run: RunNo, end: u64 },
    /// It was found under a run of an earlier time of the pool.
    Left,
    /// It has left the queue.
    Done(Outcome),
}

/// A job: the part of its ad that nothing changes, and how it stands.
pub struct Entry {
    pub core: Ad,
    pub state: State,
}

impl Drop for Entry {
    fn drop(self) {
        let Entry {
            core: _core,
            state: _,
        } = self;
    }
}

/// A job with its number.
pub struct JobEntry {
    pub job: JobId,
    pub entry: Entry,
}

impl Drop for JobEntry {
    fn drop(self) {
        let JobEntry {
            job: _,
            entry: _entry,
        } = self;
    }
}

/// A list of jobs with their numbers.
pub type JobEntryList = Seq<JobEntry>;

/// A list of jobs' numbers.
pub type JobIdList = Seq<JobId>;

impl Copied for Entry {
    fn copy(&self, alloc: Global) -> Result<Entry, Memory> {
        Ok(Entry {
            core: self.core.copy(alloc)?,
            state: self.state,
        })
    }
}

impl Copied for JobEntry {
    fn copy(&self, alloc: Global) -> Result<JobEntry, Memory> {
        Ok(JobEntry {
            job: self.job,
            entry: self.entry.copy(alloc)?,
        })
    }
}
