use ad_eval::Judged;
use ad_value::{Copied, Memory, Seq};
use claim_id::{JobId, RunNo, SlotId};
use pool_mail::How;
use std::alloc::Global;

/// A run that a slot has.
pub struct Run {
    pub slot: SlotId,
    pub run: RunNo,
    pub job: JobId,
    /// The end of its lease, in seconds since 1970-01-01 00:00:00 UTC.
    pub until: u64,
    /// The match that it was started by.
    pub judged: Judged,
}

impl Drop for Run {
    fn drop(self) {
        let Run {
            slot: _,
            run: _,
            job: _,
            until: _,
            judged: _judged,
        } = self;
    }
}

/// A list of runs.
pub type RunList = Seq<Run>;

/// How a run ended, by its slot's machine.
#[derive(Clone, Copy, PartialEq, Eq)]
pub struct EndReport {
    pub run: RunNo,
    pub job: JobId,
    pub how: How,
}

/// A list of ends of runs.
pub type EndReportList = Seq<EndReport>;

impl Copied for Run {
    fn copy(&self, alloc: Global) -> Result<Run, Memory> {
        Ok(Run {
            slot: self.slot,
            run: self.run,
            job: self.job,
            until: self.until,
            judged: self.judged.copy(alloc)?,
        })
    }
}

impl Copied for EndReport {
    fn copy(&self, _: Global) -> Result<EndReport, Memory> {
        Ok(*self)
    }
}
