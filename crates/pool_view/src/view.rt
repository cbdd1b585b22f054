ghost use Rattle.std.specs.Prelude.{◌≡◌, IfOk};

use crate::job::{JobEntryList, JobIdList};
use crate::mark::MarkEntryList;
use crate::run::{EndReportList, RunList};
use ad_tree::Ad;
use ad_value::{Copied, Memory, Seq};
use claim_id::SlotId;
use std::alloc::Global;

/// A slot's ad, which never changes.
pub struct SlotEntry {
    pub slot: SlotId,
    pub ad: Ad,
}

impl Drop for SlotEntry {
    fn drop(self) {
        let SlotEntry { slot: _, ad: _ad } = self;
    }
}

/// A list of slots' ads.
pub type SlotEntryList = Seq<SlotEntry>;

/// An abstract pool as data. Of the entries of one job or one slot the first counts, and of the
/// other lists only the members.
pub struct View {
    /// The greatest reading, in seconds since 1970-01-01 00:00:00 UTC.
    pub moment: u64,
    /// The number of the next run.
    pub next: u64,
    /// The jobs of the queue, and those that have left it.
    pub jobs: JobEntryList,
    /// The jobs that were acknowledged.
    pub acked: JobIdList,
    /// The jobs that were ordered to be removed.
    pub ordered: JobIdList,
    pub runs: RunList,
    pub marks: MarkEntryList,
    /// How runs ended.
    pub reports: EndReportList,
    pub slots: SlotEntryList,
}

impl Drop for View {
    fn drop(self) {
        let View {
            moment: _,
            next: _,
            jobs: _jobs,
            acked: _acked,
            ordered: _ordered,
            runs: _runs,
            marks: _marks,
            reports: _reports,
            slots: _slots,
        } = self;
    }
}

impl Copied for SlotEntry {
    fn copy(&self, alloc: Global) -> Result<SlotEntry, Memory> {
        Ok(SlotEntry {
            slot: self.slot,
            ad: self.ad.copy(alloc)?,
        })
    }
}

impl Copied for View {
    fn copy(&self, alloc: Global) -> Result<View, Memory> {
        Ok(View {
            moment: self.moment,
            next: self.next,
            jobs: self.jobs.copy(alloc)?,
            acked: copy_jobs(alloc, &self.acked)?,
            ordered: copy_jobs(alloc, &self.ordered)?,
            runs: self.runs.copy(alloc)?,
            marks: self.marks.copy(alloc)?,
            reports: self.reports.copy(alloc)?,
            slots: self.slots.copy(alloc)?,
        })
    }
}

// An equal list of jobs' numbers.
fn copy_jobs(alloc: Global, jobs: &JobIdList) -> Result<JobIdList, Memory>
    ensures { IfOk result (λ copied. copied ≡ jobs.now) }
{
    let mut list = JobIdList::new(alloc);
    for job in jobs.as_slice() {
        list.push(*job)?;
    }
    Ok(list)
}
