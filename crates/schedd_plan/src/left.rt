// The jobs that an earlier boot of the pool left.

ghost use Rattle.std.specs.Prelude.{◌≡◌, None, Some, slice_get, IfOk};
ghost use Rattle.schedd_plan.specs.JobPlaces.{is_left, taken_off};
ghost use Rattle.schedd_plan.specs.LeftOrder.{AreInOrder, IsNextJob};

use ad_value::{Copied, Memory};
use claim_id::JobId;
use ordered_map::{NewEntry, OrderedMap};
use std::alloc::Global;
use std::marker::Model;
use std::ops::Bound;

/// A mark that a job is in the list.
#[derive(Clone, Copy)]
pub(crate) struct NotedJob;

impl Copied for NotedJob {
    fn copy(&self, _: Global) -> Result<NotedJob, Memory> {
        Ok(NotedJob)
    }
}

/// The jobs that an earlier boot of the pool left. Contracts see them as a list, in order.
pub struct LeftJobs {
    jobs: OrderedMap<JobId, NotedJob>,
}

impl Drop for LeftJobs {
    fn drop(self) {
        let LeftJobs { jobs: _jobs } = self;
    }
}

impl Model for LeftJobs {
    ghost use Rattle.std.specs.Prelude.{List};
    ghost use Rattle.std.specs.Map.{keys_of};
    ghost use Rattle.claim_id.specs.declared.numbers.JobId.{JobId};

    ghost Value = { List JobId };

    ghost view = { λ l. keys_of l.jobs };
}

impl LeftJobs {
    /// The jobs of a list in which each comes before the next. Computes in O(jobs times log jobs).
    pub fn of(alloc: Global, jobs: &[JobId]) -> Result<LeftJobs, Memory>
        requires { AreInOrder jobs.now }
        ensures { IfOk result (λ left. left ≡ jobs.now) }
    {
        let mut left = OrderedMap::new();
        for job in jobs {
            left.put(NewEntry::new(alloc, *job, NotedJob)?);
        }
        Ok(LeftJobs { jobs: left })
    }

    /// Whether a job is one of them. Computes in O(log jobs left), without memory.
    pub fn has(&self, job: JobId) -> bool
        ensures { result ≡ is_left job self.now }
    {
        self.jobs.get(&job).is_some()
    }

    /// The first of them. Computes in O(log jobs left), without memory.
    pub fn first(&self) -> Option<JobId>
        ensures first { result ≡ slice_get self.now 0 }
        ensures next { IsNextJob None self.now result }
        ensures order { AreInOrder self.now }
    {
        let (job, _) = self.jobs.first_past(Bound::Unbounded)?;
        Some(*job)
    }

    /// The first of those that come after a job. Computes in O(log jobs left), without memory.
    pub fn after(&self, job: JobId) -> Option<JobId>
        ensures next { IsNextJob (Some job) self.now result }
        ensures order { AreInOrder self.now }
    {
        let (next, _) = self.jobs.first_past(Bound::Excluded(&job))?;
        Some(*next)
    }

    // The first of those that come after another one, or of all.
    fn next(&self, last: Option<JobId>) -> Option<JobId>
        ensures next { IsNextJob last self.now result }
        ensures order { AreInOrder self.now }
    {
        match last {
            None => self.first(),
            Some(last) => self.after(last),
        }
    }

    /// The list of them. Computes in O(jobs left times log jobs left).
    #[tactic(auto, using(crate::proofs::LeftLists::listed_more, crate::proofs::LeftLists::fewer))]
    pub fn to_vec(&self, alloc: Global) -> Result<Vec<JobId>, Memory>
        ensures list { IfOk result (λ jobs. jobs.items ≡ self.now) }
        ensures order { IfOk result (λ jobs. AreInOrder jobs.items) }
    {
        let mut jobs = Vec::new(alloc);
        let mut last = None;
        'left: while let Some(job) = self.next(last) {
            jobs.push(job)?;
            last = Some(job);
        }
        Ok(jobs)
    }

    /// A job is no longer one of them. Computes in O(log jobs left), without memory.
    pub fn take_off(&mut self, job: JobId)
        ensures { self.new ≡ taken_off job self.old }
    {
        let _ = self.jobs.remove(&job);
    }
}

impl Copied for LeftJobs {
    /// Computes in O(jobs left).
    fn copy(&self, alloc: Global) -> Result<LeftJobs, Memory> {
        Ok(LeftJobs {
            jobs: self.jobs.copy(alloc)?,
        })
    }
}
