ghost use Rattle.std.specs.Prelude.{◌≡◌, ◌↔◌, All, Any, IfSome, IsSome, IsTrue, Some};
ghost use Rattle.std.specs.Option.{option_copied};
ghost use Rattle.pool_view.specs.AbstractPool.{HasCore, IsIn};
ghost use Rattle.pool_view.specs.Ads.{core_of};
ghost use Rattle.pool_view.specs.Safe.{Competes, IsAccounted, IsMatched, Safe, Shares};
ghost use Rattle.pool_view.specs.Views.{AllAckedThere, AllJobsAccounted, AllRunsAlone, AllRunsLeasedAlone, AllRunsMatched, ad_at, entry_at, pool_of};

use crate::job::{Entry, JobEntry, Outcome, State};
use crate::run::{EndReport, Run};
use crate::same::is_core_of;
use crate::view::{SlotEntry, View};
use ad_tree::Ad;
use claim_id::{JobId, SlotId};

impl View {
    /// Whether the pool is safe. Every run's slot and job match; no two runs have one slot or one
    /// number; no two runs of one job have leases that aren't past; every acknowledged job is in
    /// the queue or has left it; and every job that has left it did so by an end that was said, or
    /// by an order. Computes in O(jobs^2 + runs^2), without memory.
    pub fn safe(&self) -> bool
        ensures { IsTrue result ↔ Safe (pool_of self.now) }
    {
        self.are_runs_safe() && self.are_jobs_safe()
    }

    fn are_runs_safe(&self) -> bool
        ensures { IsTrue result ↔ (AllRunsMatched self.now × AllRunsAlone self.now
            × AllRunsLeasedAlone self.now) }
    {
        self.are_runs_matched() && self.has_one_run_per_slot() && self.has_one_lease_per_job()
    }

    fn are_jobs_safe(&self) -> bool
        ensures { IsTrue result ↔ (AllAckedThere self.now × AllJobsAccounted self.now) }
    {
        self.are_acknowledged_kept() && self.are_endings_said()
    }

    fn are_runs_matched(&self) -> bool
        ensures { IsTrue result ↔ AllRunsMatched self.now }
    {
        self.runs.as_slice().iter().all(|run| self.is_matched(run))
    }

    fn has_one_run_per_slot(&self) -> bool
        ensures { IsTrue result ↔ AllRunsAlone self.now }
    {
        self.runs.as_slice().iter().all(|run| self.is_alone(run))
    }

    fn has_one_lease_per_job(&self) -> bool
        ensures { IsTrue result ↔ AllRunsLeasedAlone self.now }
    {
        self.runs
            .as_slice()
            .iter()
            .all(|run| self.is_leased_alone(run))
    }

    fn are_acknowledged_kept(&self) -> bool
        ensures { IsTrue result ↔ AllAckedThere self.now }
    {
        self.acked.as_slice().iter().all(|job| self.has_job(*job))
    }

    fn are_endings_said(&self) -> bool
        ensures { IsTrue result ↔ AllJobsAccounted self.now }
    {
        self.jobs
            .as_slice()
            .iter()
            .all(|job| self.is_job_accounted(job.job))
    }
}

// The parts of the test, run by run and job by job.
impl View {
    fn is_matched(&self, run: &Run) -> bool
        ensures { IsTrue result ↔ IsMatched (pool_of self.now) run.now }
    {
        self.has_ad(run.slot, run.judged.slot()) && self.has_core_of(run.job, run.judged.job())
    }

    // Whether the slot has that ad.
    fn has_ad(&self, slot: SlotId, ad: &Ad) -> bool
        ensures { IsTrue result ↔ (ad_at slot self.now.slots ≡ Some ad.now) }
    {
        match self.ad(slot) {
            Some(own) => own.same(ad),
            None => false,
        }
    }

    // Whether the job's core is that of an ad.
    fn has_core_of(&self, job: JobId, ad: &Ad) -> bool
        ensures { IsTrue result ↔ HasCore (pool_of self.now) job (core_of ad.now) }
    {
        match self.entry(job) {
            Some(entry) => is_core_of(&entry.core, ad),
            None => false,
        }
    }

    // Whether no other run has the run's slot or its number.
    fn is_alone(&self, run: &Run) -> bool
        ensures { IsTrue result ↔ All
            (λ other. Shares run.now other → run.now ≡ other) self.now.runs }
    {
        self.runs
            .as_slice()
            .iter()
            .all(|other| !shares(run, other) || run.same(other))
    }

    // Whether no other run of its job has a lease that isn't past, where the run's isn't.
    fn is_leased_alone(&self, run: &Run) -> bool
        ensures { IsTrue result ↔ All
            (λ other. Competes self.now.moment run.now other → run.now ≡ other) self.now.runs }
    {
        self.runs.as_slice().iter().all(|other| !competes(self.moment, run, other)
            || run.same(other))
    }

    fn has_job(&self, job: JobId) -> bool
        ensures { IsTrue result ↔ IsSome (entry_at job self.now.jobs) }
    {
        self.entry(job).is_some()
    }

    fn is_job_accounted(&self, job: JobId) -> bool
        ensures { IsTrue result ↔ IfSome (entry_at job self.now.jobs)
            (λ entry. IsAccounted (pool_of self.now) job entry.state) }
    {
        match self.entry(job) {
            Some(entry) => self.is_accounted(job, entry.state),
            None => true,
        }
    }

    // Whether a job that has left the queue did so by an end that was said, or by an order.
    fn is_accounted(&self, job: JobId, state: State) -> bool
        ensures { IsTrue result ↔ IsAccounted (pool_of self.now) job state }
    {
        match state {
            State::Done(Outcome::EndedBy { run, how }) => self.is_said(EndReport { run, job, how }),
            State::Done(Outcome::Removed) => self.is_ordered(job),
            State::Idle | State::Held | State::Under { .. } | State::Left => true,
        }
    }

    fn is_said(&self, report: EndReport) -> bool
        ensures { IsTrue result ↔ IsIn report self.now.reports }
    {
        has_report(self.reports.as_slice(), report)
    }

    fn is_ordered(&self, job: JobId) -> bool
        ensures { IsTrue result ↔ IsIn job self.now.ordered }
    {
        has_number(self.ordered.as_slice(), job)
    }

    // The first entry of that job.
    fn entry(&self, job: JobId) -> Option<&Entry>
        ensures { option_copied result ≡ entry_at job self.now.jobs }
    {
        entry_at(job, self.jobs.as_slice())
    }

    // The first ad of that slot.
    fn ad(&self, slot: SlotId) -> Option<&Ad>
        ensures { option_copied result ≡ ad_at slot self.now.slots }
    {
        ad_at(slot, self.slots.as_slice())
    }
}

// The first entry of that job.
fn entry_at(job: JobId, entries: &[JobEntry]) -> Option<&Entry>
    ensures { option_copied result ≡ entry_at job entries.now }
{
    for entry in entries {
        if job == entry.job {
            return Some(&entry.entry);
        }
    }
    None
}

// The first ad of that slot.
fn ad_at(slot: SlotId, entries: &[SlotEntry]) -> Option<&Ad>
    ensures { option_copied result ≡ ad_at slot entries.now }
{
    for entry in entries {
        if slot == entry.slot {
            return Some(&entry.ad);
        }
    }
    None
}

fn has_report(reports: &[EndReport], report: EndReport) -> bool
    ensures { IsTrue result ↔ Any (λ own. own ≡ report) reports.now }
{
    reports.iter().any(|own| is_same_report(own, report))
}

fn is_same_report(own: &EndReport, report: EndReport) -> bool
    ensures { IsTrue result ↔ (own.now ≡ report) }
{
    *own == report
}

fn has_number(jobs: &[JobId], job: JobId) -> bool
    ensures { IsTrue result ↔ Any (λ own. own ≡ job) jobs.now }
{
    jobs.iter().any(|own| *own == job)
}

// Whether two runs have one slot or one number.
fn shares(run: &Run, other: &Run) -> bool
    ensures { IsTrue result ↔ Shares run.now other.now }
{
    run.slot == other.slot || run.run.number == other.run.number
}

// Whether two runs are of one job and have leases that aren't past.
fn competes(moment: u64, run: &Run, other: &Run) -> bool
    ensures { IsTrue result ↔ Competes moment run.now other.now }
{
    run.job == other.job && moment < run.until && moment < other.until
}
