ghost use Rattle.std.specs.Prelude.{◌≡◌, ◌≢◌, ◌≤◌, ◌<◌, ◌+◌, ◌^◌, [], true, nat_lt, length, slice_get, None, Some, IfOk, IfErr, IfSome, IsErrOf, OnErr, OnOk};
ghost use Rattle.std.specs.Option.{option_map, option_copied};
ghost use Rattle.pool_view.specs.AbstractStep.{Takes};
ghost use Rattle.thin_pool.specs.declared.event.Event.TheVariants.{Submit, Start, Ended};
ghost use Rattle.thin_pool.specs.Answers.{kept_of};
ghost use Rattle.thin_pool.specs.Moving.{steps_of};
ghost use Rattle.thin_pool.specs.PoolValue.{AreNumberedOnce, job_at, slot_at};
ghost use Rattle.thin_pool.specs.Sound.{IsSound};
ghost use Rattle.thin_pool.specs.View.{view_of};
ghost use Rattle.thin_pool.specs.Jobs.{idle_at, idle_jobs, has_unfinished};
ghost use Rattle.thin_pool.specs.Sameness.{same_ads};
ghost use Rattle.thin_pool.specs.Reactions.{opening_pool, refusal, start_refusal, close_refusal, is_idle_job, is_judged, is_settled, run_of_job, answer_to, last_cluster_after, next_cluster, takes_number, phase_after, pool_after, idle_ads, slot_ads};

use crate::ads::is_same;
use crate::answer::{Answer, StepError, Stepped};
use crate::event::Event;
use crate::job::{Job, LAST_CLUSTER_WITHOUT_JOBS, MAX_JOBS, Phase, SlotRun, run_no};
use crate::jobs::{self, JobTable};
use crate::runs::{RunTable, add_run, copy_runs, remove_run};
use crate::slot::{self, PoolSlotList};
use ad_eval::{Judged, NoMatch};
use ad_tree::{Ad, AdList};
use ad_value::{Copied, Memory};
use claim_id::{JobId, RunNo, SlotId};
use indexmap::IndexMap;
use job_launch::launch_of;
use pool_mail::End;
use std::alloc::Global;
use std::marker::Model;

/// A pool of slots and jobs, which contracts see as a `PoolValue`.
pub struct Pool {
    slots: PoolSlotList,
    jobs: JobTable,
    runs: RunTable,
    last_cluster: u32,
    started: u64,
    latest: u64,
    closed: bool,
}

impl Drop for Pool {
    fn drop(self) {
        let Pool {
            slots: _slots,
            jobs: _jobs,
            runs: _runs,
            last_cluster: _,
            started: _,
            latest: _,
            closed: _,
        } = self;
    }
}

impl Model for Pool {
    ghost use Rattle.thin_pool.specs.PoolValue.{PoolValue, pool_value};
    ghost use Rattle.thin_pool.specs.Sound.{IsSound};
    ghost use Rattle.std.specs.Coded.{codes};
    ghost use Rattle.thin_pool.specs.contracts.slot.PoolSlot as slot_ad;
    ghost use Rattle.thin_pool.specs.contracts.job.Job as job;
    ghost use Rattle.thin_pool.specs.contracts.job.SlotRun as run;

    ghost Value = { PoolValue };

    ghost coded = { Prim.hlevel
        (codes, slot_ad.the_row.coded, job.the_row.coded, run.the_row.coded) };

    ghost view = { λ p. pool_value p.slots p.jobs.entries p.runs.entries p.last_cluster p.started
        p.latest p.closed };

    ghost invariant = { λ p. IsSound (pool_value p.slots p.jobs.entries p.runs.entries
        p.last_cluster p.started p.latest p.closed) };
}

impl Pool {
    /// A pool of these slots, without jobs. Computes in O(1), without memory.
    pub fn open(alloc: Global, slots: PoolSlotList) -> Pool
        requires some { slots ≢ [] }
        requires once { AreNumberedOnce slots }
        ensures { result ≡ opening_pool slots }
    {
        Pool {
            slots,
            jobs: IndexMap::new(alloc),
            runs: IndexMap::new(alloc),
            last_cluster: 0,
            started: 0,
            latest: 0,
            closed: false,
        }
    }

    /// What always holds of a pool; nothing is computed.
    pub fn soundness(&self)
        ensures { IsSound self.now }
    {
        let _ = &self.slots;
    }

    /// The slots, as they were at its opening. Computes in O(1).
    pub fn slots(&self) -> &PoolSlotList
        ensures { result.now ≡ self.now.slots }
    {
        &self.slots
    }

    /// The job of that number. Computes in O(1).
    pub fn job(&self, job: JobId) -> Option<&Job>
        ensures { option_copied result ≡ job_at job self.now.jobs }
    {
        self.jobs.get(&job)
    }

    /// The job that was submitted at that place, from 0. Computes in O(1).
    pub fn job_at(&self, place: usize) -> Option<(JobId, &Job)>
        ensures { option_map (λ e. (e.0, e.1.now)) result ≡ slice_get self.now.jobs place }
    {
        let (id, job) = self.jobs.get_index(place)?;
        Some((*id, job))
    }

    /// How many jobs were submitted. Computes in O(1).
    pub fn job_count(&self) -> usize
        ensures count { result ≡ length self.now.jobs }
        ensures few { result ≤ MAX_JOBS }
    {
        self.jobs.len()
    }

    /// The number of the cluster that the next submission is. Computes in O(1).
    pub fn next_cluster(&self) -> u32
        ensures { result ≡ next_cluster self.now }
    {
        self.last_cluster + 1
    }

    /// Copies of the ads of the idle jobs, in the order of their submission. Computes in O(jobs),
    /// and in O(size of the ads).
    pub fn idle_ads(&self, alloc: Global) -> Result<AdList, Memory>
        ensures { IfOk result (λ l. l ≡ idle_ads self.now.jobs) }
    {
        jobs::idle_ads(alloc, &self.jobs)
    }

    /// The idle job at a place among the idle ones, from 0. Computes in O(jobs).
    pub fn idle_job(&self, place: usize) -> Option<(JobId, &Ad)>
        ensures { option_map (λ e. (e.0, e.1.now)) result ≡ slice_get (idle_jobs self.now.jobs)
            place }
    {
        jobs::idle_job(&self.jobs, place)
    }

    /// The job that was submitted at a place, from 0, where it is idle. Computes in O(1).
    pub fn idle_at(&self, place: usize) -> Option<(JobId, &Ad)>
        ensures { option_map (λ e. (e.0, e.1.now)) result ≡ idle_at place self.now.jobs }
    {
        jobs::idle_at(&self.jobs, place)
    }

    /// Copies of the slots' ads. Computes in O(size of the ads).
    pub fn slot_ads(&self, alloc: Global) -> Result<AdList, Memory>
        ensures { IfOk result (λ l. l ≡ slot_ads self.now.slots) }
    {
        slot::slot_ads(alloc, self.slots.as_slice())
    }

    /// The greatest reading so far, in seconds since 1970-01-01 00:00:00 UTC, 0 at first. Computes
    /// in O(1).
    pub fn latest(&self) -> u64
        ensures { result ≡ self.now.latest }
    {
        self.latest
    }

    /// Whether a Close was accepted. Computes in O(1).
    pub fn is_closed(&self) -> bool
        ensures { result ≡ self.now.closed }
    {
        self.closed
    }

    /// Whether some job isn't finished. Computes in O(jobs).
    pub fn has_unfinished(&self) -> bool
        ensures { result ≡ has_unfinished self.now.jobs }
    {
        jobs::has_unfinished(&self.jobs)
    }
}

impl Copied for Pool {
    fn copy(&self, alloc: Global) -> Result<Pool, Memory> {
        Ok(Pool {
            slots: self.slots.copy(alloc)?,
            jobs: jobs::copy_jobs(alloc, &self.jobs)?,
            runs: copy_runs(alloc, &self.runs)?,
            last_cluster: self.last_cluster,
            started: self.started,
            latest: self.latest,
            closed: self.closed,
        })
    }
}

impl Pool {
    /// One event. An error leaves the pool as it was. Takes memory for the answer, its equal and
    /// what the pool keeps of the event. A Submit computes in O(size of its ads), a Start in
    /// O(slots) and in O(size of the two ads), an Ended in O(runs that began later), a Close in
    /// O(jobs) and in O(size of the idle jobs' ads and of the slots').
    pub fn step(&mut self, alloc: Global, ev: &Event) -> Result<Stepped, StepError>
        // It is accepted.
        ensures accepted { OnOk result (refusal self.old ev.now ≡ None) }
        ensures answer { IfOk result (λ s. s.answer ≡ answer_to self.old ev.now) }
        ensures kept { IfOk result (λ s. s.kept ≡ kept_of s.answer) }
        ensures next { OnOk result (self.new ≡ pool_after self.old ev.now) }
        ensures moves { OnOk result
            (Takes (view_of self.old) (steps_of self.old ev.now) (view_of self.new)) }

        // It is refused, or memory runs out.
        ensures refused { IfSome (refusal self.old ev.now) (λ e. IsErrOf result e) }
        ensures cause { IfErr result
            (λ e. e ≢ StepError.Memory → refusal self.old ev.now ≡ Some e) }
        ensures same { OnErr result (self.new ≡ self.old) }
    {
        self.soundness();
        if let Some(error) = self.refusal(ev) {
            return Err(error);
        }
        let answer = self.answer_to(alloc, ev)?;
        let kept = answer.keep(alloc)?;
        self.change(alloc, ev)?;
        Ok(Stepped { answer, kept })
    }

    // Why an event isn't accepted.
    fn refusal(&self, ev: &Event) -> Option<StepError>
        ensures { result ≡ refusal self.now ev.now }
    {
        if self.closed {
            return Some(StepError::Closed);
        }
        match ev {
            Event::Submit { jobs, .. } if self.is_full_for(jobs) => Some(StepError::Jobs),
            Event::Start {
                job,
                slot,
                judged,
                reading,
            } => self.start_refusal(*job, *slot, judged, *reading),
            Event::Ended { job, .. } if self.run_of(*job).is_none() => {
                Some(StepError::NoRun { job: *job })
            }
            Event::Close { reading, none } => self.close_refusal(*reading, none),
            _ => None,
        }
    }

    // Whether the jobs would be too many.
    fn is_full_for(&self, jobs: &AdList) -> bool
        ensures { result ≡ nat_lt MAX_JOBS (length self.now.jobs + length jobs.now) }
    {
        jobs.len() > MAX_JOBS - self.jobs.len()
    }

    // Why a Start isn't accepted where the pool is open.
    fn start_refusal(
        &self,
        job: JobId,
        slot: SlotId,
        judged: &Judged,
        reading: u64,
    ) -> Option<StepError>
        ensures { result ≡ start_refusal self.now job slot judged.now reading }
    {
        if self.runs.contains_key(&slot) || !self.has_idle(job) {
            return Some(StepError::Occupied { slot, job });
        }
        if self.is_judged(job, slot, judged, reading) {
            None
        } else {
            Some(StepError::AdMoved { slot })
        }
    }

    // Whether the job is there and idle.
    fn has_idle(&self, job: JobId) -> bool
        ensures { result ≡ is_idle_job (job_at job self.now.jobs) }
    {
        match self.jobs.get(&job) {
            None => false,
            Some(job) => job.phase.is_idle(),
        }
    }

    // Whether the match is one of that job's ad and that slot's, at that reading.
    fn is_judged(&self, job: JobId, slot: SlotId, judged: &Judged, reading: u64) -> bool
        ensures { result ≡ is_judged (job_at job self.now.jobs) (slot_at slot self.now.slots)
            reading judged.now }
    {
        let Some(job) = self.jobs.get(&job) else {
            return false;
        };
        let Some(slot) = slot::slot_at(slot, self.slots.as_slice()) else {
            return false;
        };
        judged.at() == reading
            && (is_same(judged.job(), &job.ad) && is_same(judged.slot(), &slot.ad))
    }

    // The run that the job has.
    fn run_of(&self, job: JobId) -> Option<RunNo>
        ensures { result ≡ run_of_job (job_at job self.now.jobs) }
    {
        match self.jobs.get(&job) {
            None => None,
            Some(job) => job.phase.run(),
        }
    }

    // Why a Close isn't accepted where the pool is open.
    fn close_refusal(&self, reading: u64, none: &NoMatch) -> Option<StepError>
        ensures { result ≡ close_refusal self.now reading none.now }
    {
        if !self.is_settled(reading, none) {
            let slot = slot::first_slot(self.slots.as_slice());
            return Some(StepError::AdMoved { slot });
        }
        if self.runs.is_empty() {
            None
        } else {
            Some(StepError::NotQuiet)
        }
    }

    // Whether it was found that no idle job matches a slot, at that reading.
    fn is_settled(&self, reading: u64, none: &NoMatch) -> bool
        ensures { result ≡ is_settled self.now reading none.now }
    {
        none.at() == reading && (self.are_idle_ads(none.jobs()) && self.are_slot_ads(none.slots()))
    }

    fn are_idle_ads(&self, ads: &AdList) -> bool
        ensures { result ≡ same_ads ads.now (idle_ads self.now.jobs) }
    {
        jobs::are_idle_ads(ads.as_slice(), &self.jobs)
    }

    fn are_slot_ads(&self, ads: &AdList) -> bool
        ensures { result ≡ same_ads ads.now (slot_ads self.now.slots) }
    {
        slot::are_slot_ads(ads.as_slice(), self.slots.as_slice())
    }

    // The answer to an event that is accepted.
    fn answer_to(&self, alloc: Global, ev: &Event) -> Result<Answer, Memory>
        ensures { IfOk result (λ a. a ≡ answer_to self.now ev.now) }
    {
        match ev {
            Event::Start { judged, .. } => Ok(Answer::Launch {
                what: launch_of(alloc, judged.job())?,
            }),
            Event::Submit { .. } | Event::Ended { .. } | Event::Close { .. } => Ok(Answer::Done),
        }
    }

    // The change that an accepted event makes; without memory for it, none.
    fn change(&mut self, alloc: Global, ev: &Event) -> Result<(), Memory>
        requires { refusal self.old ev.now ≡ None }
        ensures ok { OnOk result (self.new ≡ pool_after self.old ev.now) }
        ensures err { OnErr result (self.new ≡ self.old) }
    {
        match ev {
            Event::Submit { jobs, reading } => self.submit(alloc, jobs, *reading),
            Event::Start {
                job,
                slot,
                judged,
                reading,
            } => self.start(alloc, *job, *slot, judged, *reading),
            Event::Ended { job, end, reading } => {
                self.end(*job, *end, *reading);
                Ok(())
            }
            Event::Close { reading, .. } => {
                self.closed = true;
                self.latest = self.latest.max(*reading);
                Ok(())
            }
        }
    }

    fn submit(&mut self, alloc: Global, ads: &AdList, reading: u64) -> Result<(), Memory>
        requires { refusal self.old (Submit ads.now reading) ≡ None }
        ensures ok { OnOk result (self.new ≡ pool_after self.old (Submit ads.now reading)) }
        ensures err { OnErr result (self.new ≡ self.old) }
    {
        let cluster = self.next_cluster();
        let last_cluster = last_cluster_after(self.last_cluster, ads);
        let ads = ads.copy(alloc)?;
        self.jobs.reserve(ads.len())?;
        jobs::add_jobs(&mut self.jobs, cluster, ads.into_vec());
        self.last_cluster = last_cluster;
        self.latest = self.latest.max(reading);
        Ok(())
    }

    fn start(
        &mut self,
        alloc: Global,
        job: JobId,
        slot: SlotId,
        judged: &Judged,
        reading: u64,
    ) -> Result<(), Memory>
        requires { refusal self.old (Start job slot judged.now reading) ≡ None }
        ensures ok { OnOk result
            (self.new ≡ pool_after self.old (Start job slot judged.now reading)) }
        ensures err { OnErr result (self.new ≡ self.old) }
    {
        let judged = judged.copy(alloc)?;
        self.runs.reserve(1)?;
        let number = self.started + 1;
        let until = reading;
        let run = run_no(slot, number);
        jobs::set_phase(&mut self.jobs, job, Phase::Running { run, until });
        let run = SlotRun {
            job,
            number,
            judged,
            until,
        };
        add_run(&mut self.runs, slot, run);
        self.started = number;
        self.latest = self.latest.max(reading);
        Ok(())
    }

    fn end(&mut self, job: JobId, end: End, reading: u64)
        requires { refusal self.old (Ended job end reading) ≡ None }
        ensures { self.new ≡ pool_after self.old (Ended job end reading) }
    {
        let own = self.run_of(job).unwrap();
        jobs::set_phase(&mut self.jobs, job, phase_after(own, end));
        remove_run(&mut self.runs, own.claim.slot);
        self.latest = self.latest.max(reading);
    }
}

// The number of the last cluster, with one more submission.
fn last_cluster_after(last: u32, ads: &AdList) -> u32
    requires { last + 1 < 2 ^ 32 }
    ensures { result ≡ last_cluster_after last ads.now }
{
    if takes_number(last, ads) {
        last + 1
    } else {
        last
    }
}

fn takes_number(last: u32, ads: &AdList) -> bool
    ensures { result ≡ takes_number last ads.now }
{
    !ads.is_empty() || last < LAST_CLUSTER_WITHOUT_JOBS
}

fn phase_after(run: RunNo, end: End) -> Phase
    ensures { result ≡ phase_after run end }
{
    match end {
        End::NotStarted => Phase::Held { run },
        End::Exited(_) | End::Signalled(_) => Phase::Finished { run, end },
    }
}
