// What is read of a pool.

ghost use Rattle.std.specs.Prelude.{◌≡◌, ◌≢◌, ◌⊎◌, ◌++◌, ◌∷◌, [], filter, if◌then◌else◌, not, false, IfErr, IfOk, IfSome, IsErrOf, IsSome, None, OnErr, Some, slice_get, true};
ghost use Rattle.pool_shown.specs.Slots.{slot_at};
ghost use Rattle.pool_parts.specs.Clusters.{IsNextCluster};
ghost use Rattle.pool_state.specs.PoolJobs.{has_job, is_engaged};
ghost use Rattle.pool_state.specs.Readings.{AreWanted, IsCheckDue, IsDue, IsDueUp, IsLook, IsSomeCheckDue, ad_of_slot, boot_of, hangs_on_slot, hangs_at, is_schedd_up, is_startd_due};
ghost use Rattle.pool_tables.specs.declared.refusal.MailError.TheVariants as error;
ghost use Rattle.pool_tables.specs.DaemonTables.{daemon_state};
ghost use Rattle.pool_tables.specs.MailLists.{IsMailTo, IsNextMail, IsOfPool, mail_error};
ghost use Rattle.schedd_state.specs.DueChecks.{IsFirstDue, IsPassed};

use crate::state::PoolState;
use ad_tree::Ad;
use ad_value::{Copied, Memory};
use claim_id::{JobId, SlotId};
use pool_mail::{Mail, RequestList};
use pool_outer::Daemon;
use pool_parts::{Look, is_finished, jobs_of_kind, next_cluster, requests_of};
use pool_tables::MailError;
use queue_tx::{JobKind, Key, kind_of};
use startd_core::is_tick_tried;
use std::alloc::Global;

impl PoolState {
    /// A copy of the mail of a number, which goes to that daemon. Computes in O(attributes).
    pub fn mail(&self, alloc: Global, who: Daemon, index: u64) -> Result<Mail, MailError>
        ensures mail { IfOk result (λ mail. IsMailTo who index self.now.mails mail) }
        ensures refused { IfErr result
            (λ e. e ≢ error.Memory → mail_error who index self.now.mails ≡ Some e) }
        ensures cause { IfSome (mail_error who index self.now.mails) (λ e. IsErrOf result e) }
    {
        self.mails.mail(alloc, who, index)
    }

    /// The least number of a mail to a daemon that is at least `from`. Computes in O(mails to it
    /// from that number on), without memory.
    pub fn next(&self, who: Daemon, from: u64) -> Option<u64>
        ensures { IsOfPool who self.now.mails → IsNextMail who from self.now.mails result }
    {
        self.mails.next(who, from)
    }

    /// Whether something is due of a daemon at a reading: never of one that is down, nor of the
    /// matchmaker. True too where there is no memory to tell, which only a startd may want. That a
    /// look is told of wherever one is due holds where the jobs up to the schedd's mark were looked
    /// at (`IsPassed`). Computes as the daemons' `due`, and for the schedd as its `first_check`.
    pub fn due(&self, alloc: Global, who: Daemon, reading: u64) -> bool
        ensures due { IsPassed self.now.queue self.now.schedd
            → IsDue who self.now reading → result ≡ true }
        ensures only { result ≡ true
            → IsDue who self.now reading ⊎ (hangs_on_slot who self.now reading ≡ true) }
    {
        self.daemons.is_up(who) && self.is_due_up(alloc, who, reading)
    }

    fn is_due_up(&self, alloc: Global, who: Daemon, reading: u64) -> bool
        ensures due { IsPassed self.now.queue self.now.schedd
            → IsDueUp who self.now reading → result ≡ true }
        ensures only { result ≡ true
            → IsDueUp who self.now reading ⊎ (hangs_on_slot who self.now reading ≡ true) }
    {
        match who {
            Daemon::Schedd => self.schedd.due(&self.queue, reading)
                || self.is_some_check_due(reading),
            Daemon::Startd(machine) => is_tick_tried(self.is_startd_due(alloc, machine, reading)),
            Daemon::Matchmaker => false,
        }
    }

    // Whether a look at the periodic expressions of some job is due.
    fn is_some_check_due(&self, reading: u64) -> bool
        ensures due { IsPassed self.now.queue self.now.schedd
            → IsSomeCheckDue self.now.schedd self.now.queue reading → result ≡ true }
        ensures only { result ≡ true → IsSomeCheckDue self.now.schedd self.now.queue reading }
    {
        self.schedd.first_check(&self.queue, reading).is_some()
    }

    /// The job at whose periodic expressions the schedd is to look next: one that was never looked
    /// at since it came back, else the one that was looked at the longest ago; none where no look
    /// is due, or the schedd is down. That it comes first, and that no look is due, holds where the
    /// jobs up to the schedd's mark were looked at (`IsPassed`). Computes as
    /// `Schedd::first_check`.
    pub fn first_check(&self, reading: u64) -> Option<JobId>
        ensures due { IfSome result (λ job. IsCheckDue job self.now reading) }
        ensures first { IsPassed self.now.queue self.now.schedd → is_schedd_up self.now ≡ true
            → IsFirstDue self.now.schedd self.now.queue reading result }
        ensures down { is_schedd_up self.now ≡ false → result ≡ None }
    {
        if self.daemons.is_up(Daemon::Schedd) {
            self.schedd.first_check(&self.queue, reading)
        } else {
            None
        }
    }

    /// Whether a tick of a machine's startd is due. Computes as the startd's `due`.
    pub fn is_startd_due(&self, alloc: Global, machine: u16, reading: u64) -> Result<bool, Memory>
        ensures due { IfOk result
            (λ due. due ≡ is_startd_due (slice_get self.now.machines machine) reading) }
        ensures refused { OnErr result
            (hangs_at (slice_get self.now.machines machine) reading ≡ true) }
    {
        match self.machines.get(machine) {
            Some(startd) => startd.due(alloc, reading),
            None => Ok(false),
        }
    }

    /// The boot of a daemon of the pool. Computes in O(1).
    pub fn boot(&self, who: Daemon) -> u64
        requires { IsSome (daemon_state who self.now.daemons) }
        ensures { result ≡ boot_of (daemon_state who self.now.daemons) }
    {
        match self.daemons.get(who) {
            Some(state) => state.boot,
            None => 0,
        }
    }

    /// The cluster of the next submission. Computes in O(log jobs) for each cluster in use from
    /// NextClusterNum on.
    pub fn cluster(&self) -> u32
        ensures { IsNextCluster self.now.queue self.now.finished result }
    {
        next_cluster(&self.queue, &self.finished)
    }

    /// Whether a claim that is asked for or ready names the job; a schedd that is down has none.
    /// Computes in O(claims).
    pub fn is_engaged(&self, job: JobId) -> bool
        ensures { result ≡ is_engaged job self.now }
    {
        self.daemons.is_up(Daemon::Schedd) && self.schedd.engages(job)
    }

    /// What the idle jobs ask for that no claim engages, in order; the ads share their attributes.
    /// Computes in O(idle jobs times (log jobs + claims)).
    pub fn wants(&self, alloc: Global) -> Result<RequestList, Memory>
        ensures { IfOk result (AreWanted self.now) }
    {
        let idle = jobs_of_kind(alloc, &self.queue, JobKind::Idle)?;
        let free = self.free_jobs(alloc, &idle)?;
        requests_of(alloc, &self.queue, &free)
    }

    // Those jobs that no claim engages.
    fn free_jobs(&self, alloc: Global, jobs: &[JobId]) -> Result<Vec<JobId>, Memory>
        ensures { IfOk result
            (λ free. free.items ≡ filter (λ job. not (is_engaged job self.now)) jobs.now) }
    {
        let mut free = Vec::new(alloc);
        for job in jobs {
            self.push_free(&mut free, *job)?;
        }
        Ok(free)
    }

    fn push_free(&self, free: &mut Vec<JobId>, job: JobId) -> Result<(), Memory>
        ensures { IfOk result (λ _. free.new.items ≡ (if is_engaged job self.now
            then free.old.items else (free.old.items ++ job ∷ []))) }
    {
        if !self.is_engaged(job) {
            free.push(job)?;
        }
        Ok(())
    }

    /// What there is to close the pool by: the idle jobs, in order, and the slots. Computes in
    /// O(idle jobs times log jobs + slots); the ads share their attributes.
    pub fn look(&self, alloc: Global) -> Result<Look, Memory>
        ensures { IfOk result (IsLook self.now) }
    {
        let idle = jobs_of_kind(alloc, &self.queue, JobKind::Idle)?;
        let idle = requests_of(alloc, &self.queue, &idle)?;
        let slots = self.machines.told_slots(alloc, self.latest)?;
        Ok(Look {
            length: self.events,
            idle,
            slots,
        })
    }

    /// The ad with which a claim of a slot is judged; none where the pool has no such slot.
    /// Computes in O(1); the copy shares its attributes.
    pub fn slot_ad(&self, alloc: Global, slot: SlotId) -> Result<Option<Ad>, Memory>
        ensures { IfOk result (λ ad. ad ≡ ad_of_slot (slot_at slot self.now.machines)) }
    {
        match self.machines.slot(slot) {
            Some(slot) => Ok(Some(slot.ad.copy(alloc)?)),
            None => Ok(None),
        }
    }

    /// Whether the pool has the job, or had it. Computes in O(log jobs), without memory.
    pub fn has_job(&self, job: JobId) -> bool
        ensures { result ≡ has_job job self.now }
    {
        match self.queue.get(&Key::Proc(job)) {
            Some(ad) => kind_of(ad).is_some(),
            None => is_finished(&self.finished, job),
        }
    }
}
