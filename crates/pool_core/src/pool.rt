ghost use Rattle.std.specs.Prelude.{◌≡◌, ◌≢◌, ◌⊎◌, ◌≤◌, ℕ, List, Option, false, true, None, Some, IfErr, IfOk, IfSome, IsErrOf, IsSome, OnErr, OnOk};
ghost use Rattle.claim_id.specs.declared.numbers.ClaimId.{ClaimId};
ghost use Rattle.pool_parts.specs.Appends.{CanAppend};
ghost use Rattle.pool_parts.specs.Loggable.{IsLoggableQueue};
ghost use Rattle.pool_core.specs.KeptPools.{IsKeptPool};
ghost use Rattle.pool_core.specs.Refused.{IsRefused};
ghost use Rattle.pool_shown.specs.Slots.{slot_at};
ghost use Rattle.pool_rules.specs.Deeds.{rested};
ghost use Rattle.pool_rules.specs.Given.{IsGiven};
ghost use Rattle.pool_rules.specs.Happens.{Reacts};
ghost use Rattle.pool_rules.specs.Limits.{IsWithin};
ghost use Rattle.pool_parts.specs.Clusters.{IsNextCluster};
ghost use Rattle.pool_rules.specs.Counted.{CountsBytes, HasFewJobs, held_count};
ghost use Rattle.pool_rules.specs.Histories.{HasView, LaunchesRun, MovesView};
ghost use Rattle.pool_rules.specs.Unfinished.{CanFinish};
ghost use Rattle.pool_rules.specs.Refusals.{IsRefusal};
ghost use Rattle.pool_state.specs.Openings.{CanOpen, IsJobCount, IsOpenedBy};
ghost use Rattle.pool_state.specs.PoolViews.{IsViewOf};
ghost use Rattle.pool_state.specs.Readings.{AreWanted, IsCheckDue, IsDue, IsLook, ad_of_slot, boot_of, hangs_on_slot, is_schedd_up};
ghost use Rattle.pool_tables.specs.declared.refusal.MailError.TheVariants as mail_errors;
ghost use Rattle.pool_tables.specs.declared.refusal.StepError.TheVariants as error;
ghost use Rattle.pool_tables.specs.DaemonTables.{daemon_state};
ghost use Rattle.pool_tables.specs.MailLists.{IsMailTo, IsNextMail, IsOfPool, mail_error};
ghost use Rattle.pool_view.specs.AbstractPool.{AbstractPool};
ghost use Rattle.pool_view.specs.Safe.{Safe};
ghost use Rattle.pool_view.specs.Views.{pool_of};
ghost use Rattle.queue_tx.specs.Printable.{HasPrintableKeys};
ghost use Rattle.schedd_state.specs.DueChecks.{IsFirstDue};
ghost use Rattle.schedd_state.specs.Reopening.{IsReader};
ghost use Rattle.schedd_core.specs.ScheddParts.{IsOrdered};

use crate::happening;
use ad_tree::Ad;
use ad_value::{Copied, Memory};
use claim_id::{JobId, SlotId};
use pool_mail::{Mail, RequestList};
use pool_outer::Daemon;
use pool_parts::{Event, Look, Stepped};
use pool_state::{Opening, PoolState};
use pool_tables::{MailError, Mails, StepError};
use pool_view::View;
use std::alloc::Global;
use std::marker::Model;

/// A pool: its daemons, all mails ever sent, the queue as logged, and what else events are accepted
/// by. Contracts see it as a `PoolState` at rest. Every pool is kept to a protocol of its daemons,
/// so what it shows is safe (`Pool::safety`).
pub struct Pool {
    state: PoolState,
}

impl Drop for Pool {
    fn drop(self) {
        let Pool { state: _state } = self;
    }
}

impl Model for Pool {
    ghost use Rattle.std.specs.Coded.{codes};
    ghost use Rattle.pool_state.specs.contracts.state.PoolState as of_state;
    ghost use Rattle.pool_state.specs.declared.state.PoolState.{PoolState};
    ghost use Rattle.pool_rules.specs.Deeds.{at_rest};

    ghost Value = { PoolState };

    ghost coded = { Prim.hlevel (codes, of_state.the_row.coded) };

    ghost view = { λ p. at_rest p.state };

    ghost use Rattle.pool_core.specs.KeptPools.{IsKeptPool};

    ghost invariant = { λ p. IsKeptPool (at_rest p.state) };
}

impl Pool {
    /// The pool that opens with these parts. Computes in O(slots + machines * crashes + repeats *
    /// log repeats + orders + jobs * log jobs + size of the queue's ads): each ad of the queue is
    /// looked at, and tells that its names differ.
    pub fn open(alloc: Global, opening: Opening) -> Result<Pool, Memory>
        requires can { CanOpen opening }
        requires keys { HasPrintableKeys opening.queue }
        ensures opened { IfOk result (IsOpenedBy opening) }
        ensures ordered { OnOk result (IsOrdered opening.queue) }
    {
        opening.queue.room();
        let state = PoolState::open(alloc, opening)?;
        Ok(Pool { state })
    }

    /// An event happens, where it is accepted: then the pool becomes what `Reacts` says of it. That
    /// moves the abstract pool that it shows by steps of the event that may be made, and what is
    /// launched was matched; what is to be logged can be, over the queue. Counted are the bytes
    /// that it brings, and those that the queue and all mails have more by it. Where it isn't
    /// accepted, the pool is as it was, and the refusal is the first of the order of `StepError`.
    /// Memory too where a count of 64 bits is at its end. Computes as the daemon's call, and beside
    /// that in O(log jobs + size of what is sent and logged); Matches in O(matches * (log jobs +
    /// claims + attributes)); Close in O(slots + orders + size of the idle jobs' ads).
    pub fn step(&mut self, alloc: Global, event: &Event) -> Result<Stepped, StepError>
        requires given { IsGiven event.now self.old }
        ensures accepted { OnOk result (IsRefusal event.now self.old None) }
        ensures reacts { IfOk result (λ r. Reacts self.old event.now r self.new) }
        ensures moves { OnOk result (MovesView event.now self.old self.new) }
        ensures launches { IfOk result (λ r. LaunchesRun r.answer self.new) }
        ensures appends { IfOk result (λ r. CanAppend self.old.queue r.answer) }
        ensures counted { OnOk result (CountsBytes event.now self.old self.new) }
        ensures within { OnOk result (IsWithin self.new) }
        ensures refused { IfErr result (λ e. e ≢ error.Memory → IsRefused event.now self.old e) }
        ensures same { OnErr result (self.new ≡ self.old) }
    {
        happening::step(alloc, &mut self.state, event)
    }

    /// What every pool is: kept to a protocol of its daemons, with few clusters used. It shows an
    /// abstract pool, and whichever it shows is safe. The jobs that it counts are those of the
    /// queue; the ads of the queue and of all mails ever sent are counted; it has no more jobs and
    /// no more bytes than it may; and what is unfinished can be logged. Computes in O(1).
    pub fn safety(&self)
        ensures kept { IsKeptPool self.now }
        ensures shown { (v : AbstractPool) × HasView self.now v }
        ensures safe { (v : AbstractPool) → HasView self.now v → Safe v }
        ensures jobs { IsJobCount self.now.queue self.now.counts.jobs }
        ensures few_jobs { HasFewJobs self.now }
        ensures bytes { held_count self.now ≤ self.now.counts.bytes }
        ensures within { IsWithin self.now }
        ensures loggable { IsLoggableQueue self.now.queue }
        ensures finishes { CanFinish self.now }
    {
        let _ = &self.state;
    }

    /// How many events it has accepted. Computes in O(1), without memory.
    pub fn events(&self) -> u64
        ensures { result ≡ self.now.events }
    {
        self.state.events
    }

    /// All mails ever sent. Computes in O(1).
    pub fn mails(&self) -> &Mails
        ensures { rested result.now ≡ self.now.mails }
    {
        &self.state.mails
    }

    /// A copy of the mail of a number, which goes to that daemon. Computes in O(attributes).
    pub fn mail(&self, alloc: Global, who: Daemon, index: u64) -> Result<Mail, MailError>
        ensures mail { IfOk result (λ mail. IsMailTo who index self.now.mails mail) }
        ensures refused { IfErr result
            (λ e. e ≢ mail_errors.Memory → mail_error who index self.now.mails ≡ Some e) }
        ensures cause { IfSome (mail_error who index self.now.mails) (λ e. IsErrOf result e) }
    {
        self.state.mail(alloc, who, index)
    }

    /// The least number of a mail to a daemon that is at least `from`, without memory. Computes in
    /// O(mails to it from that number on).
    pub fn next(&self, who: Daemon, from: u64) -> Option<u64>
        ensures { IsOfPool who self.now.mails → IsNextMail who from self.now.mails result }
    {
        self.state.next(who, from)
    }

    /// Whether a tick, or a look at the periodic expressions of a job, is due for a daemon at a
    /// reading. True too where there is no memory to tell, which comes only where that hangs on the
    /// Start of a slot. Computes as the daemon's `due`.
    pub fn due(&self, alloc: Global, who: Daemon, reading: u64) -> bool
        ensures due { IsDue who self.now reading → result ≡ true }
        ensures only { result ≡ true
            → IsDue who self.now reading ⊎ (hangs_on_slot who self.now reading ≡ true) }
    {
        self.state.due(alloc, who, reading)
    }

    /// The job at whose periodic expressions the schedd is to look next; none where no look is due,
    /// or the schedd is down. Computes as the schedd's `first_check`.
    pub fn first_check(&self, reading: u64) -> Option<JobId>
        ensures due { IfSome result (λ job. IsCheckDue job self.now reading) }
        ensures first { is_schedd_up self.now ≡ true
            → IsFirstDue self.now.schedd self.now.queue reading result }
        ensures down { is_schedd_up self.now ≡ false → result ≡ None }
    {
        self.state.first_check(reading)
    }

    /// The boot of a daemon of the pool. Computes in O(1).
    pub fn boot(&self, who: Daemon) -> u64
        requires { IsSome (daemon_state who self.now.daemons) }
        ensures { result ≡ boot_of (daemon_state who self.now.daemons) }
    {
        self.state.boot(who)
    }

    /// The cluster of the next submission. Computes in O(log jobs) for each cluster in use from
    /// NextClusterNum on.
    pub fn cluster(&self) -> u32
        ensures { IsNextCluster self.now.queue self.now.finished result }
    {
        self.state.cluster()
    }

    /// What the idle jobs ask for that no claim engages, in order. Computes in O(idle jobs * (log
    /// jobs + claims)).
    pub fn wants(&self, alloc: Global) -> Result<RequestList, Memory>
        ensures { IfOk result (AreWanted self.now) }
    {
        self.state.wants(alloc)
    }

    /// What there is to close the pool by. Computes in O(idle jobs * log jobs + slots).
    pub fn look(&self, alloc: Global) -> Result<Look, Memory>
        ensures { IfOk result (IsLook self.now) }
    {
        self.state.look(alloc)
    }

    /// The ad with which an Ask or Activate of a claim of the slot is judged; none where the pool
    /// has no such slot. Computes in O(1).
    pub fn slot_ad(&self, alloc: Global, slot: SlotId) -> Result<Option<Ad>, Memory>
        ensures { IfOk result (λ ad. ad ≡ ad_of_slot (slot_at slot self.now.machines)) }
    {
        self.state.slot_ad(alloc, slot)
    }

    /// The abstract pool that it stands for, which is safe. Computes in O(jobs * (log jobs + jobs
    /// left) + slots + reports), and O(attributes) for each job.
    pub fn view(&self, alloc: Global) -> Result<View, Memory>
        ensures view { IfOk result (λ view. (read : List ℕ → Option ClaimId) → IsReader read
            → IsViewOf read self.now view) }
        ensures safe { IfOk result (λ view. Safe (pool_of view)) }
    {
        self.state.view(alloc)
    }
}

impl Copied for Pool {
    /// An equal pool. Computes as the copy of a `PoolState`.
    fn copy(&self, alloc: Global) -> Result<Pool, Memory> {
        let state = self.state.copy(alloc)?;
        Ok(Pool { state })
    }
}
