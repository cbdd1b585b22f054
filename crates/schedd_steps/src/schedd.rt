// What the schedd does.

ghost use Rattle.std.specs.Prelude.{◌≡◌, ◌+◌, ◌<◌, ◌≤◌, ◌^◌, Err, length, slice_get, IfErr, IfOk, IfSome, IsSomeAnd, OnErr, OnOk};
ghost use Rattle.schedd_state.specs.PreparedSchedds.{HasClaimRoom, schedd_after};
ghost use Rattle.pool_rules.specs.Answers.{answered, answer_with, pending_by};
ghost use Rattle.pool_parts.specs.Sizes.{mails_count};
ghost use Rattle.pool_parts.specs.declared.size.TheConstants.{MAX_BYTES};
ghost use Rattle.pool_tables.specs.declared.refusal.StepError.TheVariants as error;
ghost use Rattle.pool_rules.specs.Deeds.{at_rest, ordered_by, schedd_acts, schedd_answer};
ghost use Rattle.pool_rules.specs.Limits.{IsLimit, IsTooLarge, IsWithin};
ghost use Rattle.pool_steps.specs.Growing.{HasPlaces};
ghost use Rattle.schedd_steps.specs.Ready.{IsReceiptDeed};
ghost use Rattle.pool_rules.specs.Schedds.{ScheddLooks, ScheddReceives, ScheddTicks, jobs_in};
ghost use Rattle.queue_tx.specs.Queues.{IsQueue};
ghost use Rattle.schedd_core.specs.Rows.{after_mail};

use ad_value::Memory;
use claim_id::JobId;
use pool_mail::Mail;
use pool_parts::{Pending, Stepped, Unfinished, ordered_job};
use pool_state::PoolState;
use pool_steps::{Begun, bytes_with, join, maybe_job, nothing_asked};
use pool_tables::StepError;
use queue_tx::{Key, Queue};
use schedd_core::{prepare_check, prepare_receive, prepare_tick};
use schedd_plan::JobPlan;
use schedd_state::PreparedSchedd;
use std::alloc::Global;
use std::collections::LinkedList;

/// What the schedd is to do, what of it is to be logged, which jobs are ordered to be removed, and
/// how many bytes of ads the pool has then, with all their memory.
pub(crate) struct ScheddDeed {
    prepared: PreparedSchedd,
    begun: Option<Begun>,
    ordered: LinkedList<JobId, Global>,
    bytes: u64,
}

impl Drop for ScheddDeed {
    fn drop(self) {
        let ScheddDeed {
            prepared: _prepared,
            begun: _begun,
            ordered: _ordered,
            bytes: _,
        } = self;
    }
}

impl ScheddDeed {
    /// What was prepared is to be done, and perhaps a job is ordered to be removed.
    fn new(
        alloc: Global,
        state: &PoolState,
        prepared: PreparedSchedd,
        ordered: Option<JobId>,
    ) -> Result<ScheddDeed, StepError>
        ensures prepared { IfOk result (λ d. d.prepared ≡ prepared) }
        ensures begun { IfOk result
            (λ d. d.begun ≡ pending_by state.now.next_tx prepared.step.plan) }
        ensures ordered { IfOk result (λ d. d.ordered ≡ jobs_in ordered) }
        ensures places { IfOk result (λ d. HasPlaces state.now.ordered d.ordered) }
        ensures bytes { IfOk result
            (λ d. d.bytes ≡ state.now.counts.bytes + mails_count prepared.step.mails) }
        ensures limit { IfOk result (λ d. d.bytes ≤ MAX_BYTES) }
        ensures large { result ≡ Err error.Bytes
            → MAX_BYTES < state.now.counts.bytes + mails_count prepared.step.mails }
        ensures refused { IfErr result IsLimit }
    {
        let bytes = bytes_with(state.counts.bytes, prepared.step().mails.as_slice())?;
        let begun = begin_plan(alloc, state.next_tx, prepared.step().plan)?;
        let ordered = maybe_job(alloc, &state.ordered, ordered)?;
        Ok(ScheddDeed {
            prepared,
            begun,
            ordered,
            bytes,
        })
    }

    // How many mails it sends.
    fn mails(&self) -> usize
        ensures { result ≡ length self.now.prepared.step.mails }
    {
        self.prepared.step().mails.len()
    }

    // It is done, without memory.
    fn commit(self, state: &mut PoolState) -> Stepped
        requires room { length self.prepared.step.mails ≤ state.old.mails.spare }
        requires claims { HasClaimRoom self.prepared state.old.schedd }
        requires begun { self.begun ≡ pending_by state.old.next_tx self.prepared.step.plan }
        requires places { HasPlaces state.old.ordered self.ordered }
        requires bytes { self.bytes
            ≡ state.old.counts.bytes + mails_count self.prepared.step.mails }
        ensures pool { at_rest state.new
            ≡ schedd_acts (schedd_after self.prepared state.old.schedd) self.prepared.step
            self.ordered state.old }
        ensures bytes { state.new.counts.bytes ≡ self.bytes }
        ensures answer { result ≡ schedd_answer state.old self.prepared.step }
    {
        let ScheddDeed {
            prepared,
            begun,
            ordered,
            bytes,
        } = self;
        let step = state.schedd.commit(prepared);
        let (mails, _plan) = step.into_parts();
        state.mails.put_all(mails);
        state.counts.bytes = bytes;
        join(&mut state.ordered, ordered);
        put_begun(&mut state.pending, begun)
    }
}

// What a schedd plans, perhaps nothing, is to be logged under that number.
fn begin_plan(alloc: Global, number: u64, plan: Option<JobPlan>) -> Result<Option<Begun>, Memory>
    ensures { IfOk result (λ begun. begun ≡ pending_by number plan) }
{
    let Some(plan) = plan else {
        return Ok(None);
    };
    let tx = plan.tx(alloc)?;
    Ok(Some(Begun::new(alloc, number, tx, Unfinished::Plan { plan })?))
}

// What was begun, perhaps nothing, is unfinished from now on.
fn put_begun(pending: &mut Option<Pending>, begun: Option<Begun>) -> Stepped
    ensures pending { pending.new ≡ begun }
    ensures answer { result ≡ answered (answer_with begun) }
{
    match begun {
        Some(begun) => begun.put(pending),
        None => {
            *pending = None;
            nothing_asked()
        }
    }
}

// What is ready is done.
fn take_deed(state: &mut PoolState, deed: ScheddDeed) -> Result<Stepped, Memory>
    requires claims { HasClaimRoom deed.prepared state.old.schedd }
    requires begun { deed.begun ≡ pending_by state.old.next_tx deed.prepared.step.plan }
    requires places { HasPlaces state.old.ordered deed.ordered }
    requires bytes { deed.bytes ≡ state.old.counts.bytes + mails_count deed.prepared.step.mails }
    ensures pool { OnOk result (at_rest state.new
        ≡ schedd_acts (schedd_after deed.prepared state.old.schedd) deed.prepared.step
        deed.ordered state.old) }
    ensures bytes { OnOk result (state.new.counts.bytes ≡ deed.bytes) }
    ensures answer { IfOk result (λ r. r ≡ schedd_answer state.old deed.prepared.step) }
    ensures kept { OnErr result (at_rest state.new ≡ at_rest state.old) }
{
    state.mails.room(deed.mails())?;
    Ok(deed.commit(state))
}

/// Time passes for the schedd. Bytes where the pool would have more bytes of ads than it may; after
/// an error the pool is as it was. Computes as schedd_core's `tick`, and in O(size of what is sent
/// and is to be logged).
pub fn tick_schedd(alloc: Global, state: &mut PoolState, reading: u64) -> Result<Stepped, StepError>
    ensures ticked { IfOk result
        (ScheddTicks (at_rest state.old) reading (at_rest state.new)) }
    ensures within { OnOk result (IsWithin state.new) }
    ensures large { result ≡ Err error.Bytes
        → IsTooLarge (ScheddTicks (at_rest state.old) reading) }
    ensures refused { IfErr result IsLimit }
    ensures kept { OnErr result (at_rest state.new ≡ at_rest state.old) }
{
    let prepared = prepare_tick(&state.schedd, alloc, &state.queue, reading)?;
    let deed = ScheddDeed::new(alloc, state, prepared, None)?;
    let stepped = take_deed(state, deed)?;
    Ok(stepped)
}

/// The schedd looks at the periodic expressions of a job, and the mark up to which all jobs were
/// looked at moves on. Bytes where the pool would have more bytes of ads than it may; after an
/// error the pool is as it was. Computes as schedd_core's `check` and `Schedd::move_mark`, and in
/// O(size of what is to be logged).
pub fn check(
    alloc: Global,
    state: &mut PoolState,
    job: JobId,
    reading: u64,
) -> Result<Stepped, StepError>
    ensures looked { IfOk result
        (ScheddLooks (at_rest state.old) job reading (at_rest state.new)) }
    ensures within { OnOk result (IsWithin state.new) }
    ensures large { result ≡ Err error.Bytes
        → IsTooLarge (ScheddLooks (at_rest state.old) job reading) }
    ensures refused { IfErr result IsLimit }
    ensures kept { OnErr result (at_rest state.new ≡ at_rest state.old) }
{
    show_order(&state.queue);
    let prepared = prepare_check(&state.schedd, alloc, &state.queue, job, reading)?;
    let ordered = ordered_job(prepared.step().plan);
    let deed = ScheddDeed::new(alloc, state, prepared, ordered)?;
    let stepped = take_deed(state, deed)?;
    state.schedd.move_mark(&state.queue);
    Ok(stepped)
}

// A queue stands in the order of its keys.
fn show_order(queue: &Queue)
    ensures { IsQueue queue.now }
{
    let _ = queue.get(&Key::Header);
}

// What the mail of a number is to make of the schedd.
fn ready_receipt(
    alloc: Global,
    state: &PoolState,
    index: u64,
    known: bool,
    reading: u64,
) -> Result<ScheddDeed, StepError>
    ensures ready { IfOk result (λ d. IsSomeAnd (slice_get state.now.mails.sent index)
        (λ s. IsReceiptDeed state.now s.mail known reading d)) }
    ensures claims { IfOk result (λ d. HasClaimRoom d.prepared state.now.schedd) }
    ensures begun { IfOk result
        (λ d. d.begun ≡ pending_by state.now.next_tx d.prepared.step.plan) }
    ensures places { IfOk result (λ d. HasPlaces state.now.ordered d.ordered) }
    ensures bytes { IfOk result
        (λ d. d.bytes ≡ state.now.counts.bytes + mails_count d.prepared.step.mails) }
    ensures limit { IfOk result (λ d. d.bytes ≤ MAX_BYTES) }
    ensures large { result ≡ Err error.Bytes
        → IsSomeAnd (slice_get state.now.mails.sent index) (λ s. MAX_BYTES < state.now.counts.bytes
        + mails_count (after_mail state.now.schedd state.now.queue s.mail reading).step.mails) }
    ensures refused { IfErr result IsLimit }
{
    let Some(sent) = state.mails.get(index) else {
        return Err(StepError::Memory);
    };
    let prepared = prepare_receive(&state.schedd, alloc, &state.queue, &sent.mail, reading)?;
    let ordered = ordered_by(&sent.mail, known);
    ScheddDeed::new(alloc, state, prepared, ordered)
}

/// The schedd receives the mail of a number; `known` says whether the pool has or had the job that
/// the mail orders to be removed. Bytes where the pool would have more bytes of ads than it may;
/// Memory too where there is no such mail; after an error the pool is as it was. Computes as
/// schedd_core's `receive`, and in O(size of what is sent and is to be logged).
pub fn receive_by_schedd(
    alloc: Global,
    state: &mut PoolState,
    index: u64,
    known: bool,
    reading: u64,
) -> Result<Stepped, StepError>
    requires { IfSome (slice_get state.old.mails.sent index) (λ s. s.received + 1 < 2 ^ 64) }
    ensures received { IfOk result (λ r. IsSomeAnd (slice_get state.old.mails.sent index) (λ s.
        ScheddReceives (at_rest state.old) index s.mail known reading (at_rest state.new) r)) }
    ensures within { OnOk result (IsWithin state.new) }
    ensures large { result ≡ Err error.Bytes → IsTooLarge (λ new r.
        IsSomeAnd (slice_get state.old.mails.sent index) (λ s.
        ScheddReceives (at_rest state.old) index s.mail known reading new r)) }
    ensures refused { IfErr result IsLimit }
    ensures kept { OnErr result (at_rest state.new ≡ at_rest state.old) }
{
    let deed = ready_receipt(alloc, state, index, known, reading)?;
    let stepped = take_deed(state, deed)?;
    state.mails.receive(index);
    Ok(stepped)
}

// The job that a mail orders to be removed, where the pool has it or had it.
fn ordered_by(mail: &Mail, known: bool) -> Option<JobId>
    ensures { jobs_in result ≡ ordered_by mail.now known }
{
    match mail {
        Mail::Remove { job } if known => Some(*job),
        _ => None,
    }
}
