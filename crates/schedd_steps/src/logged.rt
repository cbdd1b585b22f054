// The unfinished transaction is in the log: what is sent then, and what a schedd that comes back
// makes of it.

ghost use Rattle.std.specs.Prelude.{◌≡◌, ◌+◌, ◌-◌, ◌<◌, ◌≤◌, Err, false, true, length, IfErr, IfOk, IsSomeAnd, OnErr, OnOk};
ghost use Rattle.pool_parts.specs.Sizes.{mails_count};
ghost use Rattle.pool_parts.specs.declared.size.TheConstants.{MAX_BYTES};
ghost use Rattle.pool_outer.specs.declared.gate.Daemon.TheVariants.{Schedd};
ghost use Rattle.pool_tables.specs.declared.refusal.StepError.TheVariants as error;
ghost use Rattle.schedd_state.specs.PreparedSchedds.{HasClaimRoom, schedd_after};
ghost use Rattle.pool_parts.specs.Growth.{Grows};
ghost use Rattle.queue_tx.specs.Queues.{with_changes};
ghost use Rattle.schedd_core.specs.Logging.{after_logged, IsReopened};
ghost use Rattle.pool_rules.specs.Deeds.{at_rest};
ghost use Rattle.pool_rules.specs.Happens.{ComesBack};
ghost use Rattle.pool_rules.specs.Limits.{IsLimit, IsTooLarge, IsWithin};
ghost use Rattle.pool_rules.specs.Logging.{IsLogged};
ghost use Rattle.schedd_steps.specs.Counting.{IsBackTooLarge, bytes_after, bytes_planned, planned, submitted};

use crate::logging::{Changed, CountDeed, LogDeed, QueueDeed};
use claim_id::JobId;
use pool_parts::{Stepped, Unfinished};
use pool_state::PoolState;
use pool_steps::{bytes_with, join, limited, new_jobs, nothing_asked};
use pool_tables::StepError;
use schedd_core::{prepare_logged, prepare_reopen};
use schedd_state::PreparedSchedd;
use std::alloc::Global;

/// The unfinished transaction is logged: the jobs of a submission are acknowledged, and what waited
/// for a plan is sent. Bytes where the pool would have more bytes of ads than it may; Memory too
/// where nothing is unfinished, or where it can't be done to the queue; after an error the pool is
/// as it was. Computes as `Queue::prepare` and `Queue::commit`, and as schedd_core's `logged`.
pub fn take_logged(alloc: Global, state: &mut PoolState) -> Result<Stepped, StepError>
    ensures logged { IfOk result (λ r. IsSomeAnd state.old.pending
        (λ p. IsLogged (at_rest state.old) p (at_rest state.new) r)) }
    ensures within { OnOk result (IsWithin state.new) }
    ensures large { result ≡ Err error.Bytes → IsTooLarge (λ new r. IsSomeAnd state.old.pending
        (λ p. IsLogged (at_rest state.old) p new r)) }
    ensures refused { IfErr result IsLimit }
    ensures kept { OnErr result (at_rest state.new ≡ at_rest state.old) }
{
    let LogDeed {
        what,
        queue,
        counts,
    } = LogDeed::new(alloc, state)?;
    match what {
        Unfinished::Submission { cluster, count } => {
            log_submission(alloc, state, queue, counts, cluster, count)?;
            Ok(nothing_asked())
        }
        Unfinished::Plan { .. } => {
            log_plan(alloc, state, queue, counts)?;
            Ok(nothing_asked())
        }
    }
}

// The queue is changed, where the pool may have the bytes of ads that it has then; how many.
fn change_queue(state: &mut PoolState, queue: QueueDeed) -> Result<u64, StepError>
    requires undo { with_changes (with_changes state.old.queue queue.change) queue.undo
        ≡ state.old.queue }
    requires growth { Grows queue.growth state.old.queue
        (with_changes state.old.queue queue.change) }
    ensures queue { OnOk result
        (state.new ≡ record state.old { queue = with_changes state.old.queue queue.change }) }
    ensures bytes { IfOk result
        (λ bytes. bytes ≡ bytes_after (with_changes state.old.queue queue.change) state.old) }
    ensures limit { IfOk result (λ bytes. bytes ≤ MAX_BYTES) }
    ensures large { result ≡ Err error.Bytes
        → MAX_BYTES < bytes_after (with_changes state.old.queue queue.change) state.old }
    ensures refused { IfErr result IsLimit }
    ensures kept { OnErr result (state.new ≡ state.old) }
{
    let Changed { undo, bytes } = queue.commit(&mut state.queue, state.counts.bytes)?;
    match limited(bytes) {
        Ok(bytes) => Ok(bytes),
        Err(error) => {
            state.queue.commit(undo);
            Err(error)
        }
    }
}

fn log_submission(
    alloc: Global,
    state: &mut PoolState,
    queue: QueueDeed,
    counts: CountDeed,
    cluster: u32,
    count: u32,
) -> Result<(), StepError>
    requires undo { with_changes (with_changes state.old.queue queue.change) queue.undo
        ≡ state.old.queue }
    requires growth { Grows queue.growth state.old.queue
        (with_changes state.old.queue queue.change) }
    ensures pool { OnOk result (state.new
        ≡ submitted counts cluster count (with_changes state.old.queue queue.change) state.old) }
    ensures within { OnOk result (IsWithin state.new) }
    ensures large { result ≡ Err error.Bytes
        → MAX_BYTES < bytes_after (with_changes state.old.queue queue.change) state.old }
    ensures refused { IfErr result IsLimit }
    ensures kept { OnErr result (state.new ≡ state.old) }
{
    let jobs = new_jobs(alloc, &state.acked, cluster, count)?;
    let bytes = change_queue(state, queue)?;
    counts.commit(state, bytes);
    state.schedd.note_new(JobId { cluster, proc: 0 });
    join(&mut state.acked, jobs);
    Ok(())
}

// What is made of the schedd, and how many bytes of ads the pool has then.
#[derive(Drop)]
struct ScheddGoesOn {
    prepared: PreparedSchedd,
    bytes: u64,
}

fn log_plan(
    alloc: Global,
    state: &mut PoolState,
    queue: QueueDeed,
    counts: CountDeed,
) -> Result<(), StepError>
    requires undo { with_changes (with_changes state.old.queue queue.change) queue.undo
        ≡ state.old.queue }
    requires growth { Grows queue.growth state.old.queue
        (with_changes state.old.queue queue.change) }
    ensures pool { OnOk result (at_rest state.new
        ≡ planned counts (with_changes state.old.queue queue.change) state.old) }
    ensures within { OnOk result (IsWithin state.new) }
    ensures large { result ≡ Err error.Bytes
        → MAX_BYTES < bytes_planned (with_changes state.old.queue queue.change) state.old }
    ensures refused { IfErr result IsLimit }
    ensures kept { OnErr result (at_rest state.new ≡ at_rest state.old) }
{
    let ScheddGoesOn { prepared, bytes } = go_on_logged(alloc, state, queue)?;
    counts.commit(state, bytes);
    let step = state.schedd.commit(prepared);
    let (mails, _plan) = step.into_parts();
    state.mails.put_all(mails);
    Ok(())
}

// The queue is changed, and what the schedd makes of it prepared.
fn go_on_logged(
    alloc: Global,
    state: &mut PoolState,
    queue: QueueDeed,
) -> Result<ScheddGoesOn, StepError>
    requires undo { with_changes (with_changes state.old.queue queue.change) queue.undo
        ≡ state.old.queue }
    requires growth { Grows queue.growth state.old.queue
        (with_changes state.old.queue queue.change) }
    ensures queue { OnOk result (at_rest state.new ≡ record (at_rest state.old)
        { queue = with_changes state.old.queue queue.change }) }
    ensures schedd { IfOk result (λ d. schedd_after d.prepared state.old.schedd
        ≡ (after_logged state.old.schedd (with_changes state.old.queue queue.change)
        state.old.schedd.waiting).schedd) }
    ensures step { IfOk result (λ d. d.prepared.step ≡ (after_logged state.old.schedd
        (with_changes state.old.queue queue.change) state.old.schedd.waiting).step) }
    ensures claims { IfOk result (λ d. HasClaimRoom d.prepared state.old.schedd) }
    ensures room { IfOk result (λ d. length d.prepared.step.mails ≤ state.new.mails.spare) }
    ensures bytes { IfOk result (λ d. d.bytes
        ≡ bytes_planned (with_changes state.old.queue queue.change) state.old) }
    ensures limit { IfOk result (λ d. d.bytes ≤ MAX_BYTES) }
    ensures large { result ≡ Err error.Bytes
        → MAX_BYTES < bytes_planned (with_changes state.old.queue queue.change) state.old }
    ensures refused { IfErr result IsLimit }
    ensures kept { OnErr result (at_rest state.new ≡ at_rest state.old) }
{
    let Changed { undo, bytes } = queue.commit(&mut state.queue, state.counts.bytes)?;
    match ready_logged(alloc, state, bytes) {
        Ok(ready) => Ok(ready),
        Err(error) => {
            state.queue.commit(undo);
            Err(error)
        }
    }
}

// What the schedd makes of a queue that is changed, of a pool with so many bytes of ads.
fn ready_logged(alloc: Global, state: &mut PoolState, bytes: u64) -> Result<ScheddGoesOn, StepError>
    ensures same { at_rest state.new ≡ at_rest state.old }
    ensures schedd { IfOk result (λ d. schedd_after d.prepared state.old.schedd
        ≡ (after_logged state.old.schedd state.old.queue state.old.schedd.waiting).schedd) }
    ensures step { IfOk result (λ d. d.prepared.step
        ≡ (after_logged state.old.schedd state.old.queue state.old.schedd.waiting).step) }
    ensures claims { IfOk result (λ d. HasClaimRoom d.prepared state.old.schedd) }
    ensures room { IfOk result (λ d. length d.prepared.step.mails ≤ state.new.mails.spare) }
    ensures bytes { IfOk result (λ d. d.bytes ≡ bytes + mails_count (after_logged
        state.old.schedd state.old.queue state.old.schedd.waiting).step.mails) }
    ensures limit { IfOk result (λ d. d.bytes ≤ MAX_BYTES) }
    ensures large { result ≡ Err error.Bytes → MAX_BYTES < bytes + mails_count (after_logged
        state.old.schedd state.old.queue state.old.schedd.waiting).step.mails }
    ensures refused { IfErr result IsLimit }
{
    let prepared = prepare_logged(&state.schedd, alloc, &state.queue)?;
    let bytes = bytes_with(bytes, prepared.step().mails.as_slice())?;
    state.mails.room(prepared.step().mails.len())?;
    Ok(ScheddGoesOn { prepared, bytes })
}

// ---- the schedd comes back

/// The schedd comes back, with its unfinished transaction in the log where it is kept, and without
/// it otherwise. Bytes where the pool would have more bytes of ads than it may; Memory too where
/// nothing is unfinished that is kept, or where it can't be done to the queue; after an error the
/// pool is as it was. Computes as schedd_core's `reopen`, and where a transaction is kept as
/// `Queue::prepare` and `Queue::commit`.
pub fn reopen_schedd(
    alloc: Global,
    state: &mut PoolState,
    kept: bool,
    reading: u64,
) -> Result<Stepped, StepError>
    ensures back { IfOk result
        (ComesBack Schedd kept reading (at_rest state.old) (at_rest state.new)) }
    ensures within { OnOk result (IsWithin state.new) }
    ensures large { result ≡ Err error.Bytes
        → IsTooLarge (ComesBack Schedd kept reading (at_rest state.old)) }
    ensures refused { IfErr result IsLimit }
    ensures kept { OnErr result (state.new ≡ state.old) }
{
    if kept {
        reopen_kept(alloc, state, reading)
    } else {
        reopen_lost(alloc, state, reading)
    }
}

fn reopen_lost(alloc: Global, state: &mut PoolState, reading: u64) -> Result<Stepped, StepError>
    ensures back { IfOk result
        (ComesBack Schedd false reading (at_rest state.old) (at_rest state.new)) }
    ensures within { OnOk result (IsWithin state.new) }
    ensures large { result ≡ Err error.Bytes
        → IsTooLarge (ComesBack Schedd false reading (at_rest state.old)) }
    ensures refused { IfErr result IsLimit }
    ensures kept { OnErr result (state.new ≡ state.old) }
{
    let prepared = prepare_reopen(&state.schedd, alloc, &state.queue, reading)?;
    let _bytes = limited(state.counts.bytes)?;
    let _step = state.schedd.commit(prepared);
    state.pending = None;
    Ok(nothing_asked())
}

fn reopen_kept(alloc: Global, state: &mut PoolState, reading: u64) -> Result<Stepped, StepError>
    ensures back { IfOk result
        (ComesBack Schedd true reading (at_rest state.old) (at_rest state.new)) }
    ensures within { OnOk result (IsWithin state.new) }
    ensures large { result ≡ Err error.Bytes
        → IsTooLarge (ComesBack Schedd true reading (at_rest state.old)) }
    ensures refused { IfErr result IsLimit }
    ensures kept { OnErr result (state.new ≡ state.old) }
{
    let LogDeed { queue, counts, .. } = LogDeed::new(alloc, state)?;
    let ScheddGoesOn { prepared, bytes } = go_on_back(alloc, state, queue, reading)?;
    counts.commit(state, bytes);
    let _step = state.schedd.commit(prepared);
    Ok(nothing_asked())
}

// The queue is changed, and what a schedd that comes back makes of it prepared.
fn go_on_back(
    alloc: Global,
    state: &mut PoolState,
    queue: QueueDeed,
    reading: u64,
) -> Result<ScheddGoesOn, StepError>
    requires undo { with_changes (with_changes state.old.queue queue.change) queue.undo
        ≡ state.old.queue }
    requires growth { Grows queue.growth state.old.queue
        (with_changes state.old.queue queue.change) }
    ensures queue { OnOk result
        (state.new ≡ record state.old { queue = with_changes state.old.queue queue.change }) }
    ensures schedd { IfOk result (λ d. IsReopened state.old.schedd
        (with_changes state.old.queue queue.change) reading
        (schedd_after d.prepared state.old.schedd)) }
    ensures claims { IfOk result (λ d. HasClaimRoom d.prepared state.old.schedd) }
    ensures bytes { IfOk result (λ d. d.bytes
        ≡ bytes_after (with_changes state.old.queue queue.change) state.old) }
    ensures limit { IfOk result (λ d. d.bytes ≤ MAX_BYTES) }
    ensures large { result ≡ Err error.Bytes
        → IsBackTooLarge state.old.schedd (with_changes state.old.queue queue.change) reading
        (bytes_after (with_changes state.old.queue queue.change) state.old) }
    ensures refused { IfErr result IsLimit }
    ensures kept { OnErr result (state.new ≡ state.old) }
{
    let Changed { undo, bytes } = queue.commit(&mut state.queue, state.counts.bytes)?;
    match ready_back(alloc, state, bytes, reading) {
        Ok(ready) => Ok(ready),
        Err(error) => {
            state.queue.commit(undo);
            Err(error)
        }
    }
}

// What a schedd that comes back makes of the queue, of a pool with so many bytes of ads.
fn ready_back(
    alloc: Global,
    state: &PoolState,
    bytes: u64,
    reading: u64,
) -> Result<ScheddGoesOn, StepError>
    ensures schedd { IfOk result (λ d. IsReopened state.now.schedd state.now.queue reading
        (schedd_after d.prepared state.now.schedd)) }
    ensures claims { IfOk result (λ d. HasClaimRoom d.prepared state.now.schedd) }
    ensures bytes { IfOk result (λ d. d.bytes ≡ bytes) }
    ensures limit { IfOk result (λ d. d.bytes ≤ MAX_BYTES) }
    ensures large { result ≡ Err error.Bytes
        → IsBackTooLarge state.now.schedd state.now.queue reading bytes }
    ensures refused { IfErr result IsLimit }
{
    let prepared = prepare_reopen(&state.schedd, alloc, &state.queue, reading)?;
    let bytes = limited(bytes)?;
    Ok(ScheddGoesOn { prepared, bytes })
}
