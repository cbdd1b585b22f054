ghost use Rattle.std.specs.Prelude.{◌≡◌, ◌++◌, ◌∷◌, [], IfOk};
ghost use Rattle.schedd_plan.specs.Plans.{plan_ops, job_of, idle_ops, held_ops, exit_ops, complete_ops, remove_ops, without_run, grant_ops, next_run_ops, lease_ops, run_ops, mark_held_ops, header_op};

use crate::ops::{
    claim_expr, integer_expr, push_delete, push_destroy, push_set, push_status, text_expr,
    truth_expr, whole_expr,
};
use crate::reason::Reason;
use ad_value::names::pool::{
    EXIT_BY_SIGNAL, EXIT_CODE, EXIT_SIGNAL, HOLD_REASON, LEASE_UNTIL, RUN_CLAIM, RUN_NUMBER,
};
use ad_value::{Memory, Text};
use claim_id::{ClaimId, JobId};
use queue_tx::{Key, NEXT_RUN_NUM, Op, Tx};
use std::alloc::Global;

/// The first word that the log keeps beside the key of an ad.
pub const HEADER_KIND: &str = "Job";
/// The second one.
pub const HEADER_OTHER: &str = "Machine";

/// How a job's program came to its end.
#[derive(Clone, Copy)]
pub enum Completion {
    /// It exited with this status.
    Exited(i32),
    /// A signal of this number ended it.
    Signalled(i32),
}

/// What is to be logged of a job. A lease's end is in seconds since 1970-01-01 00:00:00 UTC.
#[derive(Clone, Copy)]
pub enum JobPlan {
    /// It is idle, under no claim.
    PutIdle {
        job: JobId,
    },
    /// It is held, under no claim.
    PutHeld {
        job: JobId,
        reason: Reason,
    },
    /// It leaves the queue, its program has come to its end.
    Complete {
        job: JobId,
        completion: Completion,
    },
    /// It leaves the queue, removed.
    Remove {
        job: JobId,
    },
    /// It is to be removed once its run has ended.
    MarkRemoved {
        job: JobId,
    },
    /// It is to be held once its run has ended.
    MarkHeld {
        job: JobId,
        reason: Reason,
    },
    /// It is to be held or removed no longer.
    MarkRunning {
        job: JobId,
    },
    /// The lease of its run goes on until then.
    Lengthen {
        job: JobId,
        until: u64,
    },
    /// It gets a run of this number under a claim. `header` says whether the queue has a header.
    Grant {
        job: JobId,
        claim: ClaimId,
        number: u64,
        until: u64,
        header: bool,
    },
}

impl JobPlan {
    /// The job that it is about. Computes in O(1).
    pub fn job(self) -> JobId
        ensures { result ≡ job_of self }
    {
        match self {
            JobPlan::PutIdle { job }
            | JobPlan::PutHeld { job, .. }
            | JobPlan::Complete { job, .. }
            | JobPlan::Remove { job }
            | JobPlan::MarkRemoved { job }
            | JobPlan::MarkHeld { job, .. }
            | JobPlan::MarkRunning { job }
            | JobPlan::Lengthen { job, .. }
            | JobPlan::Grant { job, .. } => job,
        }
    }

    /// The transaction that is made of it. Memory too where a number is 2 to the 63 or more.
    /// Computes in O(1).
    pub fn tx(self, alloc: Global) -> Result<Tx, Memory>
        ensures { IfOk result (λ tx. tx ≡ plan_ops self) }
    {
        let mut tx = Tx::new(alloc);
        push_plan(alloc, &mut tx, self)?;
        Ok(tx)
    }
}

#[tactic(auto, unfolding(crate::specs::Plans::plan_ops))]
fn push_plan(alloc: Global, tx: &mut Tx, plan: JobPlan) -> Result<(), Memory>
    ensures { IfOk result (λ _. tx.new ≡ tx.old ++ plan_ops plan) }
{
    match plan {
        JobPlan::PutIdle { job } => push_idle(alloc, tx, job),
        JobPlan::PutHeld { job, reason } => push_held(alloc, tx, job, reason),
        JobPlan::Complete { job, completion } => push_complete(alloc, tx, job, completion),
        JobPlan::Remove { job } => push_remove(alloc, tx, job),
        JobPlan::MarkRemoved { job } => push_status(alloc, tx, job, 3),
        JobPlan::MarkHeld { job, reason } => push_mark_held(alloc, tx, job, reason),
        JobPlan::MarkRunning { job } => push_status(alloc, tx, job, 2),
        JobPlan::Lengthen { job, until } => push_lease(alloc, tx, job, until),
        JobPlan::Grant {
            job,
            claim,
            number,
            until,
            header,
        } => push_grant(alloc, tx, job, claim, number, until, header),
    }
}

fn push_idle(alloc: Global, tx: &mut Tx, job: JobId) -> Result<(), Memory>
    ensures { IfOk result (λ _. tx.new ≡ tx.old ++ idle_ops job) }
{
    push_status(alloc, tx, job, 1)?;
    push_without_run(alloc, tx, job)
}

fn push_without_run(alloc: Global, tx: &mut Tx, job: JobId) -> Result<(), Memory>
    ensures { IfOk result (λ _. tx.new ≡ tx.old ++ without_run job) }
{
    push_delete(alloc, tx, job, RUN_CLAIM)?;
    push_delete(alloc, tx, job, RUN_NUMBER)?;
    push_delete(alloc, tx, job, LEASE_UNTIL)
}

fn push_mark_held(alloc: Global, tx: &mut Tx, job: JobId, reason: Reason) -> Result<(), Memory>
    ensures { IfOk result (λ _. tx.new ≡ tx.old ++ mark_held_ops job reason) }
{
    push_status(alloc, tx, job, 5)?;
    let words = text_expr(alloc, reason.text())?;
    push_set(alloc, tx, Key::Proc(job), HOLD_REASON, words)
}

fn push_held(alloc: Global, tx: &mut Tx, job: JobId, reason: Reason) -> Result<(), Memory>
    ensures { IfOk result (λ _. tx.new ≡ tx.old ++ held_ops job reason) }
{
    push_mark_held(alloc, tx, job, reason)?;
    push_without_run(alloc, tx, job)
}

fn push_complete(
    alloc: Global,
    tx: &mut Tx,
    job: JobId,
    completion: Completion,
) -> Result<(), Memory>
    ensures { IfOk result (λ _. tx.new ≡ tx.old ++ complete_ops job completion) }
{
    push_status(alloc, tx, job, 4)?;
    push_exit(alloc, tx, job, completion)?;
    push_destroy(tx, job)
}

fn push_exit(alloc: Global, tx: &mut Tx, job: JobId, completion: Completion) -> Result<(), Memory>
    ensures { IfOk result (λ _. tx.new ≡ tx.old ++ exit_ops job completion) }
{
    let key = Key::Proc(job);
    match completion {
        Completion::Exited(code) => {
            push_set(alloc, tx, key, EXIT_BY_SIGNAL, truth_expr(false))?;
            push_set(alloc, tx, key, EXIT_CODE, whole_expr(alloc, code)?)
        }
        Completion::Signalled(signal) => {
            push_set(alloc, tx, key, EXIT_BY_SIGNAL, truth_expr(true))?;
            push_set(alloc, tx, key, EXIT_SIGNAL, whole_expr(alloc, signal)?)
        }
    }
}

fn push_remove(alloc: Global, tx: &mut Tx, job: JobId) -> Result<(), Memory>
    ensures { IfOk result (λ _. tx.new ≡ tx.old ++ remove_ops job) }
{
    push_status(alloc, tx, job, 3)?;
    push_destroy(tx, job)
}

fn push_lease(alloc: Global, tx: &mut Tx, job: JobId, until: u64) -> Result<(), Memory>
    ensures { IfOk result (λ _. tx.new ≡ tx.old ++ lease_ops job until) }
{
    push_set(alloc, tx, Key::Proc(job), LEASE_UNTIL, integer_expr(until)?)
}

fn push_run(
    alloc: Global,
    tx: &mut Tx,
    job: JobId,
    claim: ClaimId,
    number: u64,
    until: u64,
) -> Result<(), Memory>
    ensures { IfOk result (λ _. tx.new ≡ tx.old ++ run_ops job claim number until) }
{
    let key = Key::Proc(job);
    push_status(alloc, tx, job, 2)?;
    push_set(alloc, tx, key, RUN_CLAIM, claim_expr(alloc, claim)?)?;
    push_set(alloc, tx, key, RUN_NUMBER, integer_expr(number)?)?;
    push_lease(alloc, tx, job, until)
}

fn push_next_run(alloc: Global, tx: &mut Tx, number: u64) -> Result<(), Memory>
    ensures { IfOk result (λ _. tx.new ≡ tx.old ++ next_run_ops number) }
{
    let Some(next) = number.checked_add(1) else {
        return Err(Memory);
    };
    push_set(alloc, tx, Key::Header, NEXT_RUN_NUM, integer_expr(next)?)
}

fn push_header(alloc: Global, tx: &mut Tx) -> Result<(), Memory>
    ensures { IfOk result (λ _. tx.new ≡ tx.old ++ header_op ∷ []) }
{
    let kind = Text::from_str(alloc, HEADER_KIND)?;
    let other = Text::from_str(alloc, HEADER_OTHER)?;
    tx.push(Op::NewAd {
        key: Key::Header,
        kind,
        other,
    })?;
    Ok(())
}

fn push_grant(
    alloc: Global,
    tx: &mut Tx,
    job: JobId,
    claim: ClaimId,
    number: u64,
    until: u64,
    header: bool,
) -> Result<(), Memory>
    ensures { IfOk result (λ _. tx.new ≡ tx.old ++ grant_ops job claim number until header) }
{
    if header {
        push_run(alloc, tx, job, claim, number, until)?;
        push_next_run(alloc, tx, number)
    } else {
        push_header(alloc, tx)?;
        push_next_run(alloc, tx, number)?;
        push_run(alloc, tx, job, claim, number, until)
    }
}
