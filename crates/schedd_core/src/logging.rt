// What a logged plan makes of a schedd, and what is sent then.

ghost use Rattle.std.specs.Prelude.{◌≡◌, None, IfOk, OnErr};
ghost use Rattle.queue_tx.specs.Queues.{ad_at};
ghost use Rattle.queue_tx.specs.declared.key.Key.TheVariants.{Proc};
ghost use Rattle.schedd_state.specs.declared.change.ClaimsChange.TheVariants as of_claims;
ghost use Rattle.schedd_state.specs.declared.change.RunsChange.TheVariants as of_runs;
ghost use Rattle.schedd_state.specs.PreparedSchedds.{CanPut, HasClaimRoom, change_after, schedd_after};
ghost use Rattle.schedd_core.specs.Logging.{run_of_job, stops, is_marked, is_stopped, alives, activates, mails_of_plan, after_plan, after_logged};

use crate::reopened::number_after;
use ad_value::Memory;
use claim_id::{JobId, RunNo};
use pool_mail::{Mail, MailList, request_ad};
use queue_tx::Queue;
use schedd_plan::{JobPlan, JobStatus, ad_of, place_of_job, status_of};
use schedd_state::{
    ClaimsChange, LeftChange, LooksChange, PreparedSchedd, RunsChange, Schedd, ScheddChange,
    ScheddStep,
};
use std::alloc::Global;

/// What waited is logged; the queue is the one that came of it. Memory too where the next run's
/// number is 2 to the 64. After an error the schedd is as it was. Computes in O(runs + log jobs
/// left + log jobs).
pub fn logged(schedd: &mut Schedd, alloc: Global, queue: &Queue) -> Result<ScheddStep, Memory>
    ensures schedd { IfOk result (λ _. schedd.new
        ≡ (after_logged schedd.old queue.now schedd.old.waiting).schedd) }
    ensures step { IfOk result (λ step. step
        ≡ (after_logged schedd.old queue.now schedd.old.waiting).step) }
    ensures kept { OnErr result (schedd.new ≡ schedd.old) }
{
    let prepared = prepare_logged(schedd, alloc, queue)?;
    Ok(schedd.commit(prepared))
}

/// `logged` but for its `commit`: takes the memory, and changes nothing.
pub fn prepare_logged(
    schedd: &Schedd,
    alloc: Global,
    queue: &Queue,
) -> Result<PreparedSchedd, Memory>
    ensures schedd { IfOk result (λ p. schedd_after p schedd.now
        ≡ (after_logged schedd.now queue.now schedd.now.waiting).schedd) }
    ensures step { IfOk result (λ p. p.step
        ≡ (after_logged schedd.now queue.now schedd.now.waiting).step) }
    ensures room { IfOk result (λ p. HasClaimRoom p schedd.now) }
{
    let Some(plan) = schedd.waiting() else {
        return Ok(schedd.nothing(alloc));
    };
    let mails = mails_of(schedd, alloc, queue, plan)?;
    let change = settle(schedd, plan)?;
    let step = ScheddStep { mails, plan: None };
    Ok(PreparedSchedd { change, step })
}

// What a plan that was logged changes.
#[tactic(auto, unfolding(crate::specs::Logging::after_plan))]
fn settle(schedd: &Schedd, plan: JobPlan) -> Result<ScheddChange, Memory>
    ensures settled { IfOk result
        (λ change. change_after change schedd.now ≡ after_plan plan schedd.now) }
    ensures room { IfOk result (λ change. CanPut change.claims schedd.now.claims) }
{
    match plan {
        JobPlan::Grant { number, .. } => {
            let next_run = number_after(number)?;
            Ok(logged_change(next_run, LeftChange::Same, LooksChange::Same))
        }
        JobPlan::PutIdle { job } | JobPlan::PutHeld { job, .. } => {
            let left = LeftChange::TakeOff(job);
            Ok(logged_change(schedd.next_run(), left, LooksChange::Same))
        }
        JobPlan::Complete { job, .. } | JobPlan::Remove { job } => {
            let left = LeftChange::TakeOff(job);
            Ok(logged_change(schedd.next_run(), left, LooksChange::Forget(job)))
        }
        _ => Ok(logged_change(schedd.next_run(), LeftChange::Same, LooksChange::Same)),
    }
}

// What is sent once a plan is logged.
#[tactic(auto, unfolding(crate::specs::Logging::mails_of_plan))]
fn mails_of(
    schedd: &Schedd,
    alloc: Global,
    queue: &Queue,
    plan: JobPlan,
) -> Result<MailList, Memory>
    ensures { IfOk result (λ mails. mails ≡ mails_of_plan schedd.now queue.now plan) }
{
    match plan {
        JobPlan::MarkRemoved { job } | JobPlan::MarkHeld { job, .. } => {
            stops(schedd, alloc, job)
        }
        JobPlan::Lengthen { job, until } => alives(schedd, alloc, queue, job, until),
        JobPlan::Grant {
            job,
            claim,
            number,
            until,
            ..
        } => {
            let run = RunNo {
                claim: claim.no,
                number,
            };
            activates(alloc, queue, run, job, until)
        }
        _ => Ok(MailList::new(alloc)),
    }
}

fn run_of(schedd: &Schedd, job: JobId) -> Option<RunNo>
    ensures { result ≡ run_of_job schedd.now.runs job }
{
    let place = place_of_job(schedd.runs(), job)?;
    let kept = schedd.runs().get(place)?;
    Some(kept.run())
}

// The run of a job is stopped.
fn stops(schedd: &Schedd, alloc: Global, job: JobId) -> Result<MailList, Memory>
    ensures { IfOk result (λ mails. mails ≡ stops (run_of_job schedd.now.runs job)) }
{
    let mut mails = MailList::new(alloc);
    if let Some(run) = run_of(schedd, job) {
        mails.push(Mail::Stop { run })?;
    }
    Ok(mails)
}

// The run of a job is told of its lease, and again that it is to be stopped.
fn alives(
    schedd: &Schedd,
    alloc: Global,
    queue: &Queue,
    job: JobId,
    until: u64,
) -> Result<MailList, Memory>
    ensures { IfOk result (λ mails. mails
        ≡ alives (run_of_job schedd.now.runs job) (is_stopped queue.now job) until) }
{
    let mut mails = MailList::new(alloc);
    let Some(run) = run_of(schedd, job) else {
        return Ok(mails);
    };
    mails.push(Mail::Alive { run, until })?;
    if is_stopped(queue, job) {
        mails.push(Mail::Stop { run })?;
    }
    Ok(mails)
}

// What waited is logged, and nothing waits.
fn logged_change(next_run: u64, left: LeftChange, looks: LooksChange) -> ScheddChange
    ensures { result ≡ record {
      next_run = next_run;
      left = left;
      claims = of_claims.Same;
      runs = of_runs.Same;
      looks = looks;
      waiting = None;
    } }
{
    ScheddChange {
        next_run,
        left,
        claims: ClaimsChange::Same,
        runs: RunsChange::Same,
        looks,
        waiting: None,
    }
}

// A run is to start.
fn activates(
    alloc: Global,
    queue: &Queue,
    run: RunNo,
    job: JobId,
    until: u64,
) -> Result<MailList, Memory>
    ensures { IfOk result (λ mails. mails
        ≡ activates (ad_at (Proc job) queue.now) run job until) }
{
    let mut mails = MailList::new(alloc);
    if let Some(ad) = ad_of(queue, job) {
        let ad = request_ad(alloc, ad)?;
        mails.push(Mail::Activate {
            run,
            job,
            ad,
            until,
        })?;
    }
    Ok(mails)
}

// Whether a job is to be held or removed once its run has ended.
fn is_stopped(queue: &Queue, job: JobId) -> bool
    ensures { result ≡ is_stopped queue.now job }
{
    match ad_of(queue, job) {
        Some(ad) => is_marked(status_of(ad)),
        None => false,
    }
}

fn is_marked(status: JobStatus) -> bool
    ensures { result ≡ is_marked status }
{
    match status {
        JobStatus::Removed | JobStatus::Held => true,
        _ => false,
    }
}
