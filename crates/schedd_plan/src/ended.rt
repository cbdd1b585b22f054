// The end of a run, as its job's schedd hears of it.

ghost use Rattle.std.specs.Prelude.{◌≡◌, IfOk};
ghost use Rattle.ad_tree.specs.Tree.{tree};
ghost use Rattle.ad_tree.specs.Ad.{with_attribute};
ghost use Rattle.schedd_plan.specs.Plans.{whole_literal};
ghost use Rattle.schedd_plan.specs.JobAttributes.{status_of};
ghost use Rattle.schedd_plan.specs.EndTable.{completion_of, ad_after_exit, is_remove_asked, completed_plan, ended_ad_plan, plan_at_end, failed_plan};

use crate::places::let_go_ad;
use crate::{Completion, JobPlan, JobStatus, Reason, status_of};
use ad_eval::holds;
use ad_tree::{Ad, Expr};
use ad_value::names::job::{ON_EXIT_HOLD, ON_EXIT_REMOVE};
use ad_value::names::pool::{EXIT_BY_SIGNAL, EXIT_CODE, EXIT_SIGNAL};
use ad_value::{Copied, Memory, Value};
use claim_id::JobId;
use pool_mail::How;
use std::alloc::Global;

// How the program came to its end, where it did.
fn completion_of(how: How) -> Option<Completion>
    ensures { result ≡ completion_of how }
{
    match how {
        How::Exited(code) => Some(Completion::Exited(code)),
        How::Signalled(signal) => Some(Completion::Signalled(signal)),
        How::NotStarted | How::Evicted | How::Stopped => None,
    }
}

/// What becomes of a job whose run has ended. Evaluates OnExitHold
/// and OnExitRemove where its program came to its end; else computes in O(attributes).
#[tactic(auto, unfolding(crate::specs::EndTable::ended_ad_plan))]
pub fn ended_plan(
    alloc: Global,
    job: JobId,
    ad: &Ad,
    how: How,
    reading: u64,
) -> Result<JobPlan, Memory>
    ensures { IfOk result (λ plan. plan ≡ ended_ad_plan job ad.now how reading) }
{
    match completion_of(how) {
        Some(completion) => completed_plan(alloc, job, ad, completion, reading),
        None => Ok(failed_plan(job, ad, how)),
    }
}

// Its program did not come to its end.
fn failed_plan(job: JobId, ad: &Ad, how: How) -> JobPlan
    ensures { result ≡ failed_plan (status_of ad.now) job ad.now how }
{
    match status_of(ad) {
        JobStatus::Removed | JobStatus::Held => let_go_ad(job, ad),
        _ => match how {
            How::NotStarted => JobPlan::PutHeld {
                job,
                reason: Reason::FailedToStart,
            },
            _ => JobPlan::PutIdle { job },
        },
    }
}

// Its program came to its end.
fn completed_plan(
    alloc: Global,
    job: JobId,
    ad: &Ad,
    completion: Completion,
    reading: u64,
) -> Result<JobPlan, Memory>
    ensures { IfOk result (λ plan. plan
        ≡ completed_plan (status_of ad.now) job ad.now completion reading) }
{
    match status_of(ad) {
        JobStatus::Removed => Ok(JobPlan::Remove { job }),
        JobStatus::Held => Ok(JobPlan::Complete { job, completion }),
        _ => plan_at_end(alloc, job, ad, completion, reading),
    }
}

// Its own expressions say what becomes of it.
fn plan_at_end(
    alloc: Global,
    job: JobId,
    ad: &Ad,
    completion: Completion,
    reading: u64,
) -> Result<JobPlan, Memory>
    ensures { IfOk result (λ plan. plan ≡ plan_at_end job ad.now completion reading) }
{
    let after = ad_after_exit(alloc, ad, completion)?;
    if holds(alloc, &after, None, ON_EXIT_HOLD, reading)? {
        return Ok(JobPlan::PutHeld {
            job,
            reason: Reason::ByPolicy,
        });
    }
    if is_remove_asked(alloc, &after, reading)? {
        Ok(JobPlan::Complete { job, completion })
    } else {
        Ok(JobPlan::PutIdle { job })
    }
}

// OnExitRemove, which holds where it is absent.
fn is_remove_asked(alloc: Global, ad: &Ad, reading: u64) -> Result<bool, Memory>
    ensures { IfOk result (λ asked. asked ≡ is_remove_asked ad.now reading) }
{
    if ad.get(ON_EXIT_REMOVE).is_none() {
        return Ok(true);
    }
    holds(alloc, ad, None, ON_EXIT_REMOVE, reading)
}

// The ad with how its program came to its end. Memory too where the ad has no room for that.
fn ad_after_exit(alloc: Global, ad: &Ad, completion: Completion) -> Result<Ad, Memory>
    ensures { IfOk result (λ after. after ≡ ad_after_exit completion ad.now) }
{
    let mut after = ad.copy(alloc)?;
    match completion {
        Completion::Exited(code) => {
            set(
                alloc,
                &mut after,
                EXIT_BY_SIGNAL,
                Expr::Lit(Value::Bool(false)),
            )?;
            set_number(alloc, &mut after, EXIT_CODE, code)?;
        }
        Completion::Signalled(signal) => {
            set(
                alloc,
                &mut after,
                EXIT_BY_SIGNAL,
                Expr::Lit(Value::Bool(true)),
            )?;
            set_number(alloc, &mut after, EXIT_SIGNAL, signal)?;
        }
    }
    Ok(after)
}

fn set_number(alloc: Global, ad: &mut Ad, name: &str, number: i32) -> Result<(), Memory>
    ensures { IfOk result (λ _. ad.new
        ≡ with_attribute name.now (whole_literal number) ad.old) }
{
    let expr = Expr::of(alloc, &Value::Int(i64::from(number)))?;
    set(alloc, ad, name, expr)
}

fn set(alloc: Global, ad: &mut Ad, name: &str, expr: Expr) -> Result<(), Memory>
    ensures { IfOk result (λ _. ad.new ≡ with_attribute name.now (tree expr) ad.old) }
{
    if ad.set(alloc, name, expr).is_err() {
        return Err(Memory);
    }
    Ok(())
}
