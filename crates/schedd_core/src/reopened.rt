// What a schedd is when it comes back, by what it finds in the queue.

ghost use Rattle.std.specs.Prelude.{◌≡◌, ◌+◌, ◌++◌, ℕ, List, Option, IfOk, OnErr};
ghost use Rattle.ad_tree.specs.Tree.{tree};
ghost use Rattle.claim_id.specs.declared.numbers.ClaimId.{ClaimId};
ghost use Rattle.queue_tx.specs.Queues.{ad_at};
ghost use Rattle.queue_tx.specs.declared.key.Key.TheVariants.{Proc};
ghost use Rattle.schedd_state.specs.PreparedSchedds.{HasClaimRoom, schedd_after};
ghost use Rattle.schedd_state.specs.Reopening.{IsReader, claim_in, claim_in_tree, found_run, run_found, found_runs, found_claims, claim_found, still_left, is_under_at, next_after, one_run, one_claim, is_under_kind};
ghost use Rattle.schedd_state.specs.Schedds.{nothing_done};
ghost use Rattle.schedd_core.specs.Logging.{IsReopened};

use ad_tree::{Ad, Expr};
use ad_value::names::pool::RUN_CLAIM;
use ad_value::{Copied, Memory, Value};
use claim_id::{ClaimId, JobId};
use queue_tx::{JobKind, Queue, kind_of};
use schedd_plan::{JobPlan, KeptClaim, KeptRun, LeftJobs, Stage, ad_of, is_left, run_number};
use schedd_state::{
    ClaimsChange, LeftChange, LooksChange, PreparedSchedd, RunsChange, Schedd, ScheddChange,
    ScheddStep, under_jobs,
};
use std::alloc::Global;

/// The schedd comes back after a crash, with the queue as logged: what waited is in it, or is
/// lost. Of what it knew it has the jobs that an earlier boot left, and the next run's number.
/// After an error the schedd is as it was. Computes in O((jobs under a claim + jobs left) times
/// log jobs).
pub fn reopen(
    schedd: &mut Schedd,
    alloc: Global,
    queue: &Queue,
    reading: u64,
) -> Result<ScheddStep, Memory>
    ensures schedd { IfOk result (λ _. IsReopened schedd.old queue.now reading schedd.new) }
    ensures step { IfOk result (λ step. step ≡ nothing_done) }
    ensures kept { OnErr result (schedd.new ≡ schedd.old) }
{
    let prepared = prepare_reopen(schedd, alloc, queue, reading)?;
    Ok(schedd.commit(prepared))
}

/// `reopen` but for its `commit`: takes the memory, and changes nothing.
#[tactic(auto, unfolding(crate::specs::Logging::reopened))]
pub fn prepare_reopen(
    schedd: &Schedd,
    alloc: Global,
    queue: &Queue,
    reading: u64,
) -> Result<PreparedSchedd, Memory>
    ensures schedd { IfOk result (λ p. IsReopened schedd.now queue.now reading
        (schedd_after p schedd.now)) }
    ensures step { IfOk result (λ p. p.step ≡ nothing_done) }
    ensures room { IfOk result (λ p. HasClaimRoom p schedd.now) }
{
    let next_run = next_after(queue, schedd.waiting(), schedd.next_run())?;
    let jobs = under_jobs(alloc, queue)?;
    let left = still_left(alloc, queue, schedd.left())?;
    let runs = found_runs(alloc, queue, &jobs, &left, reading)?;
    let claims = found_claims(alloc, queue, &runs)?;
    Ok(PreparedSchedd {
        change: ScheddChange {
            next_run,
            left: LeftChange::All(left),
            claims: ClaimsChange::All(claims),
            runs: RunsChange::All(runs),
            looks: LooksChange::Clear,
            waiting: None,
        },
        step: ScheddStep::nothing(alloc),
    })
}

// The claim whose text an expression is.
fn claim_in_tree(expr: &Expr) -> Option<ClaimId>
    ensures { (read : List ℕ → Option ClaimId) → IsReader read
        → result ≡ claim_in_tree read (tree expr.now) }
{
    match expr {
        Expr::Lit(Value::Str(text)) => claim_of_text(text.as_str()),
        _ => None,
    }
}

fn claim_of_text(text: &str) -> Option<ClaimId>
    ensures { (read : List ℕ → Option ClaimId) → IsReader read → result ≡ read text.now }
{
    ClaimId::read(text).ok()
}

// The claim under which an ad says that its job is.
fn claim_in(ad: &Ad) -> Option<ClaimId>
    ensures { (read : List ℕ → Option ClaimId) → IsReader read
        → result ≡ claim_in read ad.now }
{
    claim_in_tree(ad.get(RUN_CLAIM)?)
}

fn run_found(ad: &Ad, job: JobId, reading: u64) -> Option<KeptRun>
    ensures { (read : List ℕ → Option ClaimId) → IsReader read
        → result ≡ run_found read job reading ad.now }
{
    let claim = claim_in(ad)?;
    let number = run_number(ad)?;
    Some(KeptRun {
        job,
        claim,
        number,
        alive: reading,
        found: true,
    })
}

// The run of a job that wasn't left.
fn found_run(queue: &Queue, left: &LeftJobs, job: JobId, reading: u64) -> Option<KeptRun>
    ensures { (read : List ℕ → Option ClaimId) → IsReader read
        → result ≡ found_run read queue.now left.now reading job }
{
    if is_left(left, job) {
        return None;
    }
    run_found(ad_of(queue, job)?, job, reading)
}

fn push_some(runs: &mut Vec<KeptRun>, run: Option<KeptRun>) -> Result<(), Memory>
    ensures { IfOk result (λ _. runs.new.items ≡ runs.old.items ++ one_run run) }
{
    if let Some(run) = run {
        runs.push(run)?;
    }
    Ok(())
}

// The runs under which jobs of the queue are, in order of the jobs, but for jobs that were left.
fn found_runs(
    alloc: Global,
    queue: &Queue,
    jobs: &[JobId],
    left: &LeftJobs,
    reading: u64,
) -> Result<Vec<KeptRun>, Memory>
    ensures { (read : List ℕ → Option ClaimId) → IsReader read → IfOk result (λ runs.
        runs.items ≡ found_runs read queue.now left.now reading jobs.now) }
{
    let mut runs = Vec::new(alloc);
    for job in jobs {
        push_some(&mut runs, found_run(queue, left, *job, reading))?;
    }
    Ok(runs)
}

// The claim of a run that was found: ready, with its job as its first one.
fn claim_found(alloc: Global, ad: &Ad, run: &KeptRun) -> Result<KeptClaim, Memory>
    ensures { IfOk result (λ claim. claim ≡ claim_found run.now ad.now) }
{
    Ok(KeptClaim {
        claim: run.claim,
        job: run.job,
        stage: Stage::Ready,
        ad: ad.copy(alloc)?,
    })
}

fn push_claim(
    alloc: Global,
    claims: &mut Vec<KeptClaim>,
    queue: &Queue,
    run: &KeptRun,
) -> Result<(), Memory>
    ensures { IfOk result (λ _. claims.new.items
        ≡ claims.old.items ++ one_claim (ad_at (Proc run.now.job) queue.now) run.now) }
{
    if let Some(ad) = ad_of(queue, run.job) {
        let claim = claim_found(alloc, ad, run)?;
        claims.push(claim)?;
    }
    Ok(())
}

// The claims of runs that were found, in the same order.
fn found_claims(alloc: Global, queue: &Queue, runs: &[KeptRun]) -> Result<Vec<KeptClaim>, Memory>
    ensures { IfOk result (λ claims. claims.items ≡ found_claims queue.now runs.now) }
{
    let mut claims = Vec::new(alloc);
    for run in runs {
        push_claim(alloc, &mut claims, queue, run)?;
    }
    Ok(claims)
}

// Whether a job is under a claim.
fn is_under_at(queue: &Queue, job: JobId) -> bool
    ensures { result ≡ is_under_at queue.now job }
{
    match ad_of(queue, job) {
        Some(ad) => is_under_kind(kind_of(ad)),
        None => false,
    }
}

fn is_under_kind(kind: Option<JobKind>) -> bool
    ensures { result ≡ is_under_kind kind }
{
    match kind {
        Some(JobKind::Under) => true,
        _ => false,
    }
}

// The jobs that were left and weren't let go.
fn still_left(alloc: Global, queue: &Queue, left: &LeftJobs) -> Result<LeftJobs, Memory>
    ensures { IfOk result (λ jobs. jobs ≡ still_left queue.now left.now) }
{
    let mut jobs = left.to_vec(alloc)?;
    keep_under(queue, &mut jobs);
    LeftJobs::of(alloc, &jobs)
}

// Of the jobs those that are under a claim.
fn keep_under(queue: &Queue, jobs: &mut Vec<JobId>)
    ensures { jobs.new.items ≡ still_left queue.now jobs.old.items }
{
    jobs.retain(|job| is_under_at(queue, *job));
}

// The number of the run that is granted next, where it was `next` and a plan waited. Memory too
// where that is 2 to the 64.
fn next_after(queue: &Queue, waiting: Option<JobPlan>, next: u64) -> Result<u64, Memory>
    ensures { IfOk result (λ n. n ≡ next_after queue.now waiting next) }
{
    match waiting {
        Some(JobPlan::Grant { job, number, .. }) => {
            if is_under_at(queue, job) {
                number_after(number)
            } else {
                Ok(next)
            }
        }
        _ => Ok(next),
    }
}

pub(crate) fn number_after(number: u64) -> Result<u64, Memory>
    ensures { IfOk result (λ n. n ≡ number + 1) }
{
    match number.checked_add(1) {
        Some(next) => Ok(next),
        None => Err(Memory),
    }
}
