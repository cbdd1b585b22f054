// What is due at a reading.

ghost use Rattle.std.specs.Prelude.{◌≡◌, IfOk};
ghost use Rattle.ad_value.specs.Content.{content};
ghost use Rattle.schedd_plan.specs.TickTable.{is_after, lease_seconds, seconds_of, lease_or, lease_end, is_past, is_quiet, run_line, line_of_run, is_run_due, due_run, claim_line, ready_line, asked_line, leaving_line, is_claim_due, due_claim, is_run_act, is_claim_act};

use crate::claims::{KeptClaim, Stage};
use crate::places::{ad_of, is_idle_at};
use crate::runs::{KeptRun, has_job_under};
use crate::{lease_until, natural};
use ad_eval::eval;
use ad_tree::Ad;
use ad_value::names::job::JOB_LEASE_DURATION;
use ad_value::{Memory, Value};
use claim_id::JobId;
use pool_mail::{MAX_SECONDS, Settings};
use queue_tx::Queue;
use std::alloc::Global;

/// The first line of the tick that is due.
#[derive(Clone, Copy)]
pub enum TickLine {
    /// A job that an earlier boot left is let go.
    Left { job: JobId },
    /// The job of a run whose lease is past is let go.
    Past { place: usize },
    /// A run's lease goes on.
    Lengthen { place: usize },
    /// A ready claim gets the job that it names.
    Regrant { place: usize, job: JobId },
    /// A ready claim looks for another job.
    Seek { place: usize },
    /// A claim is given up.
    GiveUp { place: usize },
    Nothing,
}

/// Whether a time has come: so many seconds after a reading. Computes in O(1).
pub fn is_after(since: u64, seconds: u64, reading: u64) -> bool
    ensures { result ≡ is_after since seconds reading }
{
    u128::from(since) + u128::from(seconds) <= u128::from(reading)
}

fn seconds_of(value: &Value, otherwise: u64) -> u64
    ensures { result ≡ seconds_of (content value.now) otherwise }
{
    match value {
        Value::Int(number) => lease_or(natural(*number), otherwise),
        _ => otherwise,
    }
}

fn lease_or(seconds: Option<u64>, otherwise: u64) -> u64
    ensures { result ≡ lease_or seconds otherwise }
{
    match seconds {
        Some(seconds) => {
            if 0 < seconds && seconds <= MAX_SECONDS {
                seconds
            } else {
                otherwise
            }
        }
        None => otherwise,
    }
}

// How long a lease of the job lasts, by its own ad.
fn lease_seconds(alloc: Global, ad: &Ad, settings: &Settings, reading: u64) -> Result<u64, Memory>
    ensures { IfOk result (λ n. n ≡ lease_seconds ad.now settings.now reading) }
{
    let value = eval(alloc, ad, None, JOB_LEASE_DURATION, reading)?;
    Ok(seconds_of(&value, settings.job_lease))
}

/// When a lease of the job that begins at a reading ends. Memory too where that is 2 to the 64 or
/// more. Evaluates JobLeaseDuration.
#[tactic(auto, unfolding(crate::specs::TickTable::lease_end))]
pub fn lease_end(alloc: Global, ad: &Ad, settings: &Settings, reading: u64) -> Result<u64, Memory>
    ensures { IfOk result (λ until. until ≡ lease_end ad.now settings.now reading) }
{
    let seconds = lease_seconds(alloc, ad, settings, reading)?;
    match reading.checked_add(seconds) {
        Some(until) => Ok(until),
        None => Err(Memory),
    }
}

// ---- runs

/// What is due of a run.
#[derive(Clone, Copy)]
pub enum RunLine {
    Past,
    Lengthen,
    Nothing,
}

fn is_past(until: Option<u64>, reading: u64) -> bool
    ensures { result ≡ is_past until reading }
{
    match until {
        Some(until) => until <= reading,
        None => false,
    }
}

fn is_quiet(run: &KeptRun, settings: &Settings, reading: u64) -> bool
    ensures { result ≡ is_quiet run.now settings.now reading }
{
    run.found || is_after(run.alive, settings.alive_interval, reading)
}

/// What is due of a run at a tick. Computes as `Queue::get`.
#[tactic(auto, unfolding(crate::specs::TickTable::run_line))]
pub fn run_line(run: &KeptRun, queue: &Queue, settings: &Settings, reading: u64) -> RunLine
    ensures { result ≡ run_line run.now queue.now settings.now reading }
{
    match ad_of(queue, run.job) {
        Some(ad) => line_of_run(
            is_past(lease_until(ad), reading),
            is_quiet(run, settings, reading),
        ),
        None => RunLine::Nothing,
    }
}

fn line_of_run(past: bool, quiet: bool) -> RunLine
    ensures { result ≡ line_of_run past quiet }
{
    if past {
        RunLine::Past
    } else if quiet {
        RunLine::Lengthen
    } else {
        RunLine::Nothing
    }
}

fn is_run_act(line: RunLine) -> bool
    ensures { result ≡ is_run_act line }
{
    match line {
        RunLine::Past | RunLine::Lengthen => true,
        RunLine::Nothing => false,
    }
}

fn is_run_due(run: &KeptRun, queue: &Queue, settings: &Settings, reading: u64) -> bool
    ensures { result ≡ is_run_due queue.now settings.now reading run.now }
{
    is_run_act(run_line(run, queue, settings, reading))
}

/// The place of the first run of which something is due. Computes in O(runs times log jobs).
pub fn due_run(runs: &[KeptRun], queue: &Queue, settings: &Settings, reading: u64) -> Option<usize>
    ensures { result ≡ due_run runs.now queue.now settings.now reading }
{
    runs.iter()
        .position(|run| is_run_due(run, queue, settings, reading))
}

// ---- claims

/// What is due of a claim.
#[derive(Clone, Copy)]
pub enum ClaimLine {
    Regrant,
    Seek,
    GiveUp,
    Nothing,
}

/// What is due of a claim at a tick. Computes in O(log jobs + runs).
#[tactic(auto, unfolding(crate::specs::TickTable::claim_line))]
pub fn claim_line(
    claim: &KeptClaim,
    runs: &[KeptRun],
    queue: &Queue,
    settings: &Settings,
    reading: u64,
) -> ClaimLine
    ensures { result ≡ claim_line claim.now runs.now queue.now settings.now reading }
{
    let under = has_job_under(runs, claim.claim.no);
    match claim.stage {
        Stage::Asked { at } => asked_line(is_after(at, settings.claim_lease, reading)),
        Stage::Ready => ready_line(under, is_idle_at(queue, claim.job)),
        Stage::Leaving => leaving_line(under),
    }
}

fn asked_line(waited: bool) -> ClaimLine
    ensures { result ≡ asked_line waited }
{
    if waited {
        ClaimLine::GiveUp
    } else {
        ClaimLine::Nothing
    }
}

fn ready_line(under: bool, idle: bool) -> ClaimLine
    ensures { result ≡ ready_line under idle }
{
    if under {
        ClaimLine::Nothing
    } else if idle {
        ClaimLine::Regrant
    } else {
        ClaimLine::Seek
    }
}

fn leaving_line(under: bool) -> ClaimLine
    ensures { result ≡ leaving_line under }
{
    if under {
        ClaimLine::Nothing
    } else {
        ClaimLine::GiveUp
    }
}

fn is_claim_act(line: ClaimLine) -> bool
    ensures { result ≡ is_claim_act line }
{
    match line {
        ClaimLine::Regrant | ClaimLine::Seek | ClaimLine::GiveUp => true,
        ClaimLine::Nothing => false,
    }
}

fn is_claim_due(
    claim: &KeptClaim,
    runs: &[KeptRun],
    queue: &Queue,
    settings: &Settings,
    reading: u64,
) -> bool
    ensures { result ≡ is_claim_due runs.now queue.now settings.now reading claim.now }
{
    is_claim_act(claim_line(claim, runs, queue, settings, reading))
}

/// The place of the first claim of which something is due. Computes in O(claims times (log jobs +
/// runs)).
pub fn due_claim(
    claims: &[KeptClaim],
    runs: &[KeptRun],
    queue: &Queue,
    settings: &Settings,
    reading: u64,
) -> Option<usize>
    ensures { result ≡ due_claim claims.now runs.now queue.now settings.now reading }
{
    claims.iter().position(|claim| is_claim_due(claim, runs, queue, settings, reading))
}
