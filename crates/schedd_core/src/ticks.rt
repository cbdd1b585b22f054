// What a tick makes of a schedd.

ghost use Rattle.std.specs.Prelude.{◌≡◌, IfOk, OnErr, Some, slice_get};
ghost use Rattle.std.specs.Option.{option_copied};
ghost use Rattle.schedd_plan.specs.KeptRuns.{with_run};
ghost use Rattle.schedd_state.specs.PreparedSchedds.{HasClaimRoom, schedd_after};
ghost use Rattle.schedd_core.specs.Prepared.{IsPrepared};
ghost use Rattle.schedd_core.specs.Ticks.{IsSought, IsSoughtBy, IsTicked, after_past, later, after_lengthen, after_grant, after_give_up, after_seek, after_line};
ghost use Rattle.schedd_state.specs.DueLines.{tick_line};

use crate::mails::release;
use ad_value::Memory;
use claim_id::JobId;
use queue_tx::{Key, Queue};
use schedd_plan::{
    JobPlan, KeptClaim, KeptRun, TickLine, ad_of, add_run, lease_end, lease_until, let_go,
};
use schedd_state::{ClaimsChange, PreparedSchedd, RunsChange, Schedd, ScheddStep, first_free};
use std::alloc::Global;

/// Time passes: the first thing that is due is done; nothing where nothing is. The queue is the
/// one as logged, and no transaction is unfinished. Memory too where a number is 2 to the 64 or
/// more. After an error the schedd is as it was. Computes as `Schedd::due`, with an evaluation
/// of JobLeaseDuration for a lease, and where a claim looks for another job as
/// `Queue::first_asking`, and in O(claims), for each engaged job up to the one that it gets.
pub fn tick(
    schedd: &mut Schedd,
    alloc: Global,
    queue: &Queue,
    reading: u64,
) -> Result<ScheddStep, Memory>
    ensures ticked { IfOk result (λ step. IsTicked schedd.old queue.now reading schedd.new step) }
    ensures kept { OnErr result (schedd.new ≡ schedd.old) }
{
    let prepared = prepare_tick(schedd, alloc, queue, reading)?;
    Ok(schedd.commit(prepared))
}

/// `tick` but for its `commit`: takes the memory, and changes nothing.
pub fn prepare_tick(
    schedd: &Schedd,
    alloc: Global,
    queue: &Queue,
    reading: u64,
) -> Result<PreparedSchedd, Memory>
    ensures ticked { IfOk result (λ p. IsTicked schedd.now queue.now reading
        (schedd_after p schedd.now) p.step) }
    ensures room { IfOk result (λ p. HasClaimRoom p schedd.now) }
{
    let line = schedd.tick_line(queue, reading);
    let found = sought(schedd, queue, line);
    let prepared = take_line(schedd, alloc, queue, line, found, reading)?;
    Ok(prepared)
}

// The job for a claim that looks for one.
fn sought(schedd: &Schedd, queue: &Queue, line: TickLine) -> Option<Key>
    ensures { IsSought schedd.now queue.now line result }
{
    match line {
        TickLine::Seek { place } => sought_by(schedd, queue, place),
        _ => None,
    }
}

fn sought_by(schedd: &Schedd, queue: &Queue, place: usize) -> Option<Key>
    ensures { IsSoughtBy schedd.now.claims (slice_get schedd.now.claims place) queue.now result }
{
    match claim_at(schedd, place) {
        Some(claim) => first_free(queue, schedd.claims(), &claim.ad),
        None => None,
    }
}

fn take_line(
    schedd: &Schedd,
    alloc: Global,
    queue: &Queue,
    line: TickLine,
    found: Option<Key>,
    reading: u64,
) -> Result<PreparedSchedd, Memory>
    ensures { IfOk result (λ p. IsPrepared schedd.now p
        (after_line schedd.now queue.now line found reading)) }
{
    match line {
        TickLine::Nothing => Ok(schedd.nothing(alloc)),
        TickLine::Left { job } => {
            let prepared = schedd.wait_for(alloc, let_go(queue, job));
            Ok(prepared)
        }
        TickLine::Past { place } => Ok(free_past(schedd, alloc, queue, place)),
        TickLine::Lengthen { place } => lengthen(schedd, alloc, queue, place, reading),
        TickLine::Regrant { place, job } => grant(schedd, alloc, queue, place, job, reading),
        TickLine::Seek { place } => match found {
            Some(key) => grant_found(schedd, alloc, queue, place, key, reading),
            None => give_up(schedd, alloc, place),
        },
        TickLine::GiveUp { place } => give_up(schedd, alloc, place),
    }
}

fn claim_at(schedd: &Schedd, place: usize) -> Option<&KeptClaim>
    ensures { option_copied result ≡ slice_get schedd.now.claims place }
{
    schedd.claims().get(place)
}

fn run_at(schedd: &Schedd, place: usize) -> Option<&KeptRun>
    ensures { option_copied result ≡ slice_get schedd.now.runs place }
{
    schedd.runs().get(place)
}

// The job of the run of a place is let go, and the claim is leaving.
fn free_past(schedd: &Schedd, alloc: Global, queue: &Queue, place: usize) -> PreparedSchedd
    ensures { IsPrepared schedd.now result
        (after_past schedd.now queue.now place (slice_get schedd.now.runs place)) }
{
    let Some(run) = run_at(schedd, place) else {
        return schedd.nothing(alloc);
    };
    let claims = ClaimsChange::Leave {
        claim: run.claim.no,
    };
    let plan = let_go(queue, run.job);
    schedd.wait_with(alloc, claims, RunsChange::Remove { place }, plan)
}

// The lease of the run of a place goes on.
fn lengthen(
    schedd: &Schedd,
    alloc: Global,
    queue: &Queue,
    place: usize,
    reading: u64,
) -> Result<PreparedSchedd, Memory>
    ensures { IfOk result (λ p. IsPrepared schedd.now p (after_lengthen
        schedd.now queue.now place (slice_get schedd.now.runs place) reading)) }
{
    let Some(run) = run_at(schedd, place) else {
        return Ok(schedd.nothing(alloc));
    };
    let job = run.job;
    let Some(ad) = ad_of(queue, job) else {
        return Ok(schedd.nothing(alloc));
    };
    let end = lease_end(alloc, ad, schedd.settings(), reading)?;
    let until = later(end, lease_until(ad));
    let runs = RunsChange::Alive {
        place,
        alive: reading,
        found: false,
    };
    let plan = JobPlan::Lengthen { job, until };
    Ok(schedd.wait_with(alloc, ClaimsChange::Same, runs, plan))
}

// The claim of a place gets the job that was found for it.
fn grant_found(
    schedd: &Schedd,
    alloc: Global,
    queue: &Queue,
    place: usize,
    key: Key,
    reading: u64,
) -> Result<PreparedSchedd, Memory>
    ensures { IfOk result (λ p. IsPrepared schedd.now p
        (after_seek schedd.now queue.now place (Some key) reading)) }
{
    match key {
        Key::Proc(job) => grant(schedd, alloc, queue, place, job, reading),
        Key::Header => give_up(schedd, alloc, place),
    }
}

// The claim of a place gets a job.
fn grant(
    schedd: &Schedd,
    alloc: Global,
    queue: &Queue,
    place: usize,
    job: JobId,
    reading: u64,
) -> Result<PreparedSchedd, Memory>
    ensures { IfOk result (λ p. IsPrepared schedd.now p (after_grant schedd.now queue.now
        place (slice_get schedd.now.claims place) job reading)) }
{
    let Some(kept) = claim_at(schedd, place) else {
        return Ok(schedd.nothing(alloc));
    };
    let claim = kept.claim;
    let Some(ad) = ad_of(queue, job) else {
        return Ok(schedd.nothing(alloc));
    };
    let until = lease_end(alloc, ad, schedd.settings(), reading)?;
    let number = schedd.next_run();
    let header = queue.get(&Key::Header).is_some();
    let run = KeptRun {
        job,
        claim,
        number,
        alive: reading,
        found: false,
    };
    let runs = runs_with(schedd, alloc, run)?;
    let plan = JobPlan::Grant {
        job,
        claim,
        number,
        until,
        header,
    };
    let claims = ClaimsChange::Job { place, job };
    let prepared = schedd.wait_with(alloc, claims, RunsChange::All(runs), plan);
    Ok(prepared)
}

// The runs with one more.
fn runs_with(schedd: &Schedd, alloc: Global, run: KeptRun) -> Result<Vec<KeptRun>, Memory>
    ensures { IfOk result (λ runs. runs.items ≡ with_run run schedd.now.runs) }
{
    let mut runs = Vec::from_slice(alloc, schedd.runs())?;
    add_run(&mut runs, run)?;
    Ok(runs)
}

// The claim of a place is given up.
fn give_up(schedd: &Schedd, alloc: Global, place: usize) -> Result<PreparedSchedd, Memory>
    ensures { IfOk result (λ p. IsPrepared schedd.now p
        (after_give_up schedd.now place (slice_get schedd.now.claims place))) }
{
    let Some(kept) = claim_at(schedd, place) else {
        return Ok(schedd.nothing(alloc));
    };
    release(schedd, alloc, ClaimsChange::Remove { place }, kept.claim.no)
}

// The later of a reading and perhaps another.
fn later(end: u64, other: Option<u64>) -> u64
    ensures { result ≡ later end other }
{
    match other {
        Some(other) => end.max(other),
        None => end,
    }
}
