// The events that cases say without asking the pool.

ghost use Rattle.std.specs.Prelude.{◌≡◌, ◌↔◌, All, IfOk, IsTrue, Some};
ghost use Rattle.pool_cases.specs.Marks.{IsGivenBy, IsGivenToAny, IsIdle};
ghost use Rattle.queue_tx.specs.declared.kind.JobKind.TheVariants.{Idle};
ghost use Rattle.queue_tx.specs.Kinds.{kind_of};

use crate::loggable_jobs::are_loggable;
use crate::outcome::memory;
use crate::receipts::{read_ended, read_logged, read_reopen};
use crate::rolls::Rolls;
use ad_tree::{Ad, AdList, Expr, SetError};
use ad_value::names::job::PROC_ID;
use ad_value::{Copied, Memory, Value};
use cases::{Case, CaseError};
use daemon_texts::Fields;
use pool_parts::Event;
use queue_tx::{JobKind, Tx, kind_of};
use std::alloc::Global;

/// The event that a case says, where nothing of it hangs on the pool. `unfinished` is the
/// transaction that the pool asked to log last. Computes in O(bytes), and of `submit-many` in
/// O(size of the ad) for each job.
pub(crate) fn read_event(
    alloc: Global,
    case: Case<'_>,
    fields: &mut Fields<'_>,
    rolls: &mut Rolls,
    unfinished: &Tx,
) -> Result<Event, CaseError>
    ensures marks { rolls.new ≡ rolls.old }
    ensures given { IfOk result (IsGivenBy rolls.old) }
{
    match case.kind {
        "logged" => read_logged(alloc, fields, rolls, unfinished),
        "ended" => read_ended(alloc, fields, rolls),
        "reopen" => read_reopen(alloc, fields, rolls, unfinished),
        _ => read_plain(alloc, case, fields),
    }
}

// The events without receipts.
fn read_plain(alloc: Global, case: Case<'_>, fields: &mut Fields<'_>) -> Result<Event, CaseError>
    ensures { IfOk result IsGivenToAny }
{
    match case.kind {
        "submit" => read_submit(alloc, fields),
        "submit-many" => read_many(alloc, fields),
        "order" => read_order(fields),
        "tick" => read_tick(fields),
        "check" => read_check(fields),
        "crash" => read_crash(fields),
        _ => Err(CaseError::Kind { line: case.line }),
    }
}

// ---- jobs

// `submit BOOT READING AD ..`
fn read_submit(alloc: Global, fields: &mut Fields<'_>) -> Result<Event, CaseError>
    ensures { IfOk result IsGivenToAny }
{
    let boot = fields.natural()?;
    let reading = fields.natural()?;
    let count = fields.left() as u64;
    let jobs = read_ads(alloc, fields, count)?;
    submission(alloc, fields, boot, jobs, reading)
}

/// So many ads. Computes in O(bytes of their fields).
pub(crate) fn read_ads(
    alloc: Global,
    fields: &mut Fields<'_>,
    count: u64,
) -> Result<AdList, CaseError> {
    let mut ads = AdList::new(alloc);
    add_ads(alloc, fields, count, &mut ads)?;
    Ok(ads)
}

fn add_ads(
    alloc: Global,
    fields: &mut Fields<'_>,
    count: u64,
    ads: &mut AdList,
) -> Result<(), CaseError> {
    for _ in 0..count {
        let ad = fields.ad(alloc)?;
        memory(ads.push(ad))?;
    }
    Ok(())
}

// `submit-many BOOT READING COUNT AD`
fn read_many(alloc: Global, fields: &mut Fields<'_>) -> Result<Event, CaseError>
    ensures { IfOk result IsGivenToAny }
{
    let boot = fields.natural()?;
    let reading = fields.natural()?;
    let count = fields.natural()?;
    let jobs = read_copies(alloc, fields, count)?;
    submission(alloc, fields, boot, jobs, reading)
}

fn read_copies(alloc: Global, fields: &mut Fields<'_>, count: u64) -> Result<AdList, CaseError> {
    let ad = fields.ad(alloc)?;
    memory(copies_of(alloc, &ad, count))
}

// So many copies of an ad, with ProcId from 0.
fn copies_of(alloc: Global, ad: &Ad, count: u64) -> Result<AdList, Memory> {
    let mut ads = AdList::new(alloc);
    add_copies(alloc, ad, count, &mut ads)?;
    Ok(ads)
}

fn add_copies(alloc: Global, ad: &Ad, count: u64, ads: &mut AdList) -> Result<(), Memory> {
    for number in 0..count {
        ads.push(numbered(alloc, ad, number)?)?;
    }
    Ok(())
}

fn numbered(alloc: Global, ad: &Ad, number: u64) -> Result<Ad, Memory> {
    let Ok(number) = i64::try_from(number) else {
        return Err(Memory);
    };
    let mut ad = ad.copy(alloc)?;
    match ad.set(alloc, PROC_ID, Expr::Lit(Value::Int(number))) {
        Ok(()) => Ok(ad),
        Err(SetError::Full | SetError::Memory) => Err(Memory),
    }
}

// Jobs are submitted, where they are idle and can be logged.
#[tactic(auto, using(crate::proofs::Idle::all_idle))]
fn submission(
    alloc: Global,
    fields: &Fields<'_>,
    boot: u64,
    jobs: AdList,
    reading: u64,
) -> Result<Event, CaseError>
    ensures { IfOk result IsGivenToAny }
{
    if !are_idle(jobs.as_slice()) || !are_loggable(alloc, jobs.as_slice()) {
        return Err(fields.form());
    }
    Ok(Event::Submit {
        boot,
        jobs,
        reading,
    })
}

fn are_idle(jobs: &[Ad]) -> bool
    ensures { IsTrue result ↔ All IsIdle jobs.now }
{
    jobs.iter().all(|job| is_idle(job))
}

// The names of each ad differ, which its `len` tells.
fn is_idle(job: &Ad) -> bool
    ensures { IsTrue result ↔ IsIdle job.now }
{
    let _count = job.len();
    matches!(kind_of(job), Some(JobKind::Idle))
}

// ---- the others

// `order VERB JOB READING`
fn read_order(fields: &mut Fields<'_>) -> Result<Event, CaseError>
    ensures { IfOk result IsGivenToAny }
{
    Ok(Event::Order {
        verb: fields.verb()?,
        job: fields.job()?,
        reading: fields.natural()?,
    })
}

// `tick DAEMON BOOT READING`
fn read_tick(fields: &mut Fields<'_>) -> Result<Event, CaseError>
    ensures { IfOk result IsGivenToAny }
{
    Ok(Event::Tick {
        who: fields.daemon()?,
        boot: fields.natural()?,
        reading: fields.natural()?,
    })
}

// `check BOOT JOB READING`
fn read_check(fields: &mut Fields<'_>) -> Result<Event, CaseError>
    ensures { IfOk result IsGivenToAny }
{
    Ok(Event::Check {
        boot: fields.natural()?,
        job: fields.job()?,
        reading: fields.natural()?,
    })
}

// `crash DAEMON`
fn read_crash(fields: &mut Fields<'_>) -> Result<Event, CaseError>
    ensures { IfOk result IsGivenToAny }
{
    Ok(Event::Crash {
        who: fields.daemon()?,
    })
}
