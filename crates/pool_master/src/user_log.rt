ghost use Rattle.std.specs.Prelude.{◌≡◌, ◌<◌, ◌^◌, ◌+◌, ◌++◌, IfOk, string_bytes, decimal};
ghost use Rattle.thin_pool.specs.Events.{reading_of};
ghost use Rattle.thin_pool.specs.Reactions.{takes_number};
ghost use Rattle.pool_input.specs.Readings.{IsInCalendar, AreReadings};
ghost use Rattle.pool_master.specs.UserLog.{IsStamp, IsEntry, AreEntries, IsSubmitLines, IsStartLines, IsEndLines, IsLines, ArePrinted, IsUserLog, never_starts, last_cluster_with, slot_name_at, three_digits, numbers_text};

use ad_tree::AdList;
use ad_value::{Memory, Text};
use claim_id::{JobId, SlotId};
use jiff::Timestamp;
use jiff::tz::Offset;
use pool_mail::End;
use std::alloc::Global;
use thin_pool::{Event, History, LAST_CLUSTER_WITHOUT_JOBS, PoolSlot, Step};

const SUBMITTED: &str = "Job submitted from host: <pool>\n...\n";

const HELD: &str = "Job was held.\n\tFailed to start\n...\n";

/// The user log of a history: its events 000, 001, 005 and 012, and the lines of its submissions.
pub fn log_text(alloc: Global, history: &History) -> Result<Text, Memory>
    requires { AreReadings history.now.list }
    ensures { IfOk result (λ t. IsUserLog history.now t) }
{
    let text = match &history.opening {
        None => String::new(alloc),
        Some(pool) => events_text(alloc, pool.slots().as_slice(), history.list.as_slice())?,
    };
    Ok(Text::from(text))
}

// What these events print, in a pool of these slots in which nothing was submitted before.
fn events_text(alloc: Global, slots: &[PoolSlot], steps: &[Step]) -> Result<String, Memory>
    requires { AreReadings steps.now }
    ensures { IfOk result (λ t. ArePrinted slots.now 0 steps.now (string_bytes t)) }
{
    let mut text = String::new(alloc);
    let mut last = 0;
    let mut rest = steps;
    'steps: while let Some((step, after)) = rest.split_first() {
        let lines = lines(alloc, slots, last, after, &step.event)?;
        text.push_str(lines.as_str())?;
        last = last_cluster_with(last, &step.event);
        rest = after;
    }
    Ok(text)
}

// The number of the last cluster, after an event.
fn last_cluster_with(last: usize, event: &Event) -> usize
    requires { last + 1 < 2 ^ 64 }
    ensures { result ≡ last_cluster_with last event.now }
{
    match event {
        Event::Submit { jobs, .. } if takes_number(last, jobs) => last + 1,
        _ => last,
    }
}

// Whether a submission of these jobs takes the next number.
fn takes_number(last: usize, jobs: &AdList) -> bool
    ensures { result ≡ takes_number last jobs.now }
{
    !jobs.is_empty() || last < LAST_CLUSTER_WITHOUT_JOBS as usize
}

// Whether the run of the job that is running before these events ends as one that didn't start.
fn never_starts(job: JobId, steps: &[Step]) -> bool
    ensures { result ≡ never_starts job steps.now }
{
    for step in steps {
        if let Event::Ended {
            job: other,
            end,
            ..
        } = &step.event
        {
            if job == *other {
                return matches!(end, End::NotStarted);
            }
        }
    }
    false
}

// What an event prints.
fn lines(
    alloc: Global,
    slots: &[PoolSlot],
    last: usize,
    after: &[Step],
    event: &Event,
) -> Result<String, Memory>
    requires in_range { IsInCalendar (reading_of event.now) }
    requires few { last + 1 < 2 ^ 64 }
    ensures { IfOk result (λ t. IsLines slots.now last after.now event.now (string_bytes t)) }
{
    match event {
        Event::Submit { jobs, reading } => { submit_lines(alloc, last + 1, jobs.len(), *reading) }
        Event::Start {
            job,
            slot,
            reading,
            ..
        } => {
            let never = never_starts(*job, after);
            start_lines(alloc, never, *job, slot_name_at(slots, *slot), *reading)
        }
        Event::Ended { job, end, reading } => end_lines(alloc, end, *job, *reading),
        Event::Close { .. } => Ok(String::new(alloc)),
    }
}

// The name of a slot.
fn slot_name_at(slots: &[PoolSlot], id: SlotId) -> &str
    ensures { result.now ≡ slot_name_at slots.now id }
{
    for slot in slots {
        if slot.slot == id {
            return slot.name.as_str();
        }
    }
    ""
}

fn submit_lines(alloc: Global, cluster: usize, count: usize, reading: u64) -> Result<String, Memory>
    requires { IsInCalendar reading }
    ensures { IfOk result (λ t. IsSubmitLines cluster count reading (string_bytes t)) }
{
    let entries = entries(alloc, cluster, count, reading)?;
    Ok(format!(in alloc; "{entries}{count} job(s) submitted to cluster {cluster}.\n")?)
}

// The entries of so many jobs of a cluster.
fn entries(alloc: Global, cluster: usize, count: usize, reading: u64) -> Result<String, Memory>
    requires { IsInCalendar reading }
    ensures { IfOk result (λ t. AreEntries cluster 0 count reading (string_bytes t)) }
{
    let mut text = String::new(alloc);
    'procs: for proc in 0..count {
        let entry = entry(alloc, "000", cluster, proc, reading, SUBMITTED)?;
        text.push_str(entry.as_str())?;
    }
    Ok(text)
}

fn start_lines(
    alloc: Global,
    never: bool,
    job: JobId,
    slot: &str,
    reading: u64,
) -> Result<String, Memory>
    requires { IsInCalendar reading }
    ensures { IfOk result (λ t. IsStartLines never job slot.now reading (string_bytes t)) }
{
    if never {
        return Ok(String::new(alloc));
    }
    let what = format!(in alloc; "Job executing on host: <{slot}>\n...\n")?;
    job_entry(alloc, "001", job, reading, what.as_str())
}

fn end_lines(alloc: Global, end: &End, job: JobId, reading: u64) -> Result<String, Memory>
    requires { IsInCalendar reading }
    ensures { IfOk result (λ t. IsEndLines end.now job reading (string_bytes t)) }
{
    match end {
        End::Exited(code) => {
            let what = format!(in alloc;
                "Job terminated.\n\t(1) Normal termination (return value {code})\n...\n"
            )?;
            job_entry(alloc, "005", job, reading, what.as_str())
        }
        End::Signalled(signal) => {
            let what = format!(in alloc;
                "Job terminated.\n\t(0) Abnormal termination (signal {signal})\n...\n"
            )?;
            job_entry(alloc, "005", job, reading, what.as_str())
        }
        End::NotStarted => job_entry(alloc, "012", job, reading, HELD),
    }
}

// An event of the log, of a job.
fn job_entry(
    alloc: Global,
    number: &str,
    job: JobId,
    reading: u64,
    what: &str,
) -> Result<String, Memory>
    requires { IsInCalendar reading }
    ensures { IfOk result
        (λ t. IsEntry number.now job.cluster job.proc reading what.now (string_bytes t)) }
{
    entry(
        alloc,
        number,
        job.cluster as usize,
        job.proc as usize,
        reading,
        what,
    )
}

fn entry(
    alloc: Global,
    number: &str,
    cluster: usize,
    proc: usize,
    reading: u64,
    what: &str,
) -> Result<String, Memory>
    requires { IsInCalendar reading }
    ensures { IfOk result (λ t. IsEntry number.now cluster proc reading what.now (string_bytes t)) }
{
    let numbers = numbers(alloc, cluster, proc)?;
    let stamp = stamp(alloc, reading)?;
    Ok(format!(in alloc; "{number} {numbers} {stamp} {what}")?)
}

// The numbers of a job.
fn numbers(alloc: Global, cluster: usize, proc: usize) -> Result<String, Memory>
    ensures { IfOk result (λ t. string_bytes t ≡ numbers_text cluster proc) }
{
    let cluster = three_digits(alloc, cluster)?;
    let proc = three_digits(alloc, proc)?;
    Ok(format!(in alloc; "({cluster}.{proc}.000)")?)
}

fn three_digits(alloc: Global, n: usize) -> Result<String, Memory>
    ensures { IfOk result (λ t. string_bytes t ≡ three_digits n) }
{
    let zeros = zeros_before(n);
    Ok(format!(in alloc; "{zeros}{n}")?)
}

// What makes three digits of a number that has fewer.
fn zeros_before(n: usize) -> &'static str
    ensures { result.now ++ decimal n ≡ three_digits n }
{
    if n < 10 {
        "00"
    } else if n < 100 {
        "0"
    } else {
        ""
    }
}

// The date and time of a reading, in UTC.
fn stamp(alloc: Global, reading: u64) -> Result<String, Memory>
    requires { IsInCalendar reading }
    ensures { IfOk result (λ t. IsStamp reading (string_bytes t)) }
{
    let instant = Timestamp::from_second(reading as i64).unwrap();
    let civil = Offset::UTC.to_datetime(instant);
    let date = civil.date();
    let time = civil.time();
    Ok(format!(in alloc; "{date} {time}")?)
}
