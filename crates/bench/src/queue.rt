// The queue and its log.

use crate::changes::{change_all, prepare_all, renewals};
use crate::job_lines::read_log;
use crate::logs::{ended_log, submitted_log};
use crate::questions::{ask_from_each, other_request};
use ad_tree::Ad;
use anyhow::{Context, Result};
use claim_id::JobId;
use queue_tx::{Key, Queue};
use std::time::Instant;

/// Times the reading of the log of so many jobs that were submitted and ended; then the setting of
/// an attribute of each of so many idle jobs, and as many questions for one that makes a request,
/// which all or none of them do.
pub(crate) fn time_queue(rt: &HostRuntime, count: u32) -> Result<()> {
    time_reading(rt, count)?;
    let mut queue = read_log(rt.alloc(), submitted_log(rt.alloc(), count)?.as_str())?.queue;
    time_changes(rt, &mut queue, count)?;
    time_questions(rt, &queue)
}

fn time_reading(rt: &HostRuntime, count: u32) -> Result<()> {
    let text = ended_log(rt.alloc(), count)?;
    let start = Instant::now(rt)?;
    let log = read_log(rt.alloc(), text.as_str())?;
    let micros = start.elapsed(rt)?.as_micros();
    let transactions = log.list.len();
    let bytes = text.len();
    println!(rt; "{transactions} transactions in {bytes} bytes")?;
    eprintln!(rt; "reading: {micros} microseconds")?;
    Ok(())
}

fn time_changes(rt: &HostRuntime, queue: &mut Queue, count: u32) -> Result<()> {
    let changes = renewals(rt.alloc(), count)?;
    let start = Instant::now(rt)?;
    prepare_all(rt.alloc(), queue, &changes)?;
    let prepared = start.elapsed(rt)?.as_micros();
    let start = Instant::now(rt)?;
    change_all(rt.alloc(), queue, &changes)?;
    let changed = start.elapsed(rt)?.as_micros();
    let number = changes.len();
    println!(rt; "{number} changes")?;
    eprintln!(rt; "prepared: {prepared} microseconds, prepared and done: {changed}")?;
    Ok(())
}

fn time_questions(rt: &HostRuntime, queue: &Queue) -> Result<()> {
    let first = Key::Proc(JobId {
        cluster: 1,
        proc: 0,
    });
    let ad = queue.get(&first).context("there is no job")?;
    time_asking(rt, queue, ad, "all jobs ask for")?;
    let other = other_request(rt.alloc(), ad)?;
    time_asking(rt, queue, &other, "no job asks for")
}

fn time_asking(rt: &HostRuntime, queue: &Queue, ad: &Ad, asked: &str) -> Result<()> {
    let start = Instant::now(rt)?;
    let found = ask_from_each(queue, ad);
    let micros = start.elapsed(rt)?.as_micros();
    println!(rt; "{found} answers to what {asked}")?;
    eprintln!(rt; "asking for what {asked}: {micros} microseconds")?;
    Ok(())
}
