// A schedd's ticks and looks.

use crate::crowds::{Crowd, crowd_text, lone_text, write_running};
use crate::job_lines::read_log;
use crate::schedds::{
    BACK, BETWEEN_LOOKS, back_again, due_often, end_claim, first_often, give_claim, look_at_all,
    seek, tick_often,
};
use anyhow::Result;
use queue_tx::Queue;
use schedd_state::Schedd;
use std::time::Instant;

// How many jobs are under a run.
const RUNNING: u32 = 8;
// How often each is done.
const TIMES: u64 = 1_000;

const SEEKS: u64 = 100;

const MOST_LOOKS: u32 = 1_000_000;

/// Times a schedd over 8 jobs under runs and so many others: idle jobs that make the request of the
/// claims, idle jobs that make another one, idle jobs with a periodic expression, and jobs that an
/// earlier boot left.
pub(crate) fn time_schedds(rt: &HostRuntime, count: u32) -> Result<()> {
    time_crowd(rt, Crowd::Asking, "idle jobs that make the request", count)?;
    time_crowd(rt, Crowd::Others, "idle jobs that make another one", count)?;
    time_crowd(
        rt,
        Crowd::Periodic,
        "jobs with a periodic expression",
        count,
    )?;
    time_crowd(rt, Crowd::Left, "jobs that were left", count)
}

fn time_crowd(rt: &HostRuntime, crowd: Crowd, what: &str, count: u32) -> Result<()> {
    let mut text = crowd_text(rt.alloc(), crowd, count)?;
    let before = read_log(rt.alloc(), text.as_str())?.queue;
    write_running(&mut text, RUNNING)?;
    let queue = read_log(rt.alloc(), text.as_str())?.queue;
    time_schedd(rt, &before, &queue, what)
}

fn time_schedd(rt: &HostRuntime, before: &Queue, queue: &Queue, what: &str) -> Result<()> {
    let mut schedd = back_again(rt.alloc(), before, queue)?;
    let runs = schedd.runs().len();
    let left = schedd.left().to_vec(rt.alloc())?.len();
    println!(rt; "{what}: {runs} runs, {left} left")?;
    time_due(rt, &schedd, queue)?;
    time_ticks(rt, &mut schedd, queue)?;
    time_seeks(rt, &mut schedd, queue)?;
    time_looks(rt, &mut schedd, queue)
}

fn time_due(rt: &HostRuntime, schedd: &Schedd, queue: &Queue) -> Result<()> {
    let start = Instant::now(rt)?;
    let due = due_often(schedd, queue, TIMES);
    let micros = start.elapsed(rt)?.as_micros();
    println!(rt; "{due} due")?;
    eprintln!(rt; "due: {micros} microseconds for {TIMES}")?;
    Ok(())
}

fn time_ticks(rt: &HostRuntime, schedd: &mut Schedd, queue: &Queue) -> Result<()> {
    let start = Instant::now(rt)?;
    let planned = tick_often(rt.alloc(), schedd, queue, TIMES)?;
    let micros = start.elapsed(rt)?.as_micros();
    println!(rt; "{planned} planned")?;
    eprintln!(rt; "ticks: {micros} microseconds for {TIMES}")?;
    Ok(())
}

fn time_seeks(rt: &HostRuntime, schedd: &mut Schedd, queue: &Queue) -> Result<()> {
    let lone = read_log(rt.alloc(), lone_text(rt.alloc())?.as_str())?.queue;
    let mut granted = 0u64;
    let mut nanos = 0u128;
    for _ in 0..SEEKS {
        give_claim(rt.alloc(), schedd, &lone)?;
        let start = Instant::now(rt)?;
        let run = seek(rt.alloc(), schedd, queue)?;
        nanos = nanos.saturating_add(start.elapsed(rt)?.as_nanos());
        if let Some(number) = run {
            granted = granted.saturating_add(1);
            end_claim(rt.alloc(), schedd, queue, number)?;
        }
    }
    println!(rt; "{granted} granted")?;
    eprintln!(rt; "seeking: {nanos} nanoseconds for {SEEKS}")?;
    Ok(())
}

// Before any look, once none is due any more, and once each is due again.
fn time_looks(rt: &HostRuntime, schedd: &mut Schedd, queue: &Queue) -> Result<()> {
    time_first(rt, schedd, queue, BACK)?;
    let start = Instant::now(rt)?;
    let looks = look_at_all(rt.alloc(), schedd, queue, BACK, MOST_LOOKS)?;
    let micros = start.elapsed(rt)?.as_micros();
    println!(rt; "{looks} looks")?;
    eprintln!(rt; "looks: {micros} microseconds for {looks}")?;
    time_first(rt, schedd, queue, BACK)?;
    time_first(rt, schedd, queue, BACK.saturating_add(BETWEEN_LOOKS))
}

fn time_first(rt: &HostRuntime, schedd: &Schedd, queue: &Queue, reading: u64) -> Result<()> {
    let start = Instant::now(rt)?;
    let found = first_often(schedd, queue, reading, TIMES);
    let micros = start.elapsed(rt)?.as_micros();
    println!(rt; "{found} first checks")?;
    eprintln!(rt; "first check: {micros} microseconds for {TIMES}")?;
    Ok(())
}
