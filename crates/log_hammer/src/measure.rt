use crate::logs::{DiskLog, open_log};
use crate::submission::next_submission;
use anyhow::Result;
use queue_record::print_tx;
use std::fs::{File, OpenOptions};
use std::io::Write;
use std::time::Instant;

/// The nanoseconds that appends took, and plain writes.
#[derive(Clone, Copy)]
struct Times {
    appends: u128,
    writes: u128,
}

/// Appends so many jobs, each beside a plain write of the same bytes to another file, and an fsync;
/// and prints how long both took.
pub(crate) fn measure(rt: &HostRuntime, file: &str, count: u64) -> Result<()> {
    let mut log = open_log(rt, file)?;
    let times = times_of(rt, &mut log, file, count)?;
    print_times(rt, count, times)
}

fn times_of(rt: &HostRuntime, log: &mut DiskLog<'_>, file: &str, count: u64) -> Result<Times> {
    let mut plain = open_plain(rt, file)?;
    let mut times = Times {
        appends: 0,
        writes: 0,
    };
    for _ in 0..count {
        let one = times_of_one(rt, log, &mut plain)?;
        times.appends = times.appends.saturating_add(one.appends);
        times.writes = times.writes.saturating_add(one.writes);
    }
    Ok(times)
}

fn open_plain(rt: &HostRuntime, file: &str) -> Result<File> {
    let name = format!(in rt.alloc(); "{file}.plain")?;
    let plain = OpenOptions::new()
        .append(true)
        .create(true)
        .open(rt, name.as_str())?;
    Ok(plain)
}

fn times_of_one(rt: &HostRuntime, log: &mut DiskLog<'_>, plain: &mut File) -> Result<Times> {
    let tx = next_submission(rt.alloc(), log)?;
    let text = print_tx(rt.alloc(), &tx)?;
    let start = Instant::now(rt)?;
    log.append(rt.alloc(), tx)?;
    let appends = start.elapsed(rt)?.as_nanos();
    let writes = time_of_write(rt, plain, text.as_str())?;
    Ok(Times { appends, writes })
}

fn time_of_write(rt: &HostRuntime, plain: &mut File, text: &str) -> Result<u128> {
    let start = Instant::now(rt)?;
    plain.write_all(text.as_bytes())?;
    plain.sync_all()?;
    Ok(start.elapsed(rt)?.as_nanos())
}

fn print_times(rt: &HostRuntime, count: u64, times: Times) -> Result<()> {
    print_time(rt, "appends", count, times.appends)?;
    print_time(rt, "plain writes", count, times.writes)?;
    let hundredths = times.writes.saturating_mul(100) / times.appends.max(1);
    println!(rt; "the appends reach {hundredths} hundredths of the plain writes")?;
    Ok(())
}

fn print_time(rt: &HostRuntime, what: &str, count: u64, nanos: u128) -> Result<()> {
    let each = nanos / u128::from(count.max(1));
    let rate = 1_000_000_000 / each.max(1);
    println!(rt; "{count} {what}: {each} nanoseconds each, {rate} a second")?;
    Ok(())
}
