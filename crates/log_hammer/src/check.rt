use crate::logs::{DiskLog, open_log};
use crate::submission::has_submission;
use anyhow::{Result, bail};
use std::io;

/// Looks in a log for each number on standard input, one a line.
pub(crate) fn check_numbers(rt: &HostRuntime, file: &str) -> Result<()> {
    let input = io::read_to_string(rt.alloc(), rt.reader())?;
    let log = open_log(rt, file)?;
    print_found(rt, &log, input.as_str())
}

fn print_found(rt: &HostRuntime, log: &DiskLog<'_>, input: &str) -> Result<()> {
    let found = found_in(log, input)?;
    let count = log.roll().len();
    println!(rt; "{found} numbers, each there; {count} transactions")?;
    Ok(())
}

fn found_in(log: &DiskLog<'_>, input: &str) -> Result<u64> {
    let mut found = 0u64;
    for line in input.lines() {
        let number: u64 = line.parse()?;
        if !has_submission(log, number) {
            bail!("transaction {number} is lost");
        }
        found = found.saturating_add(1);
    }
    Ok(found)
}
