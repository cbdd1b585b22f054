use crate::logs::{DiskLog, open_log};
use crate::submission::next_submission;
use anyhow::Result;
use std::alloc::Global;

/// Appends so many jobs, and prints the number of each before the next.
pub(crate) fn append_jobs(rt: &HostRuntime, file: &str, count: u64) -> Result<()> {
    let mut log = open_log(rt, file)?;
    print_appends(rt, &mut log, count)
}

// What is printed is written at once: nothing of it is kept for a later write.
fn print_appends(rt: &HostRuntime, log: &mut DiskLog<'_>, count: u64) -> Result<()> {
    for _ in 0..count {
        let number = append_job(rt.alloc(), log)?;
        println!(rt; "{number}")?;
    }
    Ok(())
}

fn append_job(alloc: Global, log: &mut DiskLog<'_>) -> Result<u64> {
    let tx = next_submission(alloc, log)?;
    match log.append(alloc, tx) {
        Ok(receipt) => Ok(receipt.number()),
        Err(error) => Err(error.into()),
    }
}
