// The queues of a schedd's runs.

use crate::job_lines::write_job;
use std::alloc::{AllocError, Global};
use std::fmt::Write;

/// What the jobs are that are many.
#[derive(Clone, Copy)]
pub(crate) enum Crowd {
    /// Idle jobs that make the request of the claims.
    Asking,
    /// Idle jobs that make another one.
    Others,
    /// Idle jobs with a periodic expression, that make another one.
    Periodic,
    /// Jobs that an earlier boot left.
    Left,
}

const ASKING: &str = "JobStatus 1\nRequestMemory 64\n";

const OTHER: &str = "JobStatus 1\nRequestMemory 65\n";

const PERIODIC: &str = "JobStatus 1\nRequestMemory 65\nPeriodicHold FALSE\n";

const CLAIMED: &str = "JobStatus 2\nRequestMemory 64\n";

const RUN: &str = "\"<0:1>#4294967296#";

fn begun(alloc: Global) -> Result<String, AllocError> {
    String::from_str(
        alloc,
        "105\n101 0.0 Job Machine\n103 0.0 NextRunNum 1\n106\n",
    )
}

/// The queue of the jobs that are many, in cluster 2.
pub(crate) fn crowd_text(alloc: Global, crowd: Crowd, count: u32) -> Result<String, AllocError> {
    let mut text = begun(alloc)?;
    text.push_str("105\n")?;
    for proc in 0..count {
        write_crowd_job(&mut text, crowd, proc)?;
    }
    text.push_str("106\n")?;
    Ok(text)
}

/// So many jobs under a claim each, in cluster 1, are written behind a queue's text.
pub(crate) fn write_running(text: &mut String, count: u32) -> Result<(), AllocError> {
    text.push_str("105\n")?;
    for proc in 0..count {
        write_job(text, 1, proc, CLAIMED)?;
        write_run(text, 1, proc)?;
    }
    text.push_str("106\n")
}

/// The queue of one idle job, in cluster 3.
pub(crate) fn lone_text(alloc: Global) -> Result<String, AllocError> {
    let mut text = begun(alloc)?;
    text.push_str("105\n")?;
    write_job(&mut text, 3, 0, ASKING)?;
    text.push_str("106\n")?;
    Ok(text)
}

fn write_crowd_job(text: &mut String, crowd: Crowd, proc: u32) -> Result<(), AllocError> {
    match crowd {
        Crowd::Asking => write_job(text, 2, proc, ASKING),
        Crowd::Others => write_job(text, 2, proc, OTHER),
        Crowd::Periodic => write_job(text, 2, proc, PERIODIC),
        Crowd::Left => {
            write_job(text, 2, proc, CLAIMED)?;
            write_run(text, 2, proc)
        }
    }
}

fn write_run(text: &mut String, cluster: u32, proc: u32) -> Result<(), AllocError> {
    write!(
        text,
        "103 {cluster}.{proc} RunClaim {RUN}{proc}#00000000000000ff\"\n"
    )?;
    write!(text, "103 {cluster}.{proc} RunNumber {proc}\n")?;
    write!(text, "103 {cluster}.{proc} LeaseUntil 1000000000\n")
}
