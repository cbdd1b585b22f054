// The logs of the queue's runs.

use crate::job_lines::write_job;
use std::alloc::{AllocError, Global};
use std::fmt::Write;

const BEGUN: &str = "\
107 1 CreationTimestamp 86400
105
101 0.0 Job Machine
103 0.0 NextClusterNum 1
103 0.0 NextRunNum 1
106
";

const IDLE: &str = "JobStatus 1\nRequestMemory 64\n";

/// The log of so many jobs that were submitted as one cluster.
pub(crate) fn submitted_log(alloc: Global, count: u32) -> Result<String, AllocError> {
    let mut text = String::from_str(alloc, BEGUN)?;
    text.push_str("105\n103 0.0 NextClusterNum 2\n")?;
    for proc in 0..count {
        write_job(&mut text, 1, proc, IDLE)?;
    }
    text.push_str("106\n")?;
    Ok(text)
}

/// The log of so many jobs, each of which was granted a claim then and ended.
pub(crate) fn ended_log(alloc: Global, count: u32) -> Result<String, AllocError> {
    let mut text = submitted_log(alloc, count)?;
    for proc in 0..count {
        write_run(&mut text, proc)?;
    }
    Ok(text)
}

fn write_run(text: &mut String, proc: u32) -> Result<(), AllocError> {
    text.push_str("105\n")?;
    write!(text, "103 1.{proc} JobStatus 2\n")?;
    write!(
        text,
        "103 1.{proc} RunClaim \"<0:1>#4294967296#1#00000000000000ff\"\n"
    )?;
    write!(text, "103 1.{proc} RunNumber {proc}\n")?;
    write!(text, "103 1.{proc} LeaseUntil 88800\n")?;
    write!(text, "103 0.0 NextRunNum {proc}\n")?;
    text.push_str("106\n105\n")?;
    write!(text, "103 1.{proc} JobStatus 4\n")?;
    write!(text, "103 1.{proc} ExitBySignal FALSE\n")?;
    write!(text, "103 1.{proc} ExitCode 0\n")?;
    write!(text, "102 1.{proc}\n106\n")
}
