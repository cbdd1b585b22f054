// The lines of a log that make jobs, and its reading.

use queue_record::{ReadLog, Reader, RecordError};
use std::alloc::{AllocError, Global};
use std::fmt::Write;

// How many bytes are fed at once.
const PIECE: usize = 65_536;

// The attributes that all jobs have.
const EQUAL: &str = "\
Owner \"user\"
QDate 86400
JobUniverse 5
Cmd \"/bin/sleep\"
Args \"1\"
Iwd \"/home/user/runs\"
In \"\"
Err \"\"
UserLog \"job.log\"
JobPrio 0
Requirements TARGET.Cpus >= RequestCpus && TARGET.Memory >= RequestMemory && \
TARGET.Disk >= RequestDisk
Rank 0
RequestCpus 1
RequestDisk 1024
";

/// Appends the lines that make a job: what all jobs have, and more attributes, a line each.
pub(crate) fn write_job(
    text: &mut String,
    cluster: u32,
    proc: u32,
    more: &str,
) -> Result<(), AllocError> {
    write!(text, "101 {cluster}.{proc} Job Machine\n")?;
    write!(text, "103 {cluster}.{proc} ClusterId {cluster}\n")?;
    write!(text, "103 {cluster}.{proc} ProcId {proc}\n")?;
    write!(text, "103 {cluster}.{proc} Out \"out.{proc}\"\n")?;
    write_lines(text, cluster, proc, EQUAL)?;
    write_lines(text, cluster, proc, more)
}

fn write_lines(text: &mut String, cluster: u32, proc: u32, lines: &str) -> Result<(), AllocError> {
    for line in lines.lines() {
        write!(text, "103 {cluster}.{proc} {line}\n")?;
    }
    Ok(())
}

/// The log that a text is.
pub(crate) fn read_log(alloc: Global, text: &str) -> Result<ReadLog, RecordError> {
    let mut reader = Reader::new(alloc);
    for piece in text.as_bytes().chunks(PIECE) {
        reader.feed(piece)?;
    }
    Ok(reader.end())
}
