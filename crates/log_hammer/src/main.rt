//! Appends to a queue log on the disk, and looks whether a log has what was appended.
//!
//! README.md says what its words do.
#![tactic(auto)]

mod append;
mod check;
mod logs;
mod measure;
mod submission;

use crate::append::append_jobs;
use crate::check::check_numbers;
use crate::measure::measure;
use anyhow::{Result, bail};
use std::env;

const USAGE: &str = "\
usage: log_hammer append FILE COUNT     appends jobs, and prints the number of each
       log_hammer check FILE            reads such numbers, and looks for each in the log
       log_hammer measure FILE COUNT    times appends beside plain writes to FILE.plain
";

fn main(rt: HostRuntime) -> Result<()> {
    let words = env::args(&rt)?.skip(1).collect::<Vec<String>>(rt.alloc())?;
    match words.as_slice() {
        [] => print!(rt; "{USAGE}")?,
        [verb, file] => without_count(&rt, verb.as_str(), file.as_str())?,
        [verb, file, count] => with_count(&rt, verb.as_str(), file.as_str(), count.as_str())?,
        _ => bail!("{USAGE}"),
    }
    Ok(())
}

fn without_count(rt: &HostRuntime, verb: &str, file: &str) -> Result<()> {
    match verb {
        "check" => check_numbers(rt, file),
        _ => bail!("{USAGE}"),
    }
}

fn with_count(rt: &HostRuntime, verb: &str, file: &str, count: &str) -> Result<()> {
    let count: u64 = count.parse()?;
    match verb {
        "append" => append_jobs(rt, file, count),
        "measure" => measure(rt, file, count),
        _ => bail!("{USAGE}"),
    }
}
