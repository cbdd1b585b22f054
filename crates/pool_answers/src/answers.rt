// Answers to accepted events.

use cases::escape;
use claim_id::{JobId, RunNo};
use daemon_mails::write_launch;
use daemon_texts::{write_job, write_run, write_runs};
use pool_outer::Launch;
use pool_parts::Answer;
use queue_record::{PrintError, print_tx};
use queue_tx::Tx;
use startd_core::{Permit, RunList};
use std::alloc::{AllocError, Global};
use std::fmt::Write;

/// Appends `ok` and an answer, each part behind a tab.
pub fn write_answer(alloc: Global, answer: Answer, out: &mut String) -> Result<(), AllocError> {
    match answer {
        Answer::Done => out.push_str("ok\tDone"),
        Answer::Append { number, tx } => write_append(alloc, number, &tx, out),
        Answer::Launch { permit } => write_permit(permit, out),
        Answer::Kill { runs } => write_kill(&runs, out),
    }
}

fn write_append(alloc: Global, number: u64, tx: &Tx, out: &mut String) -> Result<(), AllocError> {
    write!(out, "ok\tAppend\t{number}\t")?;
    match print_tx(alloc, tx) {
        Ok(text) => escape(text.as_str(), out),
        Err(PrintError::TooLong { .. }) => out.push_str("TooLong"),
        Err(PrintError::Memory) => Err(AllocError),
    }
}

fn write_permit(permit: Permit, out: &mut String) -> Result<(), AllocError> {
    let (run, job, what) = permit.spend();
    write_launched(run, job, &what, out)
}

fn write_launched(
    run: RunNo,
    job: JobId,
    what: &Launch,
    out: &mut String,
) -> Result<(), AllocError> {
    out.push_str("ok\tLaunch\t")?;
    write_run(run, out)?;
    out.push('\t')?;
    write_job(job, out)?;
    write_launch(what, out)
}

fn write_kill(runs: &RunList, out: &mut String) -> Result<(), AllocError> {
    out.push_str("ok\tKill")?;
    write_runs(runs.as_slice(), out)
}
