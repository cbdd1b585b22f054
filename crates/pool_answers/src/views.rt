// The abstract pool that a pool stands for.

use crate::refusals::write_slot;
use daemon_texts::{write_claim_no, write_how, write_job, write_run};
use pool_view::{EndReport, JobEntry, MarkEntry, Outcome, Run, State, View};
use std::alloc::{AllocError, Global};
use std::fmt::Write;

/// Appends a view: its moment and next run, its jobs, runs, marks and ends of runs, each in order
/// and behind a tab.
pub fn write_view(alloc: Global, view: &View, out: &mut String) -> Result<(), AllocError> {
    let (moment, next) = (view.moment, view.next);
    write!(out, "\tnow={moment}\tnext={next}")?;
    write_jobs(alloc, view, out)?;
    write_run_list(alloc, view.runs.as_slice(), out)?;
    write_marks(alloc, view.marks.as_slice(), out)?;
    write_reports(alloc, view.reports.as_slice(), out)
}

// ---- jobs

fn write_jobs(alloc: Global, view: &View, out: &mut String) -> Result<(), AllocError> {
    let mut jobs: Vec<&JobEntry> = view.jobs.as_slice().iter().collect(alloc)?;
    jobs.sort_by_key(|entry| entry.job)?;
    for entry in &jobs {
        write_entry(view, entry, out)?;
    }
    Ok(())
}

fn write_entry(view: &View, entry: &JobEntry, out: &mut String) -> Result<(), AllocError> {
    out.push_str("\tjob ")?;
    write_job(entry.job, out)?;
    write_state(entry.entry.state, out)?;
    if view.acked.as_slice().contains(&entry.job) {
        out.push_str(" acked")?;
    }
    if view.ordered.as_slice().contains(&entry.job) {
        out.push_str(" ordered")?;
    }
    Ok(())
}

fn write_state(state: State, out: &mut String) -> Result<(), AllocError> {
    match state {
        State::Idle => out.push_str(" Idle"),
        State::Held => out.push_str(" Held"),
        State::Left => out.push_str(" Left"),
        State::Under { run, end } => {
            out.push_str(" Under run=")?;
            write_run(run, out)?;
            write!(out, " end={end}")
        }
        State::Done(Outcome::Removed) => out.push_str(" Done Removed"),
        State::Done(Outcome::EndedBy { run, how }) => {
            out.push_str(" Done run=")?;
            write_run(run, out)?;
            out.push_str(" how=")?;
            write_how(how, out)
        }
    }
}

// ---- runs

fn write_run_list(alloc: Global, runs: &[Run], out: &mut String) -> Result<(), AllocError> {
    let mut runs: Vec<&Run> = runs.iter().collect(alloc)?;
    runs.sort_by_key(|run| run.slot)?;
    for run in &runs {
        write_run_entry(run, out)?;
    }
    Ok(())
}

fn write_run_entry(run: &Run, out: &mut String) -> Result<(), AllocError> {
    out.push_str("\trun slot=")?;
    write_slot(run.slot, out)?;
    out.push_str(" run=")?;
    write_run(run.run, out)?;
    out.push_str(" job=")?;
    write_job(run.job, out)?;
    let (until, at) = (run.until, run.judged.at());
    write!(out, " until={until} judged_at={at}")
}

// ---- marks

fn write_marks(alloc: Global, marks: &[MarkEntry], out: &mut String) -> Result<(), AllocError> {
    let mut marks: Vec<&MarkEntry> = marks.iter().collect(alloc)?;
    marks.sort_by_key(|mark| mark.slot)?;
    for mark in &marks {
        write_mark(mark, out)?;
    }
    Ok(())
}

fn write_mark(entry: &MarkEntry, out: &mut String) -> Result<(), AllocError> {
    out.push_str("\tmark slot=")?;
    write_slot(entry.slot, out)?;
    let (boot, ended) = (entry.mark.boot, entry.mark.ended);
    write!(out, " boot={boot} ended={ended}")?;
    match entry.mark.held {
        None => out.push_str(" held=- last=-"),
        Some(held) => {
            out.push_str(" held=")?;
            write_claim_no(held.claim, out)?;
            let last = held.last;
            write!(out, " last={last}")
        }
    }
}

// ---- ends of runs

fn write_reports(alloc: Global, reports: &[EndReport], out: &mut String) -> Result<(), AllocError> {
    let mut reports: Vec<&EndReport> = reports.iter().collect(alloc)?;
    reports.sort_by_key(|report| report.run.number)?;
    for report in &reports {
        write_report(report, out)?;
    }
    Ok(())
}

fn write_report(report: &EndReport, out: &mut String) -> Result<(), AllocError> {
    out.push_str("\tsaid run=")?;
    write_run(report.run, out)?;
    out.push_str(" job=")?;
    write_job(report.job, out)?;
    out.push_str(" how=")?;
    write_how(report.how, out)
}
