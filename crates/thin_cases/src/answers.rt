use crate::ads::{job_ads, open_pool};
use crate::fields::{end_of, first_job, is_first, number};
use crate::judging::{judge_other, judge_own, no_match};
use crate::runs::{READING, run_jobs, start_event};
use ad_value::Memory;
use cases::{Case, CaseError, read_cases};
use claim_id::{JobId, SlotId};
use std::alloc::{AllocError, Global};
use std::fmt::Write;
use thin_pool::{Answer, Course, Event, StepError};

/// Appends an answer a case, a line each.
pub(crate) fn answer_all(alloc: Global, input: &str, out: &mut String) -> Result<(), CaseError> {
    let cases = read_cases(alloc, input)?;
    answer_each(alloc, cases.as_slice(), &mut None, out)
}

fn answer_each(
    alloc: Global,
    cases: &[Case<'_>],
    course: &mut Option<Course>,
    out: &mut String,
) -> Result<(), CaseError> {
    for case in cases {
        answer(alloc, *case, course, out)?;
        out.push('\n')?;
    }
    Ok(())
}

// The answer to a case; `course` is that of the pool that was opened last.
fn answer(
    alloc: Global,
    case: Case<'_>,
    course: &mut Option<Course>,
    out: &mut String,
) -> Result<(), CaseError> {
    if case.kind == "open" {
        *course = Some(open_course(alloc, case)?);
    }
    match course {
        Some(course) => answer_in(alloc, case, course, out),
        None => Err(CaseError::Kind { line: case.line }),
    }
}

fn open_course(alloc: Global, case: Case<'_>) -> Result<Course, CaseError> {
    let (count, start) = case.two_fields()?;
    let start = is_first(case, start, "yes", "no")?;
    match or_out_of_memory(open_pool(alloc, number(case, count)?, start))? {
        Some(course) => Ok(course),
        None => Err(CaseError::Form { line: case.line }),
    }
}

fn answer_in(
    alloc: Global,
    case: Case<'_>,
    course: &mut Course,
    out: &mut String,
) -> Result<(), CaseError> {
    match case.kind {
        // It was opened just now.
        "open" => Ok(out.push_str("done")?),
        "submit" => answer_submit(alloc, case, course, out),
        "start" => answer_start(alloc, case, course, out),
        "ended" => answer_ended(alloc, case, course, out),
        "close" => answer_close(alloc, case, course, out),
        "run" => answer_run(alloc, case, course, out),
        "see" => answer_see(alloc, case, course, out),
        _ => Err(CaseError::Kind { line: case.line }),
    }
}

// Want of memory as the error that cases know.
fn or_out_of_memory<T>(made: Result<T, Memory>) -> Result<T, AllocError> {
    match made {
        Ok(made) => Ok(made),
        Err(Memory) => Err(AllocError),
    }
}

fn answer_submit(
    alloc: Global,
    case: Case<'_>,
    course: &mut Course,
    out: &mut String,
) -> Result<(), CaseError> {
    let (count, requirements) = case.two_fields()?;
    let requirements = is_first(case, requirements, "TRUE", "FALSE")?;
    let jobs = or_out_of_memory(job_ads(alloc, number(case, count)?, requirements))?;
    let reading = READING;
    act(alloc, course, Event::Submit { jobs, reading }, out)
}

fn answer_start(
    alloc: Global,
    case: Case<'_>,
    course: &mut Course,
    out: &mut String,
) -> Result<(), CaseError> {
    let (cluster, ad) = case.two_fields()?;
    let job = first_job(case, cluster)?;
    let judged = if is_first(case, ad, "own", "other")? {
        judge_own(alloc, course.pool(), job)
    } else {
        judge_other(alloc, course.pool())
    };
    match or_out_of_memory(judged)? {
        Some(judged) => act(alloc, course, start_event(job, judged), out),
        None => Ok(out.push_str("judged otherwise")?),
    }
}

fn answer_ended(
    alloc: Global,
    case: Case<'_>,
    course: &mut Course,
    out: &mut String,
) -> Result<(), CaseError> {
    let (cluster, ending) = case.two_fields()?;
    let job = first_job(case, cluster)?;
    let end = end_of(case, ending)?;
    let reading = READING;
    act(alloc, course, Event::Ended { job, end, reading }, out)
}

fn answer_close(
    alloc: Global,
    case: Case<'_>,
    course: &mut Course,
    out: &mut String,
) -> Result<(), CaseError> {
    let reading = case.natural(case.one_field()?)?;
    match or_out_of_memory(no_match(alloc, course.pool(), reading))? {
        Some(none) => act(alloc, course, Event::Close { reading, none }, out),
        None => Ok(out.push_str("judged otherwise")?),
    }
}

fn act(
    alloc: Global,
    course: &mut Course,
    event: Event,
    out: &mut String,
) -> Result<(), CaseError> {
    match course.act(alloc, event) {
        Ok(Answer::Done) => Ok(out.push_str("done")?),
        Ok(Answer::Launch { what }) => Ok(write!(out, "launch\t{}", what.program)?),
        Err(error) => Ok(refuse(error, out)?),
    }
}

fn refuse(error: StepError, out: &mut String) -> Result<(), AllocError> {
    match error {
        StepError::Closed => out.push_str("Closed"),
        StepError::Jobs => out.push_str("Jobs"),
        StepError::Occupied { slot, job } => {
            out.push_str("Occupied\t")?;
            slot_text(slot, out)?;
            out.push('\t')?;
            job_text(job, out)
        }
        StepError::AdMoved { slot } => {
            out.push_str("AdMoved\t")?;
            slot_text(slot, out)
        }
        StepError::NoRun { job } => {
            out.push_str("NoRun\t")?;
            job_text(job, out)
        }
        StepError::NotQuiet => out.push_str("NotQuiet"),
        StepError::Memory => Err(AllocError),
    }
}

fn slot_text(id: SlotId, out: &mut String) -> Result<(), AllocError> {
    let SlotId { machine, slot } = id;
    write!(out, "{machine}:{slot}")
}

fn job_text(id: JobId, out: &mut String) -> Result<(), AllocError> {
    let JobId { cluster, proc } = id;
    write!(out, "{cluster}.{proc}")
}

fn answer_run(
    alloc: Global,
    case: Case<'_>,
    course: &mut Course,
    out: &mut String,
) -> Result<(), CaseError> {
    let count = number(case, case.one_field()?)?;
    let jobs = or_out_of_memory(job_ads(alloc, count, true))?;
    match run_jobs(alloc, course, jobs) {
        Ok(ran) => Ok(write!(out, "ran\t{ran}")?),
        Err(error) => Ok(refuse(error, out)?),
    }
}

// What is seen of the pool, and the number of the history's steps.
fn answer_see(
    alloc: Global,
    case: Case<'_>,
    course: &Course,
    out: &mut String,
) -> Result<(), CaseError> {
    if !case.all_fields(alloc)?.is_empty() {
        return Err(CaseError::Fields { line: case.line });
    }
    let pool = course.pool();
    let (jobs, latest) = (pool.job_count(), pool.latest());
    let steps = course.step_count();
    write!(out, "jobs={jobs}\tlatest={latest}\tsteps={steps}\tlast=")?;
    match pool.job_at(jobs.saturating_sub(1)) {
        Some((job, _)) => Ok(job_text(job, out)?),
        None => Ok(out.push('-')?),
    }
}
