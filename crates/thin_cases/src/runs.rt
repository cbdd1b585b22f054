use crate::judging::judge_own;
use ad_eval::Judged;
use ad_tree::AdList;
use ad_value::Memory;
use claim_id::{JobId, SlotId};
use pool_mail::End;
use std::alloc::Global;
use thin_pool::{Course, Event, StepError};

/// The reading of each event that is given none.
pub(crate) const READING: u64 = 86_400;

// The first slot.
const SLOT: SlotId = SlotId {
    machine: 0,
    slot: 1,
};

/// That the first slot starts a job.
pub(crate) fn start_event(job: JobId, judged: Judged) -> Event {
    Event::Start {
        job,
        slot: SLOT,
        judged,
        reading: READING,
    }
}

/// Submits the jobs, and judges, starts and ends each that matches the first slot; how many did.
pub(crate) fn run_jobs(alloc: Global, course: &mut Course, jobs: AdList) -> Result<u64, StepError> {
    let first = course.pool().job_count();
    let reading = READING;
    act(alloc, course, Event::Submit { jobs, reading })?;
    let mut ran = 0u64;
    for place in first..course.pool().job_count() {
        if run_at(alloc, course, place)? {
            ran = ran.saturating_add(1);
        }
    }
    Ok(ran)
}

fn run_at(alloc: Global, course: &mut Course, place: usize) -> Result<bool, StepError> {
    match course.pool().job_at(place) {
        Some((job, _)) => run(alloc, course, job),
        None => Ok(false),
    }
}

fn run(alloc: Global, course: &mut Course, job: JobId) -> Result<bool, StepError> {
    match judge_own(alloc, course.pool(), job) {
        Ok(Some(judged)) => run_judged(alloc, course, job, judged),
        Ok(None) => Ok(false),
        Err(Memory) => Err(StepError::Memory),
    }
}

fn run_judged(
    alloc: Global,
    course: &mut Course,
    job: JobId,
    judged: Judged,
) -> Result<bool, StepError> {
    act(alloc, course, start_event(job, judged))?;
    let end = End::Exited(0);
    let reading = READING;
    act(alloc, course, Event::Ended { job, end, reading })?;
    Ok(true)
}

fn act(alloc: Global, course: &mut Course, event: Event) -> Result<(), StepError> {
    match course.act(alloc, event) {
        Ok(_) => Ok(()),
        Err(error) => Err(error),
    }
}
