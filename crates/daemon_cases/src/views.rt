use crate::judging::judge_pair;
use ad_tree::{Ad, Expr, SetError};
use ad_value::names::job::CMD;
use ad_value::names::matching::REQUIREMENTS;
use ad_value::names::slot::NAME;
use ad_value::{Memory, Text, Value};
use cases::{Case, CaseError};
use claim_id::{ClaimNo, JobId, RunNo, SlotId};
use pool_mail::How;
use pool_view::{
    EndReport, EndReportList, Entry, JobEntry, JobEntryList, JobIdList, MarkEntryList, Outcome,
    Run, RunList, SlotEntry, SlotEntryList, State, View,
};
use std::alloc::Global;

// The moment at which pairs are judged.
const READING: u64 = 1;

/// Whether a view is safe whose parts the fields say.
pub(crate) fn answer_safe(
    alloc: Global,
    case: Case<'_>,
    out: &mut String,
) -> Result<(), CaseError> {
    let mut view = empty_view(alloc);
    for field in case.all_fields(alloc)?.as_slice() {
        add_part(alloc, case, field, &mut view)?;
    }
    out.push_str(if view.safe() { "true" } else { "false" })?;
    Ok(())
}

fn empty_view(alloc: Global) -> View {
    View {
        moment: 0,
        next: 1,
        jobs: JobEntryList::new(alloc),
        acked: JobIdList::new(alloc),
        ordered: JobIdList::new(alloc),
        runs: RunList::new(alloc),
        marks: MarkEntryList::new(alloc),
        reports: EndReportList::new(alloc),
        slots: SlotEntryList::new(alloc),
    }
}

// Adds what a field says to the view.
fn add_part(alloc: Global, case: Case<'_>, field: &str, view: &mut View) -> Result<(), CaseError> {
    let mut words = Vec::new(alloc);
    for word in field.split(' ') {
        words.push(word)?;
    }
    let Some((kind, words)) = words.as_slice().split_first() else {
        return Err(CaseError::Form { line: case.line });
    };
    match *kind {
        "moment" => add_moment(case, words, view),
        "slot" => add_slot(alloc, case, words, view),
        "job" => add_job(alloc, case, words, view),
        "run" => add_run(alloc, case, words, view),
        "exited" => add_report(case, words, view),
        "acked" => add_number(case, words, &mut view.acked),
        "ordered" => add_number(case, words, &mut view.ordered),
        _ => Err(CaseError::Form { line: case.line }),
    }
}

fn add_moment(case: Case<'_>, words: &[&str], view: &mut View) -> Result<(), CaseError> {
    let [moment] = words else {
        return Err(CaseError::Form { line: case.line });
    };
    view.moment = case.natural(moment)?;
    Ok(())
}

fn add_slot(
    alloc: Global,
    case: Case<'_>,
    words: &[&str],
    view: &mut View,
) -> Result<(), CaseError> {
    let [slot, name] = words else {
        return Err(CaseError::Form { line: case.line });
    };
    let entry = SlotEntry {
        slot: slot_of(case, slot)?,
        ad: memory(ad(alloc, NAME, name))?,
    };
    memory(view.slots.push(entry))
}

fn add_job(
    alloc: Global,
    case: Case<'_>,
    words: &[&str],
    view: &mut View,
) -> Result<(), CaseError> {
    let [job, program, state @ ..] = words else {
        return Err(CaseError::Form { line: case.line });
    };
    let entry = Entry {
        core: memory(ad(alloc, CMD, program))?,
        state: read_state(case, state)?,
    };
    let job = job_of(case, job)?;
    memory(view.jobs.push(JobEntry { job, entry }))
}

fn add_run(
    alloc: Global,
    case: Case<'_>,
    words: &[&str],
    view: &mut View,
) -> Result<(), CaseError> {
    let [slot, number, job, until, program, name] = words else {
        return Err(CaseError::Form { line: case.line });
    };
    let (job_ad, slot_ad) = (
        memory(ad(alloc, CMD, program))?,
        memory(ad(alloc, NAME, name))?,
    );
    let Some(judged) = memory(judge_pair(alloc, &job_ad, &slot_ad, READING))? else {
        return Err(CaseError::Form { line: case.line });
    };
    let run = Run {
        slot: slot_of(case, slot)?,
        run: run_of(case, number)?,
        job: job_of(case, job)?,
        until: case.natural(until)?,
        judged,
    };
    memory(view.runs.push(run))
}

fn add_report(case: Case<'_>, words: &[&str], view: &mut View) -> Result<(), CaseError> {
    let [job, number, code] = words else {
        return Err(CaseError::Form { line: case.line });
    };
    let report = EndReport {
        run: run_of(case, number)?,
        job: job_of(case, job)?,
        how: how_of(case, code)?,
    };
    memory(view.reports.push(report))
}

fn add_number(case: Case<'_>, words: &[&str], jobs: &mut JobIdList) -> Result<(), CaseError> {
    let [job] = words else {
        return Err(CaseError::Form { line: case.line });
    };
    memory(jobs.push(job_of(case, job)?))
}

fn read_state(case: Case<'_>, words: &[&str]) -> Result<State, CaseError> {
    match words {
        ["Idle"] => Ok(State::Idle),
        ["Held"] => Ok(State::Held),
        ["Left"] => Ok(State::Left),
        ["Removed"] => Ok(State::Done(Outcome::Removed)),
        ["Under", number, end] => Ok(State::Under {
            run: run_of(case, number)?,
            end: case.natural(end)?,
        }),
        ["Exited", number, code] => Ok(State::Done(Outcome::EndedBy {
            run: run_of(case, number)?,
            how: how_of(case, code)?,
        })),
        _ => Err(CaseError::Form { line: case.line }),
    }
}

// An ad with one string, which matches every other.
fn ad(alloc: Global, name: &str, text: &str) -> Result<Ad, Memory> {
    let mut ad = Ad::new(alloc);
    let string = Expr::Lit(Value::Str(Text::from_str(alloc, text)?));
    set(alloc, &mut ad, name, string)?;
    set(alloc, &mut ad, REQUIREMENTS, Expr::Lit(Value::Bool(true)))?;
    Ok(ad)
}

fn set(alloc: Global, ad: &mut Ad, name: &str, expr: Expr) -> Result<(), Memory> {
    match ad.set(alloc, name, expr) {
        Ok(()) => Ok(()),
        Err(SetError::Full | SetError::Memory) => Err(Memory),
    }
}

fn slot_of(case: Case<'_>, word: &str) -> Result<SlotId, CaseError> {
    let Some((machine, slot)) = word.split_once(':') else {
        return Err(CaseError::Form { line: case.line });
    };
    Ok(SlotId {
        machine: short_number(case, machine)?,
        slot: short_number(case, slot)?,
    })
}

fn job_of(case: Case<'_>, word: &str) -> Result<JobId, CaseError> {
    JobId::read(word).map_err(|_| CaseError::Form { line: case.line })
}

// All runs are under one claim.
fn run_of(case: Case<'_>, word: &str) -> Result<RunNo, CaseError> {
    let slot = SlotId {
        machine: 0,
        slot: 1,
    };
    let claim = ClaimNo {
        slot,
        boot: 1,
        seq: 1,
    };
    let number = case.natural(word)?;
    Ok(RunNo { claim, number })
}

fn how_of(case: Case<'_>, word: &str) -> Result<How, CaseError> {
    let code = short_number(case, word)?;
    Ok(How::Exited(i32::from(code)))
}

fn short_number(case: Case<'_>, word: &str) -> Result<u16, CaseError> {
    u16::try_from(case.natural(word)?).map_err(|_| CaseError::Number { line: case.line })
}

fn memory<T: Drop>(outcome: Result<T, Memory>) -> Result<T, CaseError> {
    match outcome {
        Ok(value) => Ok(value),
        Err(Memory) => Err(CaseError::Memory),
    }
}
