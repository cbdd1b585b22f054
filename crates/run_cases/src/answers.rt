use crate::case::read_run;
use crate::run::answer_run;
use crate::status::answer_status;
use cases::{Case, CaseError, read_cases};
use std::alloc::Global;
use std::rt::Clock;
use std::sync::Wait;
use std::thread::Threads;

/// Appends the answer of each case, a line each, up to the first case that can't be read.
pub(crate) fn answer_all<R: Threads + Wait + Sync + Clock>(
    rt: &R,
    alloc: Global,
    input: &str,
    out: &mut String,
) -> Result<(), CaseError> {
    for case in read_cases(alloc, input)? {
        answer_line(rt, alloc, case, out)?;
    }
    Ok(())
}

fn answer_line<R: Threads + Wait + Sync + Clock>(
    rt: &R,
    alloc: Global,
    case: Case<'_>,
    out: &mut String,
) -> Result<(), CaseError> {
    let fields = case.all_fields(alloc)?;
    answer(rt, alloc, case, fields.as_slice(), out)
}

fn answer<R: Threads + Wait + Sync + Clock>(
    rt: &R,
    alloc: Global,
    case: Case<'_>,
    fields: &[&str],
    out: &mut String,
) -> Result<(), CaseError> {
    match case.kind {
        "run" => answer_run(rt, alloc, &read_run(case, fields)?, out)?,
        "status" => answer_status(alloc, case, fields, out)?,
        _ => return Err(CaseError::Kind { line: case.line }),
    }
    out.push('\n')?;
    Ok(())
}
