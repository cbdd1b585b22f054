use crate::daemon::Daemon;
use crate::pairs::answer_next;
use crate::texts::{answer_claim, answer_claim_text, answer_job, answer_job_text};
use crate::views::answer_safe;
use cases::{Case, CaseError, read_cases};
use std::alloc::Global;

/// Appends the answers to the cases of a text, a line each; what is set up has none.
pub(crate) fn answer_all(alloc: Global, input: &str, out: &mut String) -> Result<(), CaseError> {
    let mut daemon = Daemon::none();
    for case in &read_cases(alloc, input)? {
        answer_line(alloc, *case, &mut daemon, out)?;
    }
    Ok(())
}

fn answer_line(
    alloc: Global,
    case: Case<'_>,
    daemon: &mut Daemon,
    out: &mut String,
) -> Result<(), CaseError> {
    match case.kind {
        "new-startd" | "new-schedd" => daemon.begin(alloc, case),
        "slot" | "queue" => daemon.go_on(alloc, case),
        _ => {
            answer(alloc, case, daemon, out)?;
            out.push('\n')?;
            Ok(())
        }
    }
}

fn answer(
    alloc: Global,
    case: Case<'_>,
    daemon: &mut Daemon,
    out: &mut String,
) -> Result<(), CaseError> {
    match case.kind {
        "next" => answer_next(case, out),
        "claim" => answer_claim(alloc, case, out),
        "claim-text" => answer_claim_text(alloc, case, out),
        "job" => answer_job(alloc, case, out),
        "job-text" => answer_job_text(alloc, case, out),
        "safe" => answer_safe(alloc, case, out),
        _ => daemon.answer(alloc, case, out),
    }
}
