use crate::asking::answer_asking;
use crate::beside::answer_beside;
use crate::boots::{answer_boot_line, answer_boots};
use crate::fails::answer_fails;
use crate::lines::answer_line;
use crate::operations::answer_print;
use crate::queues::{answer_apply, answer_kind};
use crate::reading::{answer_cuts, answer_read};
use crate::stops::answer_stops;
use crate::tails::answer_tails;
use crate::torn::answer_torn;
use cases::{Case, CaseError, read_cases};
use std::alloc::Global;

/// Appends the answers to the cases of a text, a line each.
pub(crate) fn answer_all(alloc: Global, input: &str, out: &mut String) -> Result<(), CaseError> {
    for case in &read_cases(alloc, input)? {
        answer(alloc, *case, out)?;
        out.push('\n')?;
    }
    Ok(())
}

fn answer(alloc: Global, case: Case<'_>, out: &mut String) -> Result<(), CaseError> {
    match case.kind {
        "line" => answer_line(alloc, case, out),
        "print" => answer_print(alloc, case, out),
        "apply" => answer_apply(alloc, case, out),
        "asking" => answer_asking(alloc, case, out),
        "kind" => answer_kind(alloc, case, out),
        "read" => answer_read(alloc, case, out),
        "cuts" => answer_cuts(alloc, case, out),
        "tails" => answer_tails(alloc, case, out),
        "stops" => answer_stops(alloc, case, out),
        "fails" => answer_fails(alloc, case, out),
        "beside" => answer_beside(alloc, case, out),
        "torn" => answer_torn(alloc, case, out),
        "boots" => answer_boots(alloc, case, out),
        "boot-line" => answer_boot_line(alloc, case, out),
        _ => Err(CaseError::Kind { line: case.line }),
    }
}
