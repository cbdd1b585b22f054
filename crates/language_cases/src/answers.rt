use crate::ads::{Question, answer_attribute, answer_pair};
use crate::copies::{answer_copies, answer_size};
use crate::texts::{answer_ad, answer_expr};
use cases::{Case, CaseError, read_cases};
use std::alloc::Global;

/// Appends the answers to the cases of a text, a line each.
pub(crate) fn answer_all(alloc: Global, input: &str, out: &mut String) -> Result<(), CaseError> {
    for case in &read_cases(alloc, input)? {
        answer(alloc, *case, out)?;
        out.push('\n')?;
    }
    Ok(())
}

fn answer(alloc: Global, case: Case<'_>, out: &mut String) -> Result<(), CaseError> {
    match case.kind {
        "expr" => answer_expr(alloc, case, out),
        "ad" => answer_ad(alloc, case, out),
        "eval" => answer_attribute(alloc, case, Question::Value, out),
        "holds" => answer_attribute(alloc, case, Question::Truth, out),
        "rank" => answer_pair(alloc, case, Question::Rank, out),
        "judge" => answer_pair(alloc, case, Question::Match, out),
        "apart" => answer_copies(alloc, case, out),
        "size" => answer_size(alloc, case, out),
        _ => Err(CaseError::Kind { line: case.line }),
    }
}
