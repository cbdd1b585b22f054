use crate::configs::{answer_config, answer_slots};
use crate::launches::answer_launch;
use crate::loads::answer_load;
use crate::macros::answer_expand;
use crate::scripts::answer_script;
use crate::submissions::answer_submit;
use crate::texts::{answer_lines, answer_words};
use cases::{Case, CaseError, read_cases};
use std::alloc::Global;

/// Appends the answers to the cases of a text, a line each.
pub(crate) fn answer_all(alloc: Global, input: &str, out: &mut String) -> Result<(), CaseError> {
    for case in &read_cases(alloc, input)? {
        answer(alloc, *case, out)?;
        out.push('\n')?;
    }
    Ok(())
}

fn answer(alloc: Global, case: Case<'_>, out: &mut String) -> Result<(), CaseError> {
    match case.kind {
        "lines" => answer_lines(alloc, case, out),
        "expand" => answer_expand(alloc, case, out),
        "words" => answer_words(alloc, case, out),
        "launch" => answer_launch(alloc, case, out),
        "script" => answer_script(alloc, case, out),
        "load" => answer_load(alloc, case, out),
        "submit" => answer_submit(alloc, case, out),
        "config" => answer_config(alloc, case, out),
        "slots" => answer_slots(alloc, case, out),
        _ => Err(CaseError::Kind { line: case.line }),
    }
}
