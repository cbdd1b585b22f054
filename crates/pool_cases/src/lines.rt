use crate::script::PoolScript;
use cases::{Case, CaseError, read_cases};

/// Appends the answers to the cases of a text, a line each; what is set up has none.
pub(crate) fn answer_all(rt: &HostRuntime, input: &str, out: &mut String) -> Result<(), CaseError> {
    let mut script = PoolScript::none();
    for case in &read_cases(rt.alloc(), input)? {
        answer_line(rt, *case, &mut script, out)?;
    }
    Ok(())
}

fn answer_line(
    rt: &HostRuntime,
    case: Case<'_>,
    script: &mut PoolScript,
    out: &mut String,
) -> Result<(), CaseError> {
    match case.kind {
        "new-pool" => script.begin(rt.alloc(), case),
        "slot" | "queue" | "wish" | "crash-line" | "repeat-line" => script.go_on(rt.alloc(), case),
        _ => {
            script.opened(rt.alloc(), case)?.answer(rt, case, out)?;
            out.push('\n')?;
            Ok(())
        }
    }
}
