use cases::{Case, CaseError};
use claim_id::next;
use daemon_texts::{cue_of, pair_of, write_pair};

/// Where a cue leads from a state and activity.
pub(crate) fn answer_next(case: Case<'_>, out: &mut String) -> Result<(), CaseError> {
    let (pair, cue) = case.two_fields()?;
    let (Some(pair), Some(cue)) = (pair_of(pair), cue_of(cue)) else {
        return Err(CaseError::Form { line: case.line });
    };
    match next(pair, cue) {
        Some(pair) => {
            out.push_str("ok\t")?;
            write_pair(pair, out)?;
        }
        None => out.push_str("None")?,
    }
    Ok(())
}
