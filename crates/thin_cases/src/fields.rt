use cases::{Case, CaseError};
use claim_id::JobId;
use pool_mail::End;

pub(crate) fn number(case: Case<'_>, field: &str) -> Result<u16, CaseError> {
    match u16::try_from(case.natural(field)?) {
        Ok(number) => Ok(number),
        Err(_) => Err(CaseError::Number { line: case.line }),
    }
}

/// Whether a field is the first of two words, of which it is to be one.
pub(crate) fn is_first(
    case: Case<'_>,
    field: &str,
    first: &str,
    second: &str,
) -> Result<bool, CaseError> {
    if field == first {
        Ok(true)
    } else if field == second {
        Ok(false)
    } else {
        Err(CaseError::Form { line: case.line })
    }
}

/// The first job of a cluster.
pub(crate) fn first_job(case: Case<'_>, cluster: &str) -> Result<JobId, CaseError> {
    let cluster = number(case, cluster)?;
    Ok(JobId {
        cluster: u32::from(cluster),
        proc: 0,
    })
}

/// An end, as `Exited,0`, `Signalled,9` or `NotStarted`.
pub(crate) fn end_of(case: Case<'_>, field: &str) -> Result<End, CaseError> {
    match read_end(field) {
        Some(end) => Ok(end),
        None => Err(CaseError::Form { line: case.line }),
    }
}

fn read_end(field: &str) -> Option<End> {
    match field.split_once(',') {
        Some(("Exited", code)) => Some(End::Exited(code.parse::<i32>().ok()?)),
        Some(("Signalled", signal)) => Some(End::Signalled(signal.parse::<i32>().ok()?)),
        None if field == "NotStarted" => Some(End::NotStarted),
        _ => None,
    }
}
