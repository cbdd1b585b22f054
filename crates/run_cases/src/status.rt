use ad_value::Memory;
use cases::{Case, CaseError, escape};
use pool_master::Status;
use pool_outer::Which;
use std::alloc::Global;
use std::fmt::Write;

/// Appends the number of a status and its line on standard error.
pub(crate) fn write_status(
    alloc: Global,
    status: &Status,
    out: &mut String,
) -> Result<(), CaseError> {
    write!(out, "{}\t", status.number())?;
    match status.line(alloc) {
        Ok(line) => Ok(escape(line.as_str(), out)?),
        Err(Memory) => Err(CaseError::Memory),
    }
}

/// Appends the same of a status that no run of today ends with, or none on demand.
pub(crate) fn answer_status(
    alloc: Global,
    case: Case<'_>,
    fields: &[&str],
    out: &mut String,
) -> Result<(), CaseError> {
    let status = read_status(case, fields)?;
    write_status(alloc, &status, out)
}

// The status `Memory`, `BadLog LINE` or `Limit NAME`.
fn read_status(case: Case<'_>, fields: &[&str]) -> Result<Status, CaseError> {
    match *fields {
        ["Memory"] => Ok(Status::Memory),
        ["BadLog", line] => Ok(Status::BadLog {
            line: case.natural(line)?,
        }),
        ["Limit", name] => Ok(Status::Limit {
            which: read_limit(case, name)?,
        }),
        _ => Err(CaseError::Form { line: case.line }),
    }
}

fn read_limit(case: Case<'_>, name: &str) -> Result<Which, CaseError> {
    match name {
        "Machines" => Ok(Which::Machines),
        "Slots" => Ok(Which::Slots),
        "Jobs" => Ok(Which::Jobs),
        "Attributes" => Ok(Which::Attributes),
        "LogLine" => Ok(Which::LogLine),
        "Input" => Ok(Which::Input),
        "Bytes" => Ok(Which::Bytes),
        "Roll" => Ok(Which::Roll),
        "Events" => Ok(Which::Events),
        "Users" => Ok(Which::Users),
        "Boots" => Ok(Which::Boots),
        _ => Err(CaseError::Form { line: case.line }),
    }
}
