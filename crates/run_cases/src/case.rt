use cases::{Case, CaseError};
use pool_outer::ChildEnd;
use std::alloc::Global;

/// A run of the pool. Its fields have their escapes still.
#[derive(Clone, Copy)]
pub(crate) struct RunCase<'a> {
    pub case: Case<'a>,
    /// The text of the configuration; `-` where there is none.
    pub config: &'a str,
    /// Those of the submit files, divided by `¶`; `-` where there is none.
    pub submits: &'a str,
    /// How `/bin/true` ends; any other program exits with 0.
    pub end: ChildEnd,
    /// The clock's readings, divided by one blank; the last one stays.
    pub readings: &'a str,
    /// The part of the outside some of whose calls fail; `-` where none does.
    pub part: &'a str,
    /// The numbers of these calls, from 0, divided by one blank.
    pub calls: &'a str,
    /// The command's words.
    pub words: &'a [&'a str],
}

/// The run of a case with these fields.
pub(crate) fn read_run<'a>(
    case: Case<'a>,
    fields: &'a [&'a str],
) -> Result<RunCase<'a>, CaseError> {
    let [config, submits, end, readings, part, calls, words @ ..] = fields else {
        return Err(CaseError::Fields { line: case.line });
    };
    if !is_part(part) {
        return Err(CaseError::Form { line: case.line });
    }
    Ok(RunCase {
        case,
        config,
        submits,
        end: read_end(case, end)?,
        readings,
        part,
        calls,
        words,
    })
}

fn is_part(part: &str) -> bool {
    matches!(part, "store" | "launch" | "look" | "write" | "-")
}

// The ending `exit CODE` or `signal NUMBER`.
fn read_end(case: Case<'_>, field: &str) -> Result<ChildEnd, CaseError> {
    let Some((how, number)) = field.split_once(' ') else {
        return Err(CaseError::Form { line: case.line });
    };
    let Ok(number) = i32::try_from(case.integer(number)?) else {
        return Err(CaseError::Number { line: case.line });
    };
    match how {
        "exit" => Ok(ChildEnd::Exited(number)),
        "signal" => Ok(ChildEnd::Signalled(number)),
        _ => Err(CaseError::Form { line: case.line }),
    }
}

impl RunCase<'_> {
    /// The calls of a part that fail.
    pub fn failing_calls(&self, alloc: Global, part: &str) -> Result<Vec<u64>, CaseError> {
        if self.part == part {
            self.numbers(alloc, self.calls)
        } else {
            Ok(Vec::new(alloc))
        }
    }

    /// The numbers of a field.
    pub fn numbers(&self, alloc: Global, field: &str) -> Result<Vec<u64>, CaseError> {
        field
            .split(' ')
            .map(|number| self.case.natural(number))
            .try_collect(alloc)
    }
}
