// Fields of cases.

ghost use Rattle.std.specs.Prelude.{◌≡◌, ◌≤◌, IfErr, IfOk};
ghost use Rattle.cases.specs.Faults.{IsNumberAt};
ghost use Rattle.daemon_texts.specs.NumberTexts.{number_of};
ghost use Rattle.pool_mail.specs.Seconds.{IsSeconds};
ghost use Rattle.pool_mail.specs.declared.settings.TheConstants.{MAX_SECONDS};

use crate::ids::read_number;
use cases::{Case, CaseError};
use pool_mail::MAX_SECONDS;

/// The seconds that a case's field says, at most `MAX_SECONDS`. Computes in O(bytes).
pub fn seconds_of(case: Case<'_>, field: &str) -> Result<u64, CaseError>
    ensures seconds { IfOk result (λ n. n ≤ MAX_SECONDS) }
    ensures value { IfOk result (λ n. n ≡ number_of field.now) }
    ensures refused { IfErr result (IsNumberAt case.entry.line) }
{
    match read_number(field) {
        Ok(number) if number <= MAX_SECONDS => Ok(number),
        _ => Err(CaseError::Number { line: case.line }),
    }
}

/// The seconds that a case's field says, from 1 to `MAX_SECONDS`. Computes in O(bytes).
pub fn interval_of(case: Case<'_>, field: &str) -> Result<u64, CaseError>
    ensures seconds { IfOk result IsSeconds }
    ensures value { IfOk result (λ n. n ≡ number_of field.now) }
    ensures refused { IfErr result (IsNumberAt case.entry.line) }
{
    match seconds_of(case, field) {
        Ok(0) => Err(CaseError::Number { line: case.line }),
        Ok(number) => Ok(number),
        Err(error) => Err(error),
    }
}
