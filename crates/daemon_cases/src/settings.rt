use cases::{Case, CaseError};
use daemon_texts::interval_of;
use pool_mail::Settings;
use std::alloc::Global;

/// `new-schedd POOL_BOOT JOB_LEASE ALIVE_INTERVAL CLAIM_LEASE PERIODIC_EXPR_INTERVAL`: what a
/// schedd is set to. The boot plays no part.
pub(crate) fn settings_of(alloc: Global, case: Case<'_>) -> Result<Settings, CaseError> {
    let fields = case.all_fields(alloc)?;
    match fields.as_slice() {
        [_boot, job_lease, alive, claim_lease, periodic] => {
            settings_from(case, job_lease, alive, claim_lease, periodic)
        }
        _ => Err(CaseError::Fields { line: case.line }),
    }
}

fn settings_from(
    case: Case<'_>,
    job_lease: &str,
    alive: &str,
    claim_lease: &str,
    periodic: &str,
) -> Result<Settings, CaseError> {
    Ok(Settings {
        update_interval: 1,
        match_timeout: 1,
        claim_lease: interval_of(case, claim_lease)?,
        job_lease: interval_of(case, job_lease)?,
        alive_interval: interval_of(case, alive)?,
        periodic_interval: interval_of(case, periodic)?,
        retirement: 0,
        vacate: 0,
    })
}
