use ad_value::{Memory, Text};
use cases::{Case, CaseError, escape};
use claim_id::{ClaimId, ClaimNo, JobId, NotAClaim, NotAJob, SlotId};
use std::alloc::{AllocError, Global};
use std::fmt::Write;

/// The numbers of the claim that a text is.
pub(crate) fn answer_claim(
    alloc: Global,
    case: Case<'_>,
    out: &mut String,
) -> Result<(), CaseError> {
    let text = case.text(alloc, case.one_field()?)?;
    match ClaimId::read(text.as_str()) {
        Ok(claim) => write_claim(claim, out)?,
        Err(NotAClaim) => out.push_str("NotAClaim")?,
    }
    Ok(())
}

fn write_claim(claim: ClaimId, out: &mut String) -> Result<(), AllocError> {
    let ClaimNo { slot, boot, seq } = claim.no;
    let SlotId { machine, slot } = slot;
    let secret = claim.secret;
    write!(out, "ok\t{machine}\t{slot}\t{boot}\t{seq}\t{secret}")
}

/// The text of the claim of these numbers.
pub(crate) fn answer_claim_text(
    alloc: Global,
    case: Case<'_>,
    out: &mut String,
) -> Result<(), CaseError> {
    let fields = case.all_fields(alloc)?;
    let [machine, slot, boot, seq, secret] = fields.as_slice() else {
        return Err(CaseError::Fields { line: case.line });
    };
    let claim = ClaimId {
        no: ClaimNo {
            slot: SlotId {
                machine: short_number(case, machine)?,
                slot: short_number(case, slot)?,
            },
            boot: case.natural(boot)?,
            seq: case.natural(seq)?,
        },
        secret: case.natural(secret)?,
    };
    write_text(claim.print(alloc), out)?;
    Ok(())
}

/// The numbers of the job that a text is.
pub(crate) fn answer_job(alloc: Global, case: Case<'_>, out: &mut String) -> Result<(), CaseError> {
    let text = case.text(alloc, case.one_field()?)?;
    match JobId::read(text.as_str()) {
        Ok(JobId { cluster, proc }) => write!(out, "ok\t{cluster}\t{proc}")?,
        Err(NotAJob) => out.push_str("NotAJob")?,
    }
    Ok(())
}

/// The text of the job of these numbers.
pub(crate) fn answer_job_text(
    alloc: Global,
    case: Case<'_>,
    out: &mut String,
) -> Result<(), CaseError> {
    let (cluster, proc) = case.two_fields()?;
    let job = JobId {
        cluster: number(case, cluster)?,
        proc: number(case, proc)?,
    };
    write_text(job.print(alloc), out)?;
    Ok(())
}

fn write_text(text: Result<Text, Memory>, out: &mut String) -> Result<(), AllocError> {
    match text {
        Ok(text) => {
            out.push_str("ok\t")?;
            escape(text.as_str(), out)
        }
        Err(Memory) => Err(AllocError),
    }
}

fn number(case: Case<'_>, field: &str) -> Result<u32, CaseError> {
    u32::try_from(case.natural(field)?).map_err(|_| CaseError::Number { line: case.line })
}

fn short_number(case: Case<'_>, field: &str) -> Result<u16, CaseError> {
    u16::try_from(case.natural(field)?).map_err(|_| CaseError::Number { line: case.line })
}
