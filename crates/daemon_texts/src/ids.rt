ghost use Rattle.std.specs.Prelude.{◌≡◌, ◌↔◌, ◌++◌, IfOk, OnOk, string_bytes};
ghost use Rattle.std.specs.Int.{w64};
ghost use Rattle.std.specs.Str.Parse.{ParsesSigned, ParsesUnsigned};
ghost use Rattle.claim_id.specs.declared.numbers.ClaimId.{ClaimId};
ghost use Rattle.claim_id.specs.declared.numbers.JobId.{JobId};
ghost use Rattle.claim_id.specs.Texts.{claim_no_text, claim_text, job_text, IsClaim, IsJob};
ghost use Rattle.daemon_texts.specs.NumberTexts.{run_text, RunSays};

use crate::cut::cut;
use crate::error::TextError;
use claim_id::laws::secret_has_16_digits;
use claim_id::{ClaimId, ClaimNo, JobId, NotAClaim, NotAJob, RunNo, SlotId};
use std::alloc::{AllocError, Global};
use std::fmt::Write;

/// A number without a sign. Computes in O(bytes).
pub fn read_number(text: &str) -> Result<u64, TextError>
    ensures { ParsesUnsigned 64 10 text.now result }
{
    match text.parse::<u64>() {
        Ok(number) => Ok(number),
        Err(_) => Err(TextError::Form),
    }
}

/// A number with or without a sign. Computes in O(bytes).
pub fn read_signed(text: &str) -> Result<i64, TextError>
    ensures { ParsesSigned w64 10 text.now result }
{
    match text.parse::<i64>() {
        Ok(number) => Ok(number),
        Err(_) => Err(TextError::Form),
    }
}

/// A job, as `1.0`. Computes in O(bytes).
pub fn read_job(text: &str) -> Result<JobId, TextError>
    ensures { (job : JobId) → (result ≡ Ok job) ↔ (IsJob job × (text.now ≡ job_text job)) }
{
    match JobId::read(text) {
        Ok(job) => Ok(job),
        Err(NotAJob) => Err(TextError::Form),
    }
}

/// A claim, as `<0:1>#4294967296#1#7c0ad3c59311ece1`. Computes in O(bytes).
pub fn read_claim(text: &str) -> Result<ClaimId, TextError>
    ensures { (claim : ClaimId) → (result ≡ Ok claim)
        ↔ (IsClaim claim × (text.now ≡ claim_text claim)) }
{
    match ClaimId::read(text) {
        Ok(claim) => Ok(claim),
        Err(NotAClaim) => Err(TextError::Form),
    }
}

/// A claim's number, as `<0:1>#4294967296#1`. Computes in O(bytes).
pub fn read_claim_no(alloc: Global, text: &str) -> Result<ClaimNo, TextError>
    ensures { IfOk result (λ no. text.now ≡ claim_no_text no) }
{
    secret_has_16_digits();
    let with_secret = format!(in alloc; "{text}#0000000000000000")?;
    Ok(read_claim(with_secret.as_str())?.no)
}

/// A run, as `<0:1>#4294967296#1/1`. Computes in O(bytes).
pub fn read_run(alloc: Global, text: &str) -> Result<RunNo, TextError>
    ensures { IfOk result (λ run. RunSays text.now run) }
{
    let Some((claim, number)) = cut(text, '/') else {
        return Err(TextError::Form);
    };
    Ok(RunNo {
        claim: read_claim_no(alloc, claim)?,
        number: read_number(number)?,
    })
}

/// Appends a job. Computes in O(1).
#[tactic(auto, unfolding(claim_id::specs::Texts::job_text))]
pub fn write_job(job: JobId, out: &mut String) -> Result<(), AllocError>
    ensures { OnOk result (string_bytes out.new ≡ string_bytes out.old ++ job_text job) }
{
    let JobId { cluster, proc } = job;
    write!(out, "{cluster}.{proc}")
}

/// Appends a claim's number. Computes in O(1).
#[tactic(auto, unfolding(claim_id::specs::Texts::claim_no_text, claim_id::specs::Texts::slot_text))]
pub fn write_claim_no(claim: ClaimNo, out: &mut String) -> Result<(), AllocError>
    ensures { OnOk result (string_bytes out.new ≡ string_bytes out.old ++ claim_no_text claim) }
{
    let ClaimNo { slot, boot, seq } = claim;
    let SlotId { machine, slot } = slot;
    write!(out, "<{machine}:{slot}>#{boot}#{seq}")
}

/// Appends a claim. Computes in O(1).
pub fn write_claim(claim: ClaimId, out: &mut String) -> Result<(), AllocError>
    ensures { OnOk result (string_bytes out.new ≡ string_bytes out.old ++ claim_text claim) }
{
    match claim.print(*out.allocator()) {
        Ok(text) => out.push_str(text.as_str()),
        Err(_) => Err(AllocError),
    }
}

/// Appends a run. Computes in O(1).
#[tactic(auto, unfolding(crate::specs::NumberTexts::run_text))]
pub fn write_run(run: RunNo, out: &mut String) -> Result<(), AllocError>
    ensures { OnOk result (string_bytes out.new ≡ string_bytes out.old ++ run_text run) }
{
    write_claim_no(run.claim, out)?;
    let number = run.number;
    write!(out, "/{number}")
}
