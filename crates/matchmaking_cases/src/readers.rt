use ad_parse::{AdError, ParseError, parse_ad, parse_expr};
use ad_tree::{Ad, Expr};
use ad_value::Text;
use cases::{Case, CaseError};
use claim_id::{ClaimId, JobId, NotAClaim, NotAJob, SlotId};
use std::alloc::Global;

// A field that is not of its form.
pub(crate) fn bad_form(case: Case<'_>) -> CaseError {
    CaseError::Form { line: case.line }
}

/// The text of a field.
pub(crate) fn text_of(alloc: Global, case: Case<'_>, field: &str) -> Result<Text, CaseError> {
    Ok(Text::from(case.text(alloc, field)?))
}

/// The slot `M:S` of a field.
pub(crate) fn slot_of(case: Case<'_>, field: &str) -> Result<SlotId, CaseError> {
    let Some((machine, slot)) = field.split_once(':') else {
        return Err(bad_form(case));
    };
    Ok(SlotId {
        machine: short_number(case, machine)?,
        slot: short_number(case, slot)?,
    })
}

fn short_number(case: Case<'_>, field: &str) -> Result<u16, CaseError> {
    match u16::try_from(case.natural(field)?) {
        Ok(number) => Ok(number),
        Err(_) => Err(CaseError::Number { line: case.line }),
    }
}

/// The number of a field, of 32 bits.
pub(crate) fn number_of(case: Case<'_>, field: &str) -> Result<u32, CaseError> {
    match u32::try_from(case.natural(field)?) {
        Ok(number) => Ok(number),
        Err(_) => Err(CaseError::Number { line: case.line }),
    }
}

/// The job of a field.
pub(crate) fn job_of(case: Case<'_>, field: &str) -> Result<JobId, CaseError> {
    match JobId::read(field) {
        Ok(job) => Ok(job),
        Err(NotAJob) => Err(bad_form(case)),
    }
}

/// The claim of a field.
pub(crate) fn claim_of(case: Case<'_>, field: &str) -> Result<ClaimId, CaseError> {
    match ClaimId::read(field) {
        Ok(claim) => Ok(claim),
        Err(NotAClaim) => Err(bad_form(case)),
    }
}

/// The ad of a field.
pub(crate) fn ad_of(alloc: Global, case: Case<'_>, field: &str) -> Result<Ad, CaseError> {
    let text = case.text(alloc, field)?;
    match parse_ad(alloc, text.as_str()) {
        Ok(ad) => Ok(ad),
        Err(AdError::Memory) => Err(CaseError::Memory),
        Err(_) => Err(bad_form(case)),
    }
}

/// The expression of a field.
pub(crate) fn expr_of(alloc: Global, case: Case<'_>, field: &str) -> Result<Expr, CaseError> {
    let text = case.text(alloc, field)?;
    match parse_expr(alloc, text.as_str()) {
        Ok(expr) => Ok(expr),
        Err(ParseError::Memory) => Err(CaseError::Memory),
        Err(_) => Err(bad_form(case)),
    }
}
