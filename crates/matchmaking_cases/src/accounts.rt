ghost use Rattle.std.specs.Prelude.{◌≤◌, IfOk};

use cases::{Case, CaseError};
use matchmaker::{Accountant, MAX_FACTOR, MAX_SLOTS, PriorityError};
use std::alloc::{AllocError, Global};
use std::fmt::Write;

/// Accounts without users, at the tick of a case.
pub(crate) fn open_accounts(alloc: Global, case: Case<'_>) -> Result<Accountant, CaseError> {
    let at_tick = case.natural(case.one_field()?)?;
    Ok(Accountant::new(alloc, at_tick))
}

/// Does what a case asks of the accounts, and says how that went.
pub(crate) fn answer_accounts(
    alloc: Global,
    case: Case<'_>,
    accounts: &mut Accountant,
    out: &mut String,
) -> Result<(), CaseError> {
    match case.kind {
        "charge" => answer_charge(alloc, case, accounts, out),
        "charge-many" => answer_charge_many(alloc, case, accounts, out),
        "factor" => answer_factor(alloc, case, accounts, out),
        "ceiling" => answer_ceiling(alloc, case, accounts, out),
        "advance" => answer_advance(case, accounts, out),
        "effective" => answer_effective(case, accounts, out),
        _ => Err(CaseError::Kind { line: case.line }),
    }
}

fn answer_charge(
    alloc: Global,
    case: Case<'_>,
    accounts: &mut Accountant,
    out: &mut String,
) -> Result<(), CaseError> {
    let (user, slots) = case.two_fields()?;
    let slots = slots_of(case, slots)?;
    Ok(write_outcome(accounts.charge(alloc, user, slots), out)?)
}

fn answer_factor(
    alloc: Global,
    case: Case<'_>,
    accounts: &mut Accountant,
    out: &mut String,
) -> Result<(), CaseError> {
    let (user, factor) = case.two_fields()?;
    let factor = factor_of(case, factor)?;
    Ok(write_outcome(accounts.set_factor(alloc, user, factor), out)?)
}

fn answer_ceiling(
    alloc: Global,
    case: Case<'_>,
    accounts: &mut Accountant,
    out: &mut String,
) -> Result<(), CaseError> {
    let (user, slots) = case.two_fields()?;
    let slots = slots_of(case, slots)?;
    Ok(write_outcome(accounts.set_ceiling(alloc, user, slots), out)?)
}

fn answer_advance(
    case: Case<'_>,
    accounts: &mut Accountant,
    out: &mut String,
) -> Result<(), CaseError> {
    let tick = case.natural(case.one_field()?)?;
    Ok(write_outcome(accounts.advance(tick), out)?)
}

fn answer_effective(
    case: Case<'_>,
    accounts: &Accountant,
    out: &mut String,
) -> Result<(), CaseError> {
    let effective = accounts.effective(case.one_field()?);
    Ok(write!(out, "ok\t{effective}")?)
}

// Charges the users whose names are a prefix and a number, up to the first that is refused.
fn answer_charge_many(
    alloc: Global,
    case: Case<'_>,
    accounts: &mut Accountant,
    out: &mut String,
) -> Result<(), CaseError> {
    let (prefix, first, last, slots) = case.four_fields()?;
    let slots = slots_of(case, slots)?;
    for number in case.natural(first)?..=case.natural(last)? {
        let user = format!(in alloc; "{prefix}{number}")?;
        if let Err(error) = accounts.charge(alloc, user.as_str(), slots) {
            write_outcome(Err(error), out)?;
            return Ok(write!(out, "\t{number}")?);
        }
    }
    Ok(out.push_str("ok")?)
}

fn write_outcome(outcome: Result<(), PriorityError>, out: &mut String) -> Result<(), AllocError> {
    match outcome {
        Ok(()) => out.push_str("ok"),
        Err(PriorityError::Backward { asked, at }) => write!(out, "Backward\t{asked}\t{at}"),
        Err(PriorityError::Users) => out.push_str("Users"),
        Err(PriorityError::Memory) => Err(AllocError),
    }
}

fn slots_of(case: Case<'_>, field: &str) -> Result<u32, CaseError>
    ensures { IfOk result (λ slots. slots ≤ MAX_SLOTS) }
{
    match u32::try_from(case.natural(field)?) {
        Ok(slots) if slots <= MAX_SLOTS => Ok(slots),
        _ => Err(CaseError::Number { line: case.line }),
    }
}

fn factor_of(case: Case<'_>, field: &str) -> Result<u32, CaseError>
    ensures { IfOk result (λ factor. (1 ≤ factor) × (factor ≤ MAX_FACTOR)) }
{
    match u32::try_from(case.natural(field)?) {
        Ok(factor) if 1 <= factor && factor <= MAX_FACTOR => Ok(factor),
        _ => Err(CaseError::Number { line: case.line }),
    }
}
