use ad_tree::{Ad, AdList, Expr};
use ad_value::names::job::REQUEST_MEMORY;
use ad_value::{Memory, Value};
use cases::{Case, CaseError};
use script_plan::load;
use std::alloc::{AllocError, Global};
use std::fmt::Write;

/// The memory that each job of a load asks for: `load NUMBER JOBS`.
pub(crate) fn answer_load(
    alloc: Global,
    case: Case<'_>,
    out: &mut String,
) -> Result<(), CaseError> {
    let (number, jobs) = case.two_fields()?;
    let number = small(case, number)?;
    let jobs = small(case, jobs)?;
    write_load(load(alloc, number, jobs, 1, "user", 0), out)?;
    Ok(())
}

// A field as a number of 32 bits.
fn small(case: Case<'_>, field: &str) -> Result<u32, CaseError> {
    match u32::try_from(case.natural(field)?) {
        Ok(number) => Ok(number),
        Err(_) => Err(CaseError::Number { line: case.line }),
    }
}

fn write_load(ads: Result<AdList, Memory>, out: &mut String) -> Result<(), AllocError> {
    match ads {
        Ok(ads) => write_memories(&ads, out),
        Err(Memory) => Err(AllocError),
    }
}

fn write_memories(ads: &AdList, out: &mut String) -> Result<(), AllocError> {
    out.push_str("ok")?;
    for ad in ads.as_slice() {
        write_memory(ad, out)?;
    }
    Ok(())
}

fn write_memory(ad: &Ad, out: &mut String) -> Result<(), AllocError> {
    match ad.get(REQUEST_MEMORY) {
        Some(Expr::Lit(Value::Int(memory))) => write!(out, "\t{memory}"),
        _ => out.push_str("\tnone"),
    }
}
