use ad_value::{Memory, Text};
use cases::{Case, CaseError, escape};
use pool_store::{BootError, Boots, boot_line, read_boots};
use std::alloc::{AllocError, Global};
use std::fmt::Write;

/// What the bytes of a file of boots say: `boots BYTES`.
pub(crate) fn answer_boots(
    alloc: Global,
    case: Case<'_>,
    out: &mut String,
) -> Result<(), CaseError> {
    let bytes = case.bytes(alloc, case.one_field()?)?;
    match read_boots(&bytes) {
        Ok(boots) => write_boots(boots, out)?,
        Err(BootError::BadNumber { line }) => write!(out, "BadNumber\t{line}")?,
    }
    Ok(())
}

fn write_boots(boots: Boots, out: &mut String) -> Result<(), AllocError> {
    let whole = boots.whole;
    write!(out, "ok\t{whole}\t")?;
    write_number(boots.largest, "none", out)?;
    out.push('\t')?;
    write_number(boots.next(), "Boots", out)
}

fn write_number(number: Option<u32>, otherwise: &str, out: &mut String) -> Result<(), AllocError> {
    match number {
        Some(number) => write!(out, "{number}"),
        None => out.push_str(otherwise),
    }
}

/// The line that a boot appends: `boot-line NUMBER`.
pub(crate) fn answer_boot_line(
    alloc: Global,
    case: Case<'_>,
    out: &mut String,
) -> Result<(), CaseError> {
    let number = case.natural(case.one_field()?)?;
    let Ok(number) = u32::try_from(number) else {
        return Err(CaseError::Number { line: case.line });
    };
    write_text(boot_line(alloc, number), out)?;
    Ok(())
}

fn write_text(text: Result<Text, Memory>, out: &mut String) -> Result<(), AllocError> {
    match text {
        Ok(text) => {
            out.push_str("ok\t")?;
            escape(text.as_str(), out)
        }
        Err(Memory) => Err(AllocError),
    }
}
