use ad_value::{Memory, Text};
use cases::{Case, CaseError, escape};
use line_text::{MacroError, MacroTable, expand};
use std::alloc::{AllocError, Global};
use std::fmt::Write;

/// The expansion of a text over the names that are set: `expand TEXT NAME=VALUE ..`.
pub(crate) fn answer_expand(
    alloc: Global,
    case: Case<'_>,
    out: &mut String,
) -> Result<(), CaseError> {
    let fields = case.all_fields(alloc)?;
    let [text, settings @ ..] = fields.as_slice() else {
        return Err(CaseError::Fields { line: case.line });
    };
    answer_with(alloc, case, text, settings, out)
}

fn answer_with(
    alloc: Global,
    case: Case<'_>,
    text: &str,
    settings: &[&str],
    out: &mut String,
) -> Result<(), CaseError> {
    let text = case.text(alloc, text)?;
    let mut table = MacroTable::new(alloc);
    for setting in settings {
        set(alloc, case, &mut table, setting)?;
    }
    write_expansion(expand(alloc, text.as_str(), &table), out)?;
    Ok(())
}

// Sets the name of a field `NAME=VALUE`.
fn set(
    alloc: Global,
    case: Case<'_>,
    table: &mut MacroTable,
    setting: &str,
) -> Result<(), CaseError> {
    let setting = case.text(alloc, setting)?;
    let Some((name, value)) = setting.as_str().split_once('=') else {
        return Err(CaseError::Form { line: case.line });
    };
    match table.set(alloc, name, value) {
        Ok(()) => Ok(()),
        Err(Memory) => Err(CaseError::Memory),
    }
}

fn write_expansion(
    expansion: Result<Text, MacroError>,
    out: &mut String,
) -> Result<(), AllocError> {
    match expansion {
        Ok(text) => {
            out.push_str("ok\t")?;
            escape(text.as_str(), out)
        }
        Err(error) => write_macro_error(&error, out),
    }
}

/// Appends why a text has no expansion.
pub(crate) fn write_macro_error(error: &MacroError, out: &mut String) -> Result<(), AllocError> {
    match error {
        MacroError::Bad { at } => write!(out, "Bad\t{at}"),
        MacroError::Circular { name } => {
            out.push_str("Circular\t")?;
            escape(name.as_str(), out)
        }
        MacroError::TooLong { length } => write!(out, "TooLong\t{length}"),
        MacroError::Memory => Err(AllocError),
    }
}
