use ad_parse::print_expr;
use ad_value::{Memory, Text};
use cases::{Case, CaseError, escape};
use claim_id::JobId;
use queue_record::{LogEntry, RecordError, read_line};
use queue_tx::{Key, Op};
use std::alloc::{AllocError, Global};
use std::fmt::Write;

/// What one line says: `line BYTES NUMBER`.
pub(crate) fn answer_line(
    alloc: Global,
    case: Case<'_>,
    out: &mut String,
) -> Result<(), CaseError> {
    let (bytes, number) = case.two_fields()?;
    let bytes = case.bytes(alloc, bytes)?;
    match read_line(alloc, &bytes, case.natural(number)?) {
        Ok(entry) => write_entry(alloc, &entry, out)?,
        Err(error) => write_refusal(error, out)?,
    }
    Ok(())
}

fn write_entry(alloc: Global, entry: &LogEntry, out: &mut String) -> Result<(), AllocError> {
    match entry {
        LogEntry::Begin => out.push_str("begin"),
        LogEntry::End => out.push_str("end"),
        LogEntry::Stamp { sequence } => write!(out, "stamp\t{sequence}"),
        LogEntry::Operation(op) => {
            out.push_str("op\t")?;
            write_op(alloc, op, out)
        }
    }
}

/// Appends why a line is refused.
pub(crate) fn write_refusal(error: RecordError, out: &mut String) -> Result<(), AllocError> {
    match error {
        RecordError::BadRecord { line } => write!(out, "BadRecord\t{line}"),
        RecordError::TooLong { line } => write!(out, "TooLong\t{line}"),
        RecordError::Memory => Err(AllocError),
    }
}

/// Appends an operation's line, without its newline.
pub(crate) fn write_op(alloc: Global, op: &Op, out: &mut String) -> Result<(), AllocError> {
    match op {
        Op::NewAd { key, kind, other } => {
            write_code("101", *key, out)?;
            write_word(kind.as_str(), out)?;
            write_word(other.as_str(), out)
        }
        Op::DestroyAd { key } => write_code("102", *key, out),
        Op::SetAttr { key, name, expr } => {
            write_code("103", *key, out)?;
            write_word(name.as_str(), out)?;
            match print_expr(alloc, expr) {
                Ok(text) => write_word(text.as_str(), out),
                Err(Memory) => Err(AllocError),
            }
        }
        Op::DeleteAttr { key, name } => {
            write_code("104", *key, out)?;
            write_word(name.as_str(), out)
        }
    }
}

fn write_code(code: &str, key: Key, out: &mut String) -> Result<(), AllocError> {
    out.push_str(code)?;
    out.push(' ')?;
    write_key(key, out)
}

/// Appends a key.
pub(crate) fn write_key(key: Key, out: &mut String) -> Result<(), AllocError> {
    match key {
        Key::Header => out.push_str("0.0"),
        Key::Proc(JobId { cluster, proc }) => write!(out, "{cluster}.{proc}"),
    }
}

fn write_word(word: &str, out: &mut String) -> Result<(), AllocError> {
    out.push(' ')?;
    escape(word, out)
}

/// Appends a text, in a field of its own.
pub(crate) fn write_text(text: &Text, out: &mut String) -> Result<(), AllocError> {
    out.push('\t')?;
    escape(text.as_str(), out)
}
