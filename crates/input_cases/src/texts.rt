use ad_value::{Memory, TextList};
use cases::{Case, CaseError, escape};
use line_text::{LineList, arg_words, lines};
use std::alloc::{AllocError, Global};
use std::fmt::Write;

/// The logical lines of a text: `lines TEXT`.
pub(crate) fn answer_lines(
    alloc: Global,
    case: Case<'_>,
    out: &mut String,
) -> Result<(), CaseError> {
    let text = case.text(alloc, case.one_field()?)?;
    write_lines(lines(alloc, text.as_str()), out)?;
    Ok(())
}

fn write_lines(list: Result<LineList, Memory>, out: &mut String) -> Result<(), AllocError> {
    match list {
        Ok(list) => write_each_line(&list, out),
        Err(Memory) => Err(AllocError),
    }
}

fn write_each_line(list: &LineList, out: &mut String) -> Result<(), AllocError> {
    out.push_str("ok")?;
    for line in list.as_slice() {
        let number = line.number;
        write!(out, "\t{number}:")?;
        escape(line.text.as_str(), out)?;
    }
    Ok(())
}

/// The words of arguments: `words TEXT plain`, `words TEXT quoted`.
pub(crate) fn answer_words(
    alloc: Global,
    case: Case<'_>,
    out: &mut String,
) -> Result<(), CaseError> {
    let (text, form) = case.two_fields()?;
    let text = case.text(alloc, text)?;
    let quoted = match form {
        "plain" => false,
        "quoted" => true,
        _ => return Err(CaseError::Form { line: case.line }),
    };
    write_words(arg_words(alloc, text.as_str(), quoted), out)?;
    Ok(())
}

fn write_words(
    words: Result<Option<TextList>, Memory>,
    out: &mut String,
) -> Result<(), AllocError> {
    match words {
        Ok(Some(words)) => write_each_word(&words, out),
        Ok(None) => out.push_str("none"),
        Err(Memory) => Err(AllocError),
    }
}

fn write_each_word(words: &TextList, out: &mut String) -> Result<(), AllocError> {
    out.push_str("ok")?;
    for word in words.as_slice() {
        out.push_str("\t")?;
        escape(word.as_str(), out)?;
    }
    Ok(())
}
