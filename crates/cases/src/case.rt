ghost use Rattle.std.specs.Prelude.{IfErr};
ghost use Rattle.cases.specs.Faults.{IsFieldsAt, IsEscapeAt, IsTextAt, IsNumberAt, IsMemory};

use crate::error::CaseError;
use crate::escapes::unescape;
use std::alloc::Global;

/// A line of cases: its kind, and the fields after it.
#[derive(Clone, Copy)]
pub struct Case<'a> {
    /// The number of its line, from 1.
    pub line: u64,
    /// Its first field.
    pub kind: &'a str,
    text: &'a str,
}

/// The cases of a text, in order, without its blank lines and those that begin with `#`.
/// Computes in O(bytes).
pub fn read_cases(alloc: Global, input: &str) -> Result<Vec<Case<'_>>, CaseError>
    ensures { IfErr result IsMemory }
{
    let mut cases = Vec::new(alloc);
    let mut line = 0u64;
    for text in input.lines() {
        line = line.saturating_add(1);
        if !text.is_empty() && !text.starts_with('#') {
            cases.push(read_case(line, text))?;
        }
    }
    Ok(cases)
}

fn read_case(line: u64, text: &str) -> Case<'_> {
    let kind = text.split('\t').next().unwrap_or("");
    Case { line, kind, text }
}

impl<'a> Case<'a> {
    /// Its one field after the kind. Computes in O(bytes of the line), without memory.
    pub fn one_field(self) -> Result<&'a str, CaseError>
        ensures { IfErr result (IsFieldsAt self.entry.line) }
    {
        let mut fields = self.text.split('\t').skip(1);
        match (fields.next(), fields.next()) {
            (Some(first), None) => Ok(first),
            _ => Err(CaseError::Fields { line: self.line }),
        }
    }

    /// Its two fields after the kind. Computes in O(bytes of the line), without memory.
    pub fn two_fields(self) -> Result<(&'a str, &'a str), CaseError>
        ensures { IfErr result (IsFieldsAt self.entry.line) }
    {
        let mut fields = self.text.split('\t').skip(1);
        match (fields.next(), fields.next(), fields.next()) {
            (Some(first), Some(second), None) => Ok((first, second)),
            _ => Err(CaseError::Fields { line: self.line }),
        }
    }

    /// Its three fields after the kind. Computes in O(bytes of the line), without memory.
    pub fn three_fields(self) -> Result<(&'a str, &'a str, &'a str), CaseError>
        ensures { IfErr result (IsFieldsAt self.entry.line) }
    {
        let mut fields = self.text.split('\t').skip(1);
        match (fields.next(), fields.next(), fields.next(), fields.next()) {
            (Some(first), Some(second), Some(third), None) => Ok((first, second, third)),
            _ => Err(CaseError::Fields { line: self.line }),
        }
    }

    /// Its four fields after the kind. Computes in O(bytes of the line), without memory.
    pub fn four_fields(self) -> Result<(&'a str, &'a str, &'a str, &'a str), CaseError>
        ensures { IfErr result (IsFieldsAt self.entry.line) }
    {
        let mut fields = self.text.split('\t').skip(1);
        match (
            fields.next(),
            fields.next(),
            fields.next(),
            fields.next(),
            fields.next(),
        ) {
            (Some(first), Some(second), Some(third), Some(fourth), None) => {
                Ok((first, second, third, fourth))
            }
            _ => Err(CaseError::Fields { line: self.line }),
        }
    }

    /// Its fields after the kind, however many. Where they are to be a given number, a caller
    /// matches the list, `let [first, second] = fields.as_slice() else ..`. Computes in O(bytes of
    /// the line).
    pub fn all_fields(self, alloc: Global) -> Result<Vec<&'a str>, CaseError>
        ensures { IfErr result IsMemory }
    {
        let mut fields = Vec::new(alloc);
        for field in self.text.split('\t').skip(1) {
            fields.push(field)?;
        }
        Ok(fields)
    }

    /// The bytes that a field stands for. Computes in O(bytes of the field).
    pub fn bytes(self, alloc: Global, field: &str) -> Result<Vec<u8>, CaseError>
        ensures { IfErr result (IsEscapeAt self.entry.line) }
    {
        match unescape(alloc, field.as_bytes())? {
            Some(bytes) => Ok(bytes),
            None => Err(CaseError::Escape { line: self.line }),
        }
    }

    /// The text that a field stands for. Computes in O(bytes of the field).
    pub fn text(self, alloc: Global, field: &str) -> Result<String, CaseError>
        ensures { IfErr result (IsTextAt self.entry.line) }
    {
        match String::from_utf8(self.bytes(alloc, field)?) {
            Ok(text) => Ok(text),
            Err(_) => Err(CaseError::Text { line: self.line }),
        }
    }

    /// A field as a number. Computes in O(bytes of the field), without memory.
    pub fn natural(self, field: &str) -> Result<u64, CaseError>
        ensures { IfErr result (IsNumberAt self.entry.line) }
    {
        match field.parse::<u64>() {
            Ok(number) => Ok(number),
            Err(_) => Err(CaseError::Number { line: self.line }),
        }
    }

    /// A field as a number with or without a sign. Computes in O(bytes of the field), without
    /// memory.
    pub fn integer(self, field: &str) -> Result<i64, CaseError>
        ensures { IfErr result (IsNumberAt self.entry.line) }
    {
        match field.parse::<i64>() {
            Ok(number) => Ok(number),
            Err(_) => Err(CaseError::Number { line: self.line }),
        }
    }
}
