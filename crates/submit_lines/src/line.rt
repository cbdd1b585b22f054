ghost use Rattle.std.specs.Prelude.{◌≡◌, ◌<◌, length, drop, slice_index};
ghost use Rattle.std.specs.Option.{option_map};
ghost use Rattle.submit_lines.specs.Lines.{line_result_of, value_of, plus_line, attribute_line, plain_line, named_line, ends_at, queue_line, line_of};

use crate::name::{cut_name, is_reserved, is_unsupported, past_my};
use ad_token::{is_blank, is_name, trimmed_text};
use std::fmt;
use thiserror::Error;

/// What a line of a submit file says.
#[derive(Clone, Copy)]
pub enum SubmitLine<'a> {
    /// `name = value`
    Setting { name: &'a str, value: &'a str },
    /// `+Name = expression` or `MY.Name = expression`
    Attribute { name: &'a str, value: &'a str },
    /// A queue statement, without the blanks at its ends.
    Queue { text: &'a str },
}

/// Why a line is refused.
#[derive(Clone, Copy, Error)]
pub enum LineFault {
    /// It is malformed, or it sets an attribute that is the pool's own.
    #[error("not a line of a submit file")]
    Bad,
    /// It sets a command that this pool has no use for.
    #[error("an unsupported command")]
    Unsupported,
}

impl fmt::Debug for LineFault {
    fn fmt<W: fmt::Write>(&self, f: &mut fmt::Formatter<W>) -> fmt::Result {
        fmt::Display::fmt(self, f)
    }
}

/// What a line says (HTCondor manual, "Submitting a job"). Computes in O(bytes).
pub fn read_line(line: &str) -> Result<SubmitLine<'_>, LineFault>
    ensures { line_result_of result ≡ line_of line.now }
{
    let text = trimmed_text(line);
    if text.starts_with('+') {
        return plus_line(past_byte(text));
    }
    let (name, rest) = cut_name(text);
    match value_of(rest) {
        Some(value) => named_line(name, value),
        None => queue_line(name, text),
    }
}

// The text after its first byte, which is ASCII.
#[tactic(auto, using(crate::proofs::Boundaries::past_first))]
fn past_byte(text: &str) -> &str
    requires some { 0 < length text.now }
    requires ascii { slice_index text.now 0 < 128 }
    ensures { result.now ≡ drop 1 text.now }
{
    &text[1..]
}

// The value after `=`, without the blanks at its ends.
fn value_of(text: &str) -> Option<&str>
    ensures { option_map (λ v. v.now) result ≡ value_of text.now }
{
    if !text.starts_with('=') {
        return None;
    }
    Some(trimmed_text(past_byte(text)))
}

fn plus_line(text: &str) -> Result<SubmitLine<'_>, LineFault>
    ensures { line_result_of result ≡ plus_line text.now }
{
    let (name, rest) = cut_name(text);
    match value_of(rest) {
        Some(value) => attribute_line(name, value),
        None => Err(LineFault::Bad),
    }
}

fn attribute_line<'a>(name: &'a str, value: &'a str) -> Result<SubmitLine<'a>, LineFault>
    ensures { line_result_of result ≡ attribute_line name.now value.now }
{
    if !is_name(name) || is_reserved(name) {
        return Err(LineFault::Bad);
    }
    Ok(SubmitLine::Attribute { name, value })
}

fn named_line<'a>(name: &'a str, value: &'a str) -> Result<SubmitLine<'a>, LineFault>
    ensures { line_result_of result ≡ named_line name.now value.now }
{
    match past_my(name) {
        Some(own) => attribute_line(own, value),
        None => plain_line(name, value),
    }
}

fn plain_line<'a>(name: &'a str, value: &'a str) -> Result<SubmitLine<'a>, LineFault>
    ensures { line_result_of result ≡ plain_line name.now value.now }
{
    if name.is_empty() {
        return Err(LineFault::Bad);
    }
    if is_unsupported(name) {
        return Err(LineFault::Unsupported);
    }
    Ok(SubmitLine::Setting { name, value })
}

// A line without a sign is a queue statement, or malformed.
fn queue_line<'a>(name: &str, text: &'a str) -> Result<SubmitLine<'a>, LineFault>
    ensures { line_result_of result ≡ queue_line name.now text.now }
{
    if name.eq_ignore_ascii_case("queue") && ends_at(text.as_bytes(), name.len()) {
        Ok(SubmitLine::Queue { text })
    } else {
        Err(LineFault::Bad)
    }
}

// Whether a word that ends at a place has a blank or nothing behind it.
fn ends_at(bytes: &[u8], place: usize) -> bool
    ensures { result ≡ ends_at place bytes.now }
{
    match bytes.get(place) {
        Some(b) => is_blank(*b),
        None => true,
    }
}
