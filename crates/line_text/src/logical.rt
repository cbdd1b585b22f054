// Logical lines.

ghost use Rattle.std.specs.Prelude.{◌≡◌, ◌++◌, IfOk, OnOk, IsTrue};
ghost use Rattle.line_text.specs.Lines.{first_past_blanks, says_nothing, ends_in_backslash, without_last, kept, logical_lines};

use ad_token::is_blank;
use ad_value::{Copied, Memory, Seq, Text};
use std::alloc::Global;

/// A logical line.
#[derive(Drop)]
pub struct Line {
    /// The number of its first line in the file, from 1.
    pub number: u32,
    pub text: Text,
}

/// A list of logical lines.
pub type LineList = Seq<Line>;

impl Copied for Line {
    fn copy(&self, alloc: Global) -> Result<Line, Memory> {
        Ok(Line {
            number: self.number,
            text: self.text.copy(alloc)?,
        })
    }
}

/// The logical lines of a text, in order, without those that say nothing (HTCondor manual,
/// "Submitting a job"). A line ends with a newline, or with the text, and a carriage return before
/// the newline is no part of it. A line whose last byte is a backslash is joined with the next, and
/// the backslash is dropped. A logical line says nothing where it has only blanks, or where its
/// first byte past blanks is `#`. Numbers stop at the greatest of 32 bits. Computes in O(bytes).
pub fn lines(alloc: Global, text: &str) -> Result<LineList, Memory>
    ensures { IfOk result (λ l. l ≡ logical_lines text.now) }
{
    let mut list = LineList::new(alloc);
    let mut joined = String::new(alloc);
    let mut first = 1u32;
    let mut number = 1u32;
    for line in text.lines() {
        number = number.saturating_add(1);
        if ends_in_backslash(line) {
            joined.push_str(without_last(line))?;
        } else {
            joined.push_str(line)?;
            keep(alloc, &mut list, first, joined.as_str())?;
            joined.clear();
            first = number;
        }
    }
    keep(alloc, &mut list, first, joined.as_str())?;
    Ok(list)
}

// Adds a logical line, unless it says nothing.
fn keep(alloc: Global, list: &mut LineList, number: u32, text: &str) -> Result<(), Memory>
    ensures { OnOk result (list.new ≡ list.old ++ kept number text.now) }
{
    if says_nothing(text.as_bytes()) {
        return Ok(());
    }
    let text = Text::from_str(alloc, text)?;
    list.push(Line { number, text })
}

// Whether a logical line has only blanks, or a `#` after them.
fn says_nothing(bytes: &[u8]) -> bool
    ensures { result ≡ says_nothing bytes.now }
{
    match first_past_blanks(bytes) {
        Some(b) => b == b'#',
        None => true,
    }
}

fn first_past_blanks(bytes: &[u8]) -> Option<u8>
    ensures { result ≡ first_past_blanks bytes.now }
{
    bytes.iter().copied().find(|b| !is_blank(*b))
}

fn ends_in_backslash(line: &str) -> bool
    ensures { result ≡ ends_in_backslash line.now }
{
    line.as_bytes().last().copied() == Some(b'\\')
}

// A line without the backslash at its end.
#[tactic(auto, using(crate::proofs::Boundaries::before_last))]
fn without_last(line: &str) -> &str
    requires { IsTrue (ends_in_backslash line.now) }
    ensures { result.now ≡ without_last line.now }
{
    &line[..line.len() - 1]
}
