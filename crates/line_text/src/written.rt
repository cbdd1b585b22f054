// What an expansion has written.

ghost use Rattle.std.specs.Prelude.{◌≡◌, ◌≤◌, ◌+◌, [], ◌∷◌, ◌++◌, length, IfOk, IfErr, OnOk};
ghost use Rattle.line_text.specs.Expansion.{piece, joined, total};
ghost use Rattle.line_text.specs.Above.{texts, IsAbove, OneIsAbove, between};

use crate::error::MacroError;
use crate::expansion::MAX_EXPANSION;
use ad_value::{Memory, Text};
use std::alloc::Global;
use std::marker::Model;

/// What is written, piece by piece, without empty pieces: at most `MAX_EXPANSION` bytes. Contracts
/// see the list of the pieces.
#[derive(Drop)]
pub struct Written<'a> {
    pieces: Vec<&'a str>,
    /// The bytes of the pieces.
    length: usize,
}

impl<'a> Model for Written<'a> {
    ghost use Rattle.std.specs.Prelude.{◌≡◌, ◌≤◌, List, ℕ};
    ghost use Rattle.line_text.specs.Above.{texts};
    ghost use Rattle.line_text.specs.Expansion.{total};
    ghost use Rattle.line_text.specs.declared.expansion.TheConstants.{MAX_EXPANSION};

    ghost Value = { List (List ℕ) };

    ghost view = { λ w. texts w.pieces.items };

    ghost invariant = { λ w.
        (w.length ≡ total (texts w.pieces.items)) × (w.length ≤ MAX_EXPANSION) };
}

impl<'a> Written<'a> {
    /// Nothing, without memory. Computes in O(1).
    pub fn new(alloc: Global) -> Written<'a>
        ensures { result ≡ [] }
    {
        Written {
            pieces: Vec::new(alloc),
            length: 0,
        }
    }

    /// How many pieces there are. Computes in O(1).
    pub fn count(&self) -> usize
        ensures count { result ≡ length self.now }
        ensures within { total self.now ≤ MAX_EXPANSION }
    {
        let _ = &self.length;
        self.pieces.len()
    }

    /// Writes a piece, unless it is empty. Computes in O(1) on average.
    pub fn add(&mut self, text: &'a str) -> Result<(), MacroError>
        ensures ok { OnOk result (self.new ≡ self.old ++ piece text.entry.now) }
        ensures fits { OnOk result (total self.new ≤ MAX_EXPANSION) }
        ensures err { IfErr result (IsAbove (total self.old + length text.entry.now)) }
        ensures within { total self.old ≤ MAX_EXPANSION }
    {
        let _ = &self.length;
        if text.is_empty() {
            return Ok(());
        }
        self.push(text)
    }

    fn push(&mut self, text: &'a str) -> Result<(), MacroError>
        ensures ok { OnOk result (self.new ≡ self.old ++ text.entry.now ∷ []) }
        ensures fits { OnOk result (total self.new ≤ MAX_EXPANSION) }
        ensures err { IfErr result (IsAbove (total self.old + length text.entry.now)) }
        ensures within { total self.old ≤ MAX_EXPANSION }
    {
        let length = self.length + text.len();
        if length > MAX_EXPANSION {
            return Err(MacroError::TooLong {
                length: length as u64,
            });
        }
        self.pieces.push(text)?;
        self.length = length;
        Ok(())
    }

    /// Writes the pieces between two places once more. Computes in O(pieces).
    pub fn add_again(&mut self, from: usize, to: usize) -> Result<(), MacroError>
        requires ordered { from ≤ to }
        requires within { to ≤ length self.old }
        ensures ok { OnOk result (self.new ≡ self.old ++ between from to self.old) }
        ensures err { IfErr result (OneIsAbove (total self.old) (between from to self.old)) }
        ensures within { total self.old ≤ MAX_EXPANSION }
    {
        let _ = &self.length;
        for k in from..to {
            let piece = self.pieces[k];
            match self.push(piece) {
                Ok(()) => {}
                Err(error) => return Err(error),
            }
        }
        Ok(())
    }

    /// The pieces as one text. Computes in O(bytes).
    pub fn join(&self, alloc: Global) -> Result<Text, Memory>
        ensures text { IfOk result (λ t. t ≡ joined self.now) }
        ensures within { total self.now ≤ MAX_EXPANSION }
    {
        let _ = &self.length;
        join(alloc, self.pieces.as_slice())
    }
}

fn join(alloc: Global, pieces: &[&str]) -> Result<Text, Memory>
    ensures { IfOk result (λ t. t ≡ joined (texts pieces.now)) }
{
    let mut text = String::new(alloc);
    for piece in pieces {
        text.push_str(piece)?;
    }
    Ok(Text::from(text))
}
