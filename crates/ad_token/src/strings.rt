ghost use Rattle.ad_value.specs.Bytes.{code};
ghost use Rattle.std.specs.Prelude.{◌≡◌, ◌<◌, ℕ, List, IfOk, length, slice_index, false, true};
ghost use Rattle.ad_token.specs.Strings.{closing_quote, unescape_text, TakesCharacter, string_token};

use crate::token::Token;
use ad_value::{Memory, Text};
use std::alloc::Global;

// How many bytes stand before the closing quote.
fn closing_quote(bytes: &[u8]) -> Option<usize>
    ensures { result ≡ closing_quote false bytes.now }
{
    let mut escaped = false;
    for (i, b) in bytes.iter().enumerate() {
        if *b == b'\n' {
            return None;
        }
        if *b == b'"' && !escaped {
            return Some(i);
        }
        escaped = *b == b'\\' && !escaped;
    }
    None
}

// Writes a character, unless it is a backslash, which is held back. Says whether one is.
#[tactic(auto, using(crate::proofs::Escapes::one_more))]
fn write_character(text: &mut String, c: char) -> Result<bool, Memory>
    ensures { (rest : List ℕ) → IfOk result (TakesCharacter false c rest text.old text.new) }
{
    match c {
        '\\' => Ok(true),
        _ => {
            text.push(c)?;
            Ok(false)
        }
    }
}

// Writes the character after a backslash that was held back.
#[tactic(auto, using(crate::proofs::Escapes::one_more))]
fn write_after_backslash(text: &mut String, c: char) -> Result<bool, Memory>
    ensures { (rest : List ℕ) → IfOk result (TakesCharacter true c rest text.old text.new) }
{
    match c {
        '"' => text.push('"')?,
        '\\' => text.push('\\')?,
        _ => {
            text.push('\\')?;
            text.push(c)?;
        }
    }
    Ok(false)
}

// What is written between the quotes.
fn unescape_text(alloc: Global, body: &str) -> Result<Text, Memory>
    ensures { IfOk result (λ t. t ≡ unescape_text false body.now) }
{
    let mut text = String::new(alloc);
    let mut held = false;
    for c in body.chars() {
        held = if held {
            write_after_backslash(&mut text, c)?
        } else {
            write_character(&mut text, c)?
        };
    }
    if held {
        text.push('\\')?;
    }
    Ok(Text::from(text))
}

/// The token that begins with a quote, and its length in bytes. Computes in O(bytes).
#[tactic(auto, unfolding(crate::specs::Strings::string_token))]
pub fn string_token(alloc: Global, text: &str) -> Result<(Token, usize), Memory>
    requires some { 0 < length text.now }
    requires quote { slice_index text.now 0 ≡ code "\"" }
    ensures { IfOk result (λ t. t ≡ string_token text.now) }
{
    #[tactic(auto, using(crate::proofs::Prefixes::past_first))]
    let rest = &text[1..];
    match closing_quote(rest.as_bytes()) {
        Some(n) => Ok((Token::Str(unescape_text(alloc, &rest[..n])?), n + 2)),
        None => Ok((Token::Bad, 1)),
    }
}
